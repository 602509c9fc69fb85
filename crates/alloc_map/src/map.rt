//! The map.
ghost use Rattle.std.specs.Prelude.{◌≡◌, ℕ, ◌+◌, ◌-◌, ◌*◌, ◌≤◌, ◌<◌, true, false, not, List, IfOk, IfErr, OnOk, OnErr, Err};
ghost use Rattle.alloc_map.specs.Bits.{is_used, AreAll, free_in, RevealsMarked, RevealsOthers};
ghost use Rattle.alloc_map.specs.Pages.{pages_to, pages_between};
ghost use Rattle.alloc_map.specs.Runs.{IsDataRun, IsLowestFree, IsLongestFree, RevealsTaken, RevealsSomeTaken, IfMem};

use crate::{AllocError, pages, search};
use flat_mem::FlatMem;

/// The map of the used sectors of a volume, a bit each in the pages of a memory.
///
/// The data sectors are those from the first one up to the number of sectors. Only these are given out and counted.
#[derive(Drop)]
pub struct AllocMap<M: FlatMem> {
    mem: M,
    first: u32,
    sectors: u32,
    ghost order: { first < sectors },
    ghost fits: { 512 * pages_to sectors ≤ M.size mem },
}

impl<M: FlatMem> AllocMap<M> {
    ghost use Rattle.alloc_map.specs.AllocMap.{map_memory, first_data, sector_count};

    /// The map of so many sectors, of which those from `first` on are data sectors.
    pub fn over(mem: M, first: u32, sectors: u32) -> AllocMap<M>
        requires order { first < sectors }
        requires fits { 512 * pages_to sectors ≤ M.size mem }
        ensures memory { map_memory result ≡ mem }
        ensures first { first_data result ≡ first }
        ensures sectors { sector_count result ≡ sectors }
    {
        AllocMap {
            mem,
            first,
            sectors,
        }
    }

    /// Whether a sector is free.
    pub fn is_free(&mut self, sector: u32) -> Result<bool, M::Error>
        requires { sector < sector_count self.old }
        ensures free { (b : List ℕ) → M.reveals (map_memory self.old) b
            → IfOk result (λ free. free ≡ not (is_used b sector)) }
        ensures cause { IfErr result (λ e. M.accounted (map_memory self.old) (map_memory self.new) e) }
        ensures unchanged { (b : List ℕ) → M.reveals (map_memory self.old) b
            → M.reveals (map_memory self.new) b }
        ensures first { first_data self.new ≡ first_data self.old }
        ensures sectors { sector_count self.new ≡ sector_count self.old }
        ensures kept { M.beside (map_memory self.old) (map_memory self.new) }
        ensures looked { M.only_reads (map_memory self.old) (map_memory self.new) }
        ensures cost { M.spent (map_memory self.new) ≤ M.spent (map_memory self.old) + M.cost }
    {
        let found = pages::find(&mut self.mem, sector, sector + 1, false)?;
        Ok(found == sector)
    }

    /// How many data sectors are free.
    pub fn free_count(&mut self) -> Result<u32, M::Error>
        ensures count { (b : List ℕ) → M.reveals (map_memory self.old) b
            → IfOk result (λ n. n ≡ free_in b (first_data self.old) (sector_count self.old - first_data self.old)) }
        ensures form { IfOk result (λ n. n ≤ sector_count self.old - first_data self.old) }
        ensures cause { IfErr result (λ e. M.accounted (map_memory self.old) (map_memory self.new) e) }
        ensures unchanged { (b : List ℕ) → M.reveals (map_memory self.old) b
            → M.reveals (map_memory self.new) b }
        ensures first { first_data self.new ≡ first_data self.old }
        ensures sectors { sector_count self.new ≡ sector_count self.old }
        ensures kept { M.beside (map_memory self.old) (map_memory self.new) }
        ensures looked { M.only_reads (map_memory self.old) (map_memory self.new) }
        ensures cost { M.spent (map_memory self.new)
            ≤ M.spent (map_memory self.old) + pages_to (sector_count self.old) * M.cost }
    {
        pages::count_free(&mut self.mem, self.first, self.sectors)
    }

    /// Takes a free data sector and as many free ones directly after it as there are, at most `most` together. Where all
    /// data sectors before `from` are used it is the lowest free one.
    ///
    /// Gives the first sector and how many were taken. After an error of the memory some of the free data sectors may be
    /// marked.
    pub fn take(&mut self, from: u32, most: u32) -> Result<(u32, u32), AllocError<M::Error>>
        requires { 1 ≤ most }
        ensures lowest { (b : List ℕ) → M.reveals (map_memory self.old) b → AreAll true b (first_data self.old) from
            → IfOk result (λ run. IsLowestFree b (first_data self.old) (sector_count self.old) run.0) }
        ensures longest { (b : List ℕ) → M.reveals (map_memory self.old) b
            → IfOk result (λ run. IsLongestFree b (sector_count self.old) most run.0 run.1) }
        ensures taken { (b : List ℕ) → M.reveals (map_memory self.old) b
            → IfOk result (RevealsTaken (M.reveals (map_memory self.new)) b) }
        ensures form { IfOk result (IsDataRun (first_data self.old) (sector_count self.old) most) }
        ensures no_room { (b : List ℕ) → M.reveals (map_memory self.old) b
            → result ≡ Err AllocError.NoRoom → AreAll true b (first_data self.old) (sector_count self.old) }
        ensures cause { IfErr result (IfMem (M.accounted (map_memory self.old) (map_memory self.new))) }
        ensures unchanged { (b : List ℕ) → M.reveals (map_memory self.old) b
            → result ≡ Err AllocError.NoRoom → M.reveals (map_memory self.new) b }
        ensures others { (b : List ℕ) → M.reveals (map_memory self.old) b
            → OnErr result (RevealsSomeTaken (M.reveals (map_memory self.new)) b
            (first_data self.old) (sector_count self.old)) }
        ensures sectors { (first_data self.new ≡ first_data self.old)
            × (sector_count self.new ≡ sector_count self.old) }
        ensures kept { M.beside (map_memory self.old) (map_memory self.new) }
        // two looks, and one read and one write a page
        ensures cost { M.spent (map_memory self.new)
            ≤ M.spent (map_memory self.old) + 4 * pages_to (sector_count self.old) * M.cost }
    {
        let sector = match search::find_free(&mut self.mem, self.first, from, self.sectors) {
            Ok(sector) => sector,
            Err(error) => return Err(AllocError::Mem(error)),
        };
        if sector == self.sectors {
            return Err(AllocError::NoRoom);
        }
        let limit = sector + most.min(self.sectors - sector);
        let end = match pages::find(&mut self.mem, sector + 1, limit, true) {
            Ok(end) => end,
            Err(error) => return Err(AllocError::Mem(error)),
        };
        match pages::set_range(&mut self.mem, sector, end, true) {
            Ok(()) => Ok((sector, end - sector)),
            Err(error) => Err(AllocError::Mem(error)),
        }
    }

    /// Marks data sectors free. After an error which of them are marked is open.
    pub fn give(&mut self, sector: u32, pages: u32) -> Result<(), M::Error>
        requires data { first_data self.old ≤ sector }
        requires inside { sector + pages ≤ sector_count self.old }
        ensures given { (b : List ℕ) → M.reveals (map_memory self.old) b
            → OnOk result (RevealsMarked false (M.reveals (map_memory self.new)) b sector (sector + pages)) }
        ensures cause { IfErr result (λ e. M.accounted (map_memory self.old) (map_memory self.new) e) }
        ensures others { (b : List ℕ) → M.reveals (map_memory self.old) b
            → OnErr result (RevealsOthers (M.reveals (map_memory self.new)) b sector (sector + pages)) }
        ensures first { first_data self.new ≡ first_data self.old }
        ensures sectors { sector_count self.new ≡ sector_count self.old }
        ensures kept { M.beside (map_memory self.old) (map_memory self.new) }
        // one read and one write a page
        ensures cost { M.spent (map_memory self.new)
            ≤ M.spent (map_memory self.old) + 2 * pages_between sector (sector + pages) * M.cost }
    {
        pages::set_range(&mut self.mem, sector, sector + pages, false)
    }
}
