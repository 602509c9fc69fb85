//! The map.
ghost use Rattle.std.specs.Prelude.{◌≡◌, ◌⊎◌, ℕ, ◌+◌, ◌*◌, ◌/◌, ◌<◌, ◌≤◌, true, List, replicate, IfOk, IfErr, IfSome, MatchResult};
ghost use Rattle.page_tree.specs.Page.{page_at};
ghost use Rattle.labelled_disk.specs.Layout.{IsCount, vfm};
ghost use Rattle.file_map.specs.Run.{IsRun, holds, run_bytes};
ghost use Rattle.file_map.specs.FileMap.{Triples, IsFound, IsSize, IsNext, IsNew, no_triples, with_run, without_from, most_records};
ghost use Rattle.file_map.specs.Entries.{Entry};
ghost use Rattle.file_map.specs.Cause.{IsCause, IsAddCause, IsToCut, FromMemory, IsFullOr, IsMost, IfFull};

use crate::error::MapError;
use crate::run::Run;
use crate::{add, cut, reads};
use flat_mem::FlatMem;
use labelled_disk::FileId;
use page_tree::PageTree;

/// The map of the pages of a volume's files: in which sector each of them stands, leaders among them.
///
/// After an error in a call that writes what the memory holds is open, but for `Full`.
#[derive(Drop)]
pub struct FileMap<M: FlatMem> {
    mem: M,
    sectors: u32,
    ghost count: { IsCount sectors },
    ghost pages: { M.size mem ≡ 512 * vfm sectors },
}

impl<M: FlatMem> FileMap<M> {
    ghost use Rattle.file_map.specs.Map.{map_memory, map_sectors, Names, Counts, Shows, ShownBy};

    /// The map of a volume of so many sectors, in a memory of the pages that the volume's layout gives it.
    pub fn over(mem: M, sectors: u32) -> FileMap<M>
        requires count { IsCount sectors }
        requires pages { M.size mem ≡ 512 * vfm sectors }
        ensures memory { map_memory result ≡ mem }
        ensures sectors { map_sectors result ≡ sectors }
        // a first page of zeros is the map of a volume without files
        ensures empty { (b : List ℕ) → M.reveals mem b → page_at b 0 ≡ replicate 512 0 → Names result no_triples }
    {
        FileMap { mem, sectors }
    }

    /// The run that has this page, or none where the page has no sector.
    pub fn find(&mut self, id: FileId, page: u32) -> Result<Option<Run>, MapError<M::Error>>
        ensures found { (named : Triples) → Names self.old named
            → MatchResult result (IsFound named id page) FromMemory }
        ensures form { IfOk result (λ found. IfSome found (λ run. IsRun (map_sectors self.old) run)) }
        ensures holds { IfOk result (λ found. IfSome found (λ run. holds run id page ≡ true)) }
        ensures read { IfOk result
            (λ found. IfSome found (λ run. (at : ℕ) × Shows self.old (Entry at (run_bytes run)))) }
        ensures same { (named : Triples) → Names self.old named → Names self.new named }
        ensures same_count { (n : ℕ) → Counts self.old n → Counts self.new n }
        ensures same_bytes { (b : List ℕ) → M.reveals (map_memory self.old) b → M.reveals (map_memory self.new) b }
        ensures sectors { map_sectors self.new ≡ map_sectors self.old }
        ensures kept { M.beside (map_memory self.old) (map_memory self.new) }
        ensures looked { M.only_reads (map_memory self.old) (map_memory self.new) }
        ensures cause { IfErr result
            (IsCause (map_sectors self.old) ⊥ (Shows self.old)
            (M.accounted (map_memory self.old) (map_memory self.new))) }
        ensures cost { M.spent (map_memory self.new) ≤ M.spent (map_memory self.old) + 7 * M.cost }
    {
        let mut tree = PageTree::<&mut M, 24, 12>::over(&mut self.mem);
        reads::find(&mut tree, self.sectors, id, page)
    }

    /// One more than the highest page of the file, its leader left out, or 0.
    pub fn size(&mut self, id: FileId) -> Result<u32, MapError<M::Error>>
        ensures size { (named : Triples) → Names self.old named → MatchResult result (IsSize named id) FromMemory }
        ensures same { (named : Triples) → Names self.old named → Names self.new named }
        ensures same_count { (n : ℕ) → Counts self.old n → Counts self.new n }
        ensures same_bytes { (b : List ℕ) → M.reveals (map_memory self.old) b → M.reveals (map_memory self.new) b }
        ensures sectors { map_sectors self.new ≡ map_sectors self.old }
        ensures kept { M.beside (map_memory self.old) (map_memory self.new) }
        ensures looked { M.only_reads (map_memory self.old) (map_memory self.new) }
        ensures cause { IfErr result
            (IsCause (map_sectors self.old) ⊥ (Shows self.old)
            (M.accounted (map_memory self.old) (map_memory self.new))) }
        ensures cost { M.spent (map_memory self.new) ≤ M.spent (map_memory self.old) + 7 * M.cost }
    {
        let mut tree = PageTree::<&mut M, 24, 12>::over(&mut self.mem);
        reads::size(&mut tree, self.sectors, id)
    }

    /// The least identifier above this one, and at least 16, of which a page has a sector.
    pub fn next_file(&mut self, id: FileId) -> Result<Option<FileId>, MapError<M::Error>>
        ensures next { (named : Triples) → Names self.old named → MatchResult result (IsNext named id) FromMemory }
        ensures above { IfOk result (λ found. IfSome found (λ next. (id < next) × (16 ≤ next))) }
        ensures same { (named : Triples) → Names self.old named → Names self.new named }
        ensures same_count { (n : ℕ) → Counts self.old n → Counts self.new n }
        ensures same_bytes { (b : List ℕ) → M.reveals (map_memory self.old) b → M.reveals (map_memory self.new) b }
        ensures sectors { map_sectors self.new ≡ map_sectors self.old }
        ensures kept { M.beside (map_memory self.old) (map_memory self.new) }
        ensures looked { M.only_reads (map_memory self.old) (map_memory self.new) }
        ensures cause { IfErr result
            (IsCause (map_sectors self.old) ⊥ (Shows self.old)
            (M.accounted (map_memory self.old) (map_memory self.new))) }
        ensures cost { M.spent (map_memory self.new) ≤ M.spent (map_memory self.old) + 18 * M.cost }
    {
        let mut tree = PageTree::<&mut M, 24, 12>::over(&mut self.mem);
        reads::next_file(&mut tree, self.sectors, id)
    }

    /// Gives the pages of a run their sectors. They had none before.
    ///
    /// The run is joined to the one before it where they touch in page and in sector.
    pub fn add(&mut self, run: Run) -> Result<(), MapError<M::Error>>
        requires { IsRun (map_sectors self.old) run }
        ensures added { (named : Triples) → Names self.old named → IsNew named run
            → MatchResult result (λ _. Names self.new (with_run named run))
            (IsFullOr (Counts self.old (most_records (map_sectors self.old))) (Names self.new named)) }
        ensures full_same { (b : List ℕ) → M.reveals (map_memory self.old) b
            → IfErr result (IfFull (M.reveals (map_memory self.new) b)) }
        ensures room { (n : ℕ) → Counts self.old n → IfOk result (λ _. n < most_records (map_sectors self.old)) }
        ensures sectors { map_sectors self.new ≡ map_sectors self.old }
        ensures kept { M.beside (map_memory self.old) (map_memory self.new) }
        ensures cause { IfErr result
            (IsAddCause (map_sectors self.old) (IsMost (map_sectors self.old) (Counts self.old)) (Shows self.old)
            (M.accounted (map_memory self.old) (map_memory self.new))) }
        ensures cost { M.spent (map_memory self.new) ≤ M.spent (map_memory self.old) + 49 * M.cost }
    {
        let mut tree = PageTree::<&mut M, 24, 12>::over(&mut self.mem);
        add::add(&mut tree, self.sectors, run)
    }

    /// Takes the pages of the file from one on out of the map, the leader among them.
    pub fn cut(&mut self, id: FileId, from: u32) -> Result<(), MapError<M::Error>>
        ensures cut { (named : Triples) → Names self.old named
            → MatchResult result (λ _. Names self.new (without_from named id from)) FromMemory }
        ensures sectors { map_sectors self.new ≡ map_sectors self.old }
        ensures kept { M.beside (map_memory self.old) (map_memory self.new) }
        ensures cause { IfErr result
            (λ error.
            (m : M) × M.beside (map_memory self.old) m × M.beside m (map_memory self.new)
            × IsCause (map_sectors self.old) ⊥ (ShownBy (M.reveals m) (M.size m / 512))
            (M.accounted (map_memory self.old) (map_memory self.new)) error) }
        // it is a cause in the bytes at the start, or a record of the file, whole or in part, was to be taken out of them
        ensures begun { IfErr result
            (λ error.
            IsCause (map_sectors self.old) ⊥ (Shows self.old) (M.accounted (map_memory self.old) (map_memory self.new))
            error
            ⊎ IsToCut id from (Shows self.old)) }
        ensures cost { M.spent (map_memory self.new) ≤ M.spent (map_memory self.old)
            + (1 + most_records (map_sectors self.old) * (7 + 8 + 36)) * M.cost }
        ensures cost_sized { (named : Triples) (size : ℕ) → Names self.old named → IsSize named id size
            → M.spent (map_memory self.new) ≤ M.spent (map_memory self.old) + (1 + (size + 2) * (7 + 8 + 36)) * M.cost }
    {
        let mut tree = PageTree::<&mut M, 24, 12>::over(&mut self.mem);
        cut::cut(&mut tree, self.sectors, id, from)
    }
}
