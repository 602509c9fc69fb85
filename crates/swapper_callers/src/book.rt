//! A swapper, and how many entries a table in its second map has.
ghost use Rattle.std.specs.Prelude.{◌≡◌, ◌<◌, ◌≤◌, ◌+◌, ◌*◌, ◌^◌, ◌↔◌, ℕ, true, false, if◌then◌else◌, List, Err, IfOk, IfErr, OnOk, is_ok};
ghost use Rattle.labelled_disk.specs.Calls.{Rose};
ghost use Rattle.record_table.specs.Table.{RevealsEntries, capacity_of, pages_of, entries};
ghost use Rattle.record_table.specs.Edits.{IsInserted, IfMem as IfTable};
ghost use Rattle.flat_mem.specs.Order.{IsFound, IsInKeyOrder};
ghost use Rattle.alloc_map.specs.Pages.{pages_to};
ghost use Rattle.alloc_map.specs.Runs.{IsDataRun, IfMem, IsLowestFree, RevealsTaken};
ghost use Rattle.alloc_map.specs.Bits.{AreAll, RevealsMarked};
ghost use Rattle.swapper_kernel.specs.declared.manager.Manager.TheVariants.{AllocationMap, FileMap};

use alloc_map::{AllocError, AllocMap};
use labelled_disk::{Disk, Halt};
use record_table::{RecordTable, TableError};
use std::alloc::Allocator;
use swapper_kernel::{Manager, MapMemory, Swapper};

/// A swapper, and how many entries the table in its file map has.
#[derive(Drop)]
pub struct BookOver<D: Disk, A: Allocator> {
    pub(crate) memory: Swapper<D, A>,
    pub(crate) count: u32,
}

/// The same over a disk that is lent.
pub type Book<'d, D, A> = BookOver<&'d mut D, A>;

impl<D: Disk, A: Allocator> BookOver<D, A> {
    ghost use Rattle.swapper_callers.specs.View.{MapBeside, MapHalts, MapShows, TouchesMap, map_size, view_of};

    /// The last of the entries whose key is at most this one.
    pub fn find(&mut self, key: &[u8; 12]) -> Result<Option<u32>, Halt>
        requires count { (view_of self.old).count ≤ capacity_of 24 (map_size FileMap (view_of self.old)) }
        requires small { map_size FileMap (view_of self.old) ≤ 2 ^ 31 }
        ensures found { (b : List ℕ) → MapShows FileMap (view_of self.old) b
            → IsInKeyOrder 12 (entries 24 b (view_of self.old).count)
            → IfOk result (IsFound 12 (entries 24 b (view_of self.old).count) key.now) }
        ensures shows { (b : List ℕ) → MapShows FileMap (view_of self.old) b → MapShows FileMap (view_of self.new) b }
        ensures kept { TouchesMap FileMap (view_of self.old) (view_of self.new) }
        ensures cause { IfErr result (MapHalts FileMap (view_of self.old) (view_of self.new)) }
        ensures cost { (t : ℕ) → pages_of 24 (view_of self.old).count ≤ 2 ^ t
            → (view_of self.new).disk.transfers ≤ (view_of self.old).disk.transfers + (1 + t) * 2 }
    {
        let mut table = RecordTable::<MapMemory<D, A>, 24, 12>::over(
            self.memory.map_memory(Manager::FileMap),
            self.count,
        );
        table.find_last_at_most(key)
    }

    /// One entry more. After an error of the disk the entries are open, and the count is what it was.
    pub fn add(&mut self, entry: &[u8; 24]) -> Result<(), TableError<Halt>>
        requires count { (view_of self.old).count ≤ capacity_of 24 (map_size FileMap (view_of self.old)) }
        requires small { map_size FileMap (view_of self.old) ≤ 2 ^ 31 }
        ensures inserted { (b : List ℕ) → MapShows FileMap (view_of self.old) b
            → OnOk result
            (IsInserted 12 (RevealsEntries 24 (MapShows FileMap (view_of self.new)) ((view_of self.old).count + 1))
            (entries 24 b (view_of self.old).count) entry.now) }
        ensures full { (result ≡ Err TableError.Full) ↔
            ((view_of self.old).count ≡ capacity_of 24 (map_size FileMap (view_of self.old))) }
        ensures count { (view_of self.new).count ≡
            (if is_ok result then (view_of self.old).count + 1 else (view_of self.old).count) }
        ensures layout { (view_of self.new).layout ≡ (view_of self.old).layout }
        ensures kept { MapBeside FileMap (view_of self.old) (view_of self.new) }
        ensures cause { IfErr result (IfTable (MapHalts FileMap (view_of self.old) (view_of self.new))) }
    {
        let mut table = RecordTable::<MapMemory<D, A>, 24, 12>::over(
            self.memory.map_memory(Manager::FileMap),
            self.count,
        );
        let answer = table.insert(entry);
        self.count = table.count();
        answer
    }

    /// Takes sectors.
    pub fn take(
        &mut self,
        first: u32,
        sectors: u32,
        most: u32,
    ) -> Result<(u32, u32), AllocError<Halt>>
        requires order { first < sectors }
        requires fits { 512 * pages_to sectors ≤ map_size AllocationMap (view_of self.old) }
        requires some { 1 ≤ most }
        ensures lowest { (b : List ℕ) → MapShows AllocationMap (view_of self.old) b
            → IfOk result (λ run. IsLowestFree b first sectors run.0) }
        ensures taken { (b : List ℕ) → MapShows AllocationMap (view_of self.old) b
            → IfOk result (RevealsTaken (MapShows AllocationMap (view_of self.new)) b) }
        ensures form { IfOk result (IsDataRun first sectors most) }
        ensures no_room { (b : List ℕ) → MapShows AllocationMap (view_of self.old) b → result ≡ Err AllocError.NoRoom
            → AreAll true b first sectors }
        ensures kept { TouchesMap AllocationMap (view_of self.old) (view_of self.new) }
        ensures cause { IfErr result (IfMem (MapHalts AllocationMap (view_of self.old) (view_of self.new))) }
        ensures cost { (view_of self.new).disk.transfers ≤
            (view_of self.old).disk.transfers + 4 * pages_to sectors * 2 }
    {
        let mut map = AllocMap::<MapMemory<D, A>>::over(
            self.memory.map_memory(Manager::AllocationMap),
            first,
            sectors,
        );
        map.take(first, most)
    }

    /// Gives sectors back.
    pub fn give(&mut self, first: u32, sectors: u32, sector: u32, pages: u32) -> Result<(), Halt>
        requires order { first < sectors }
        requires fits { 512 * pages_to sectors ≤ map_size AllocationMap (view_of self.old) }
        requires data { first ≤ sector }
        requires inside { sector + pages ≤ sectors }
        ensures given { (b : List ℕ) → MapShows AllocationMap (view_of self.old) b
            → OnOk result (RevealsMarked false (MapShows AllocationMap (view_of self.new)) b sector (sector + pages)) }
        ensures kept { TouchesMap AllocationMap (view_of self.old) (view_of self.new) }
        ensures cause { IfErr result (MapHalts AllocationMap (view_of self.old) (view_of self.new)) }
    {
        let mut map = AllocMap::<MapMemory<D, A>>::over(
            self.memory.map_memory(Manager::AllocationMap),
            first,
            sectors,
        );
        map.give(sector, pages)
    }

    /// Waits for what was written, through the disk that the swapper lends.
    pub fn sync(&mut self) -> Result<(), Halt>
        ensures synced { OnOk result ((view_of self.new).disk.synced ≡ true) }
        ensures cause { IfErr result (λ e. Rose (view_of self.old).disk.faults (view_of self.new).disk.faults) }
        ensures count { (view_of self.new).count ≡ (view_of self.old).count }
        ensures pool { (view_of self.new).slots ≡ (view_of self.old).slots }
        ensures layout { (view_of self.new).layout ≡ (view_of self.old).layout }
    {
        let disk = self.memory.disk_over();
        match disk.sync() {
            Ok(()) => Ok(()),
            Err(_) => Err(Halt::Disk),
        }
    }
}
