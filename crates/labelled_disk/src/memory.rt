//! A disk in memory, for tests. It can be made to fail at given calls, and to keep its writes.
ghost use Rattle.std.specs.Prelude.{◌≡◌, ◌<◌, ◌≤◌, ◌^◌, ◌⊎◌, ◌↔◌, ◌+◌, ◌-◌, min, refl, true, false, IsTrue};
ghost use Rattle.std.specs.Prelude.{[], ◌++◌, ◌∷◌, length, replicate, slice_set, vec_capacity};
ghost use Rattle.std.specs.Prelude.{Some, None, IfOk, OnOk, OnErr, IsErr, unwrap_or, option_map};
ghost use Rattle.labelled_disk.specs.Sectors.{zero_sector, AreSectors};
ghost use Rattle.labelled_disk.specs.Syncing.{AreSyncs};
ghost use Rattle.labelled_disk.specs.Calls.{Rose, RevealsSame, Moves, FailsWith, Reads, Writes, WritesData, Syncs};

use crate::kept::{ends_with, keep, synced_once};
use crate::{Disk, DiskError, DiskWrite, Label, NoMemory, PAGE_BYTES, Page, Wanted};
use std::alloc::{AllocError, Allocator};

/// A disk that holds its sectors in memory and reveals them. It is settled by `sync` alone, which
/// never fails.
#[derive(Drop)]
pub struct MemoryDisk<A: Allocator> {
    cells: Vec<(Label, Page), A>,
    failing: Vec<u64, A>,
    recording: bool,
    writes: Vec<DiskWrite, A>,
    syncs: Vec<u64, A>,
    room: u32,
    transfers: u64,
    faults: u64,
    synced: bool,
    ghost few: { length cells.items < 2 ^ 32 },
    ghost few_transfers: { transfers < 2 ^ 64 },
    ghost room_kept: { recording ≡ true → room ≤ vec_capacity writes },
    ghost room_to_sync: { recording ≡ true → room < vec_capacity syncs },
    ghost in_room: { recording ≡ true → length writes.items ≤ room },
    ghost sync_counts: { recording ≡ true → AreSyncs (length writes.items) synced syncs.items },
    ghost in_form: { AreSectors cells.items },
}

impl<A: Allocator + Clone> MemoryDisk<A> {
    ghost use Rattle.labelled_disk.specs.Memory.{memory_state, memory_plan};

    /// A disk of zero sectors, all free, which never fails and doesn't reveal its writes. The memory
    /// for all sectors, 528 bytes each, is taken here, and none later.
    pub fn new(alloc: A, sectors: u32) -> Result<MemoryDisk<A>, NoMemory>
        ensures sectors { IfOk result (λ d. (memory_state d).sectors ≡ sectors) }
        ensures contents { IfOk result (λ d. (memory_state d).contents
            ≡ Some (replicate sectors zero_sector)) }
        ensures writes { IfOk result (λ d. (memory_state d).writes ≡ None) }
        ensures syncs { IfOk result (λ d. (memory_state d).syncs ≡ None) }
        ensures plan { IfOk result (λ d. memory_plan d ≡ record { calls = []; room = None }) }
        ensures counts { IfOk result (λ d. memory_state d
            ≡ record (memory_state d) { transfers = 0; faults = 0; synced = true }) }
    {
        Ok(MemoryDisk {
            cells: zero_sectors(alloc.clone()?, sectors)?,
            failing: Vec::new(alloc.clone()?),
            recording: false,
            writes: Vec::new(alloc.clone()?),
            syncs: Vec::new(alloc),
            room: 0,
            transfers: 0,
            faults: 0,
            synced: true,
        })
    }

    /// Such a disk that fails at the calls with these numbers, counted from 1 over the calls that
    /// move a sector, those that failed among them. It reveals its writes and its syncs, and has
    /// room for so many writes; a write beyond them fails. All memory is taken here.
    pub fn failing(
        alloc: A,
        sectors: u32,
        calls: &[u64],
        room: u32,
    ) -> Result<MemoryDisk<A>, NoMemory>
        ensures sectors { IfOk result (λ d. (memory_state d).sectors ≡ sectors) }
        ensures contents { IfOk result (λ d. (memory_state d).contents
            ≡ Some (replicate sectors zero_sector)) }
        ensures writes { IfOk result (λ d. (memory_state d).writes ≡ Some []) }
        ensures syncs { IfOk result (λ d. (memory_state d).syncs ≡ Some (0 ∷ [])) }
        ensures plan { IfOk result (λ d. memory_plan d ≡ record { calls = calls.now; room = Some room }) }
        ensures counts { IfOk result (λ d. memory_state d
            ≡ record (memory_state d) { transfers = 0; faults = 0; synced = true }) }
    {
        let mut failing = Vec::new(alloc.clone()?);
        failing.extend_from_slice(calls)?;
        Ok(MemoryDisk {
            cells: zero_sectors(alloc.clone()?, sectors)?,
            failing,
            recording: true,
            writes: Vec::with_capacity(alloc.clone()?, room as usize)?,
            syncs: synced_once(alloc, room)?,
            room,
            transfers: 0,
            faults: 0,
            synced: true,
        })
    }
}

fn zero_sectors<A: Allocator>(alloc: A, sectors: u32) -> Result<Vec<(Label, Page), A>, AllocError>
    ensures { IfOk result (λ cells. cells.items ≡ replicate sectors zero_sector) }
{
    let mut cells = Vec::with_capacity(alloc, sectors as usize)?;
    for _sector in 0..sectors {
        cells.push((Label::FREE, [0; PAGE_BYTES]))?;
    }
    Ok(cells)
}

impl<A: Allocator> MemoryDisk<A> {
    ghost use Rattle.labelled_disk.specs.Memory.{memory_state, memory_plan, IsFull, FailsNext, Counts, CountsFault, StaysSyncedIfErr};

    /// The writes that were made, in their order; none of a disk made by `new`.
    pub fn written(&self) -> &[DiskWrite]
        ensures { result.now ≡ unwrap_or (memory_state self.now).writes [] }
    {
        if self.recording { &self.writes } else { &[] }
    }

    /// How many writes had been made at each sync, each number once, in their order. A new disk
    /// is settled, so that 0 is the first. None of a disk made by `new`.
    pub fn syncs(&self) -> &[u64]
        ensures { result.now ≡ unwrap_or (memory_state self.now).syncs [] }
    {
        if self.recording { &self.syncs } else { &[] }
    }

    // Counts a call that moves a sector, and answers whether the call fails.
    fn moves(&mut self) -> Result<(), DiskError>
        ensures cells { self.new.cells.items ≡ self.old.cells.items }
        ensures same { RevealsSame (memory_state self.old) (memory_state self.new) }
        ensures moves { Moves (memory_state self.old) (memory_state self.new) }
        ensures fails { FailsWith result (memory_state self.old) (memory_state self.new) }
        ensures exact { IsErr result ↔ FailsNext self.old }
        ensures counts { Counts result self.old self.new }
        ensures synced { self.new.synced ≡ self.old.synced }
    {
        if self.transfers < u64::MAX {
            self.transfers += 1;
        }
        if self.failing.contains(&self.transfers) {
            return Err(self.fault());
        }
        Ok(())
    }

    // Keeps a write in the list, where there is one.
    fn record(&mut self, write: DiskWrite) -> Result<(), DiskError>
        ensures cells { self.new.cells.items ≡ self.old.cells.items }
        ensures recorded { OnOk result ((memory_state self.new).writes
            ≡ option_map (λ writes. writes ++ write ∷ []) (memory_state self.old).writes) }
        ensures same { OnErr result (RevealsSame (memory_state self.old) (memory_state self.new)) }
        ensures fails { FailsWith result (memory_state self.old) (memory_state self.new) }
        ensures exact { IsErr result ↔ IsFull self.old }
        ensures plan { memory_plan self.new ≡ memory_plan self.old }
        ensures never_falls { self.old.faults ≤ self.new.faults }
        ensures faults { CountsFault result self.old.faults self.new.faults }
        ensures transfers { self.new.transfers ≡ self.old.transfers }
        ensures syncs { (memory_state self.new).syncs ≡ (memory_state self.old).syncs }
        ensures synced { StaysSyncedIfErr result (memory_state self.old) (memory_state self.new) }
    {
        if !keep(&mut self.writes, self.recording, self.room, write) {
            return Err(self.fault());
        }
        self.synced = false;
        Ok(())
    }

    // Puts a label and a page in a sector.
    fn put(&mut self, sector: u32, label: Label, page: &Page)
        requires { sector < length self.old.cells.items }
        ensures cells { self.new.cells.items ≡ slice_set self.old.cells.items sector (label, page.now) }
        ensures writes { (memory_state self.new).writes ≡ (memory_state self.old).writes }
        ensures plan { memory_plan self.new ≡ memory_plan self.old }
        ensures faults { self.new.faults ≡ self.old.faults }
        ensures transfers { self.new.transfers ≡ self.old.transfers }
        ensures syncs { (memory_state self.new).syncs ≡ (memory_state self.old).syncs }
        ensures synced { self.new.synced ≡ self.old.synced }
    {
        self.cells[sector as usize] = (label, *page);
    }

    fn fault(&mut self) -> DiskError
        ensures result { result ≡ DiskError.Failed }
        ensures cause { Rose self.old.faults self.new.faults }
        ensures never_falls { self.old.faults ≤ self.new.faults }
        ensures faults { self.new.faults ≡ min (self.old.faults + 1) (2 ^ 64 - 1) }
        ensures cells { self.new.cells.items ≡ self.old.cells.items }
        ensures same { RevealsSame (memory_state self.old) (memory_state self.new) }
        ensures plan { memory_plan self.new ≡ memory_plan self.old }
        ensures transfers { self.new.transfers ≡ self.old.transfers }
        ensures syncs { (memory_state self.new).syncs ≡ (memory_state self.old).syncs }
        ensures synced { self.new.synced ≡ self.old.synced }
    {
        if self.faults < u64::MAX {
            self.faults += 1;
        }
        DiskError::Failed
    }
}

impl<A: Allocator> Disk for MemoryDisk<A> {
    ghost use Rattle.labelled_disk.specs.Memory.{memory_state, memory_plan, names_at, IsFull, FailsNext, Counts, IsFailed, StaysSyncedIfErr, same_some};
    ghost use Rattle.labelled_disk.specs.Syncing.{revealed_syncs};

    ghost state = { memory_state };

    ghost whole = { λ d all is. same_some is (λ l. length l ≡ length d.cells.items) refl };

    ghost in_form = { λ d all is. same_some is AreSectors d.in_form };

    ghost few = { λ d. d.few };

    ghost few_transfers = { λ d. d.few_transfers };

    ghost sync_counts = { λ d. revealed_syncs d.recording d.synced d.writes.items d.syncs.items d.sync_counts };

    fn sectors(&self) -> u32 {
        self.cells.len() as u32
    }

    fn read(&mut self, sector: u32, page: &mut Page) -> Result<Label, DiskError>
        requires { sector < (memory_state self.old).sectors }
        ensures reads { Reads (memory_state self.old) sector page.new result (memory_state self.new) }
        ensures fails { IsErr result ↔ FailsNext self.old }
        ensures counts { Counts result self.old self.new }
        ensures synced { (memory_state self.new).synced ≡ (memory_state self.old).synced }
    {
        self.moves()?;
        let (label, found) = self.cells[sector as usize];
        *page = found;
        Ok(label)
    }

    fn write(&mut self, sector: u32, label: &Label, page: &Page) -> Result<(), DiskError>
        requires { sector < (memory_state self.old).sectors }
        ensures writes { Writes (DiskWrite.Whole sector label.now page.now) (memory_state self.old)
            result (memory_state self.new) }
        ensures fails { IsErr result ↔ (FailsNext self.old ⊎ IsFull self.old) }
        ensures same { OnErr result (RevealsSame (memory_state self.old) (memory_state self.new)) }
        ensures counts { Counts result self.old self.new }
        ensures synced { StaysSyncedIfErr result (memory_state self.old) (memory_state self.new) }
    {
        self.moves()?;
        self.record(DiskWrite::Whole {
            sector,
            label: *label,
            page: *page,
        })?;
        self.put(sector, *label, page);
        Ok(())
    }

    fn write_label(&mut self, sector: u32, label: &Label) -> Result<(), DiskError>
        requires { sector < (memory_state self.old).sectors }
        ensures writes { Writes (DiskWrite.LabelOnly sector label.now) (memory_state self.old)
            result (memory_state self.new) }
        ensures fails { IsErr result ↔ (FailsNext self.old ⊎ IsFull self.old) }
        ensures same { OnErr result (RevealsSame (memory_state self.old) (memory_state self.new)) }
        ensures counts { Counts result self.old self.new }
        ensures synced { StaysSyncedIfErr result (memory_state self.old) (memory_state self.new) }
    {
        self.moves()?;
        self.record(DiskWrite::LabelOnly {
            sector,
            label: *label,
        })?;
        let (_, page) = self.cells[sector as usize];
        self.put(sector, *label, &page);
        Ok(())
    }

    fn write_data(&mut self, sector: u32, wanted: Wanted, page: &Page) -> Result<(), DiskError>
        requires { sector < (memory_state self.old).sectors }
        ensures writes { WritesData sector wanted page.now (memory_state self.old) result
            (memory_state self.new) }
        ensures fails { IsFailed result ↔ (FailsNext self.old
            ⊎ (IsTrue (names_at self.old sector wanted) × IsFull self.old)) }
        ensures same { OnErr result (RevealsSame (memory_state self.old) (memory_state self.new)) }
        ensures counts { Counts result self.old self.new }
        ensures synced { StaysSyncedIfErr result (memory_state self.old) (memory_state self.new) }
    {
        self.moves()?;
        let (found, _) = self.cells[sector as usize];
        if !found.names(wanted) {
            return Err(DiskError::Wrong { found });
        }
        self.record(DiskWrite::Page {
            sector,
            wanted,
            page: *page,
        })?;
        self.put(sector, found, page);
        Ok(())
    }

    fn sync(&mut self) -> Result<(), DiskError>
        ensures syncs { Syncs (memory_state self.old) result (memory_state self.new) }
        ensures never_fails { result ≡ Ok tt }
        ensures faults { (memory_state self.new).faults ≡ (memory_state self.old).faults }
        ensures plan { memory_plan self.new ≡ memory_plan self.old }
    {
        self.synced = true;
        if !self.recording {
            return Ok(());
        }
        let made = self.writes.len() as u64;
        if ends_with(&self.syncs, made) {
            return Ok(());
        }
        let _ = self.syncs.push(made);
        Ok(())
    }

    fn transfers(&self) -> u64 {
        self.transfers
    }

    fn faults(&self) -> u64 {
        self.faults
    }
}
