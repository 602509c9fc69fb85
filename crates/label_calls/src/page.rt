//! The label of one data sector.
ghost use Rattle.std.specs.Prelude.{◌≡◌, ◌⊎◌, ◌<◌, ◌≤◌, ◌+◌, ℕ, false, List, [], Some, IfErr, OnErr, OnOk};
ghost use Rattle.labelled_disk.specs.declared.disk.DiskWrite.TheVariants as write;
ghost use Rattle.labelled_disk.specs.Label.{leader_page, is_permanent};
ghost use Rattle.labelled_disk.specs.Runs.{zero_bytes};
ghost use Rattle.labelled_disk.specs.Sectors.{Sector, free_label};
ghost use Rattle.labelled_disk.specs.State.{HasLabel};
ghost use Rattle.labelled_disk.specs.declared.label.Label.{Label};
ghost use Rattle.label_calls.specs.Clearing.{MayBeFresh};
ghost use Rattle.label_calls.specs.Fails.{FailsBy};
ghost use Rattle.label_calls.specs.Labels.{AreData, HasOne, IsFresh, IsNotOf, IsTaken, MayMark, MayRelabel, Relabels, free_ones, ones_of, with_mark};
ghost use Rattle.label_calls.specs.Own.{RelabelsOwn};
ghost use Rattle.label_calls.specs.Synced.{RelabelsAround};

use crate::label::{read_label, relabel, write_fresh};
use labelled_disk::{Disk, Evidence, FileId, Halt, LEADER, Label, Wanted};
use std::alloc::Allocator;
use swapper_kernel::Swapper;

/// A mark that a file gets for good.
#[derive(Clone, Copy, Debug, PartialEq, Eq)]
pub enum Mark {
    Permanent,
    Immutable,
}

impl Mark {
    // The label with the mark.
    fn on(self, label: Label) -> Label
        ensures { result ≡ with_mark self label }
    {
        match self {
            Mark::Permanent => label.with_permanent(),
            Mark::Immutable => label.with_immutable(),
        }
    }
}

/// Gives a free data sector the label of a page, and a page of zeros.
pub fn make_page<D: Disk, A: Allocator>(
    memory: &mut Swapper<D, A>,
    sector: u32,
    label: Label,
) -> Result<(), Halt>
    requires data { AreData (D.state memory.old.disk) memory.old.layout sector 1 }
    requires form { IsFresh label }
    ensures made { OnOk result
        (Relabels free_ones sector (write.Whole sector label zero_bytes) (D.state memory.old.disk) memory.old.pool
        (D.state memory.new.disk)) }
    ensures stopped { OnErr result
        (MayRelabel free_ones sector (write.Whole sector label zero_bytes) (D.state memory.old.disk)
        memory.old.pool (D.state memory.new.disk)) }
    ensures fails { IfErr result
        (FailsBy (λ m. HasOne free_ones m sector) (IsTaken sector)
        (D.state memory.old.disk) memory.old.pool (D.state memory.new.disk)) }
    ensures frames { memory.new.pool ≡ memory.old.pool }
    ensures layout { memory.new.layout ≡ memory.old.layout }
    ensures cost { (D.state memory.new.disk).transfers ≤ (D.state memory.old.disk).transfers + 2 }
    ensures own { (other : ℕ) → RelabelsOwn other (D.state memory.old.disk) (D.state memory.new.disk) }
    ensures alone { OnErr result
        (MayBeFresh sector label (D.state memory.old.disk) (D.state memory.new.disk)) }
{
    let found = match read_label(memory, sector) {
        Ok(found) => found,
        Err(halt) => return Err(halt),
    };
    if !found.is_free() {
        return Err(Halt::Damaged(Evidence::Mismatch {
            sector,
            wanted: Wanted { id: 0, page: 0 },
            found,
        }));
    }
    match write_fresh(memory, sector, label) {
        Ok(()) => (),
        Err(halt) => return Err(halt),
    }
    Ok(())
}

/// Gives a data sector that has this page of a file, or of the space tables, a free label.
pub fn free_page<D: Disk, A: Allocator>(
    memory: &mut Swapper<D, A>,
    sector: u32,
    wanted: Wanted,
) -> Result<(), Halt>
    requires data { AreData (D.state memory.old.disk) memory.old.layout sector 1 }
    requires of_file { (wanted.id ≡ 3) ⊎ (16 ≤ wanted.id) }
    ensures freed { OnOk result
        (Relabels (ones_of wanted) sector (write.LabelOnly sector free_label) (D.state memory.old.disk)
        memory.old.pool (D.state memory.new.disk)) }
    ensures stopped { OnErr result
        (MayRelabel (ones_of wanted) sector (write.LabelOnly sector free_label) (D.state memory.old.disk)
        memory.old.pool (D.state memory.new.disk)) }
    ensures fails { IfErr result
        (FailsBy (λ m. HasOne (ones_of wanted) m sector) (IsNotOf sector wanted)
        (D.state memory.old.disk) memory.old.pool (D.state memory.new.disk)) }
    ensures frames { memory.new.pool ≡ memory.old.pool }
    ensures layout { memory.new.layout ≡ memory.old.layout }
    ensures cost { (D.state memory.new.disk).transfers ≤ (D.state memory.old.disk).transfers + 2 }
    ensures labels { RelabelsAround wanted.id result (D.state memory.old.disk) (D.state memory.new.disk) }
    ensures unsynced { (label : Label) → HasLabel (D.state memory.old.disk) sector label → is_permanent label ≡ false
        → (d : List Sector) → (D.state memory.old.disk).contents ≡ Some d
        → (D.state memory.new.disk).syncs ≡ (D.state memory.old.disk).syncs }
{
    let found = match read_label(memory, sector) {
        Ok(found) => found,
        Err(halt) => return Err(halt),
    };
    if !found.names(wanted) {
        return Err(Halt::Damaged(Evidence::Mismatch {
            sector,
            wanted,
            found,
        }));
    }
    match relabel(memory, sector, found, Label::FREE) {
        Ok(()) => (),
        Err(halt) => return Err(halt),
    }
    Ok(())
}

/// Gives the leader of a file, which stands in this data sector, a mark more.
pub fn mark_leader<D: Disk, A: Allocator>(
    memory: &mut Swapper<D, A>,
    sector: u32,
    id: FileId,
    mark: Mark,
) -> Result<(), Halt>
    requires data { AreData (D.state memory.old.disk) memory.old.layout sector 1 }
    requires of_file { 16 ≤ id }
    ensures marked { OnOk result
        ((label : Label)
        × Relabels (λ l. (l ≡ label) × ones_of (record { id = id; page = leader_page }) l) sector
        (write.LabelOnly sector (with_mark mark label)) (D.state memory.old.disk) memory.old.pool
        (D.state memory.new.disk)) }
    ensures stopped { OnErr result
        (MayMark (record { id = id; page = leader_page }) mark sector (D.state memory.old.disk) memory.old.pool
        (D.state memory.new.disk) memory.new.pool) }
    ensures fails { IfErr result
        (FailsBy (λ m. HasOne (ones_of (record { id = id; page = leader_page })) m sector)
        (IsNotOf sector (record { id = id; page = leader_page })) (D.state memory.old.disk) memory.old.pool
        (D.state memory.new.disk)) }
    ensures frames { memory.new.pool ≡ memory.old.pool }
    ensures layout { memory.new.layout ≡ memory.old.layout }
    ensures cost { (D.state memory.new.disk).transfers ≤ (D.state memory.old.disk).transfers + 2 }
    ensures labels { RelabelsAround id result (D.state memory.old.disk) (D.state memory.new.disk) }
    ensures unsynced { (label : Label) → HasLabel (D.state memory.old.disk) sector label
        → is_permanent (with_mark mark label) ≡ false → (d : List Sector)
        → (D.state memory.old.disk).contents ≡ Some d
        → (D.state memory.new.disk).syncs ≡ (D.state memory.old.disk).syncs }
{
    let wanted = Wanted { id, page: LEADER };
    let found = match read_label(memory, sector) {
        Ok(found) => found,
        Err(halt) => return Err(halt),
    };
    if !found.names(wanted) {
        return Err(Halt::Damaged(Evidence::Mismatch {
            sector,
            wanted,
            found,
        }));
    }
    match relabel(memory, sector, found, mark.on(found)) {
        Ok(()) => (),
        Err(halt) => return Err(halt),
    }
    Ok(())
}
