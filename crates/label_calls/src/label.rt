//! A label read or written, and a sync.
ghost use Rattle.std.specs.Prelude.{◌≡◌, ◌⊎◌, ◌||◌, ◌<◌, ◌≤◌, ◌+◌, true, false, [], IfOk, IfErr, MatchResult, OnErr, OnOk};
ghost use Rattle.labelled_disk.specs.declared.disk.DiskWrite.TheVariants as write;
ghost use Rattle.labelled_disk.specs.declared.evidence.Halt.TheVariants as halt;
ghost use Rattle.labelled_disk.specs.Label.{is_permanent};
ghost use Rattle.labelled_disk.specs.Runs.{zero_bytes};
ghost use Rattle.labelled_disk.specs.Calls.{Moves, Rose, RevealsSame, RevealsWrite};
ghost use Rattle.labelled_disk.specs.State.{HasLabel};
ghost use Rattle.labelled_disk.specs.declared.label.Label.{Label};
ghost use Rattle.swapper_kernel.specs.Goes.{Makes, Went, no_page};
ghost use Rattle.label_calls.specs.Synced.{SyncedThere, SyncsAroundOne};

use labelled_disk::{Disk, Halt, Label, PAGE_BYTES};
use std::alloc::Allocator;
use swapper_kernel::Swapper;

/// The label of a sector, as the disk has it.
pub fn read_label<D: Disk, A: Allocator>(
    memory: &mut Swapper<D, A>,
    sector: u32,
) -> Result<Label, Halt>
    requires { sector < (D.state memory.old.disk).sectors }
    ensures found { IfOk result (HasLabel (D.state memory.old.disk) sector) }
    ensures same { RevealsSame (D.state memory.old.disk) (D.state memory.new.disk) }
    ensures moves { Moves (D.state memory.old.disk) (D.state memory.new.disk) }
    ensures makes { Makes no_page [] (D.state memory.old.disk) memory.old.pool (D.state memory.new.disk)
        memory.new.pool }
    ensures cause { IfErr result
        (λ e. (e ≡ halt.Disk) × Rose (D.state memory.old.disk).faults (D.state memory.new.disk).faults) }
    ensures frames { memory.new.pool ≡ memory.old.pool }
    ensures layout { memory.new.layout ≡ memory.old.layout }
{
    let mut page = [0; PAGE_BYTES];
    let disk = memory.disk_over();
    match disk.read(sector, &mut page) {
        Ok(label) => Ok(label),
        Err(_) => Err(Halt::Disk),
    }
}

// Writes a label over that of a data sector, whose page stays.
fn write_label<D: Disk, A: Allocator>(
    memory: &mut Swapper<D, A>,
    sector: u32,
    label: Label,
) -> Result<(), Halt>
    requires { sector < (D.state memory.old.disk).sectors }
    ensures writes { MatchResult result
        (λ _. RevealsWrite (write.LabelOnly sector label) (D.state memory.old.disk) (D.state memory.new.disk))
        (λ _.
        RevealsSame (D.state memory.old.disk) (D.state memory.new.disk)
        ⊎ RevealsWrite (write.LabelOnly sector label) (D.state memory.old.disk) (D.state memory.new.disk)) }
    ensures moves { Moves (D.state memory.old.disk) (D.state memory.new.disk) }
    ensures cause { IfErr result
        (λ e. (e ≡ halt.Disk) × Rose (D.state memory.old.disk).faults (D.state memory.new.disk).faults) }
    ensures frames { memory.new.pool ≡ memory.old.pool }
    ensures layout { memory.new.layout ≡ memory.old.layout }
{
    let disk = memory.disk_over();
    match disk.write_label(sector, &label) {
        Ok(()) => Ok(()),
        Err(_) => Err(Halt::Disk),
    }
}

/// Waits until all that was written is on the medium.
pub fn sync<D: Disk, A: Allocator>(memory: &mut Swapper<D, A>) -> Result<(), Halt>
    ensures synced { OnOk result (SyncedThere (D.state memory.old.disk) (D.state memory.new.disk)) }
    ensures same { RevealsSame (D.state memory.old.disk) (D.state memory.new.disk) }
    ensures went { Went (D.state memory.old.disk) (D.state memory.new.disk) }
    ensures makes { Makes no_page [] (D.state memory.old.disk) memory.old.pool (D.state memory.new.disk)
        memory.new.pool }
    ensures cause { IfErr result
        (λ e. (e ≡ halt.Disk) × Rose (D.state memory.old.disk).faults (D.state memory.new.disk).faults) }
    ensures frames { memory.new.pool ≡ memory.old.pool }
    ensures layout { memory.new.layout ≡ memory.old.layout }
    ensures cost { (D.state memory.new.disk).transfers ≤ (D.state memory.old.disk).transfers }
{
    let disk = memory.disk_over();
    match disk.sync() {
        Ok(()) => Ok(()),
        Err(_) => Err(Halt::Disk),
    }
}

// Whether one of the two labels is that of a permanent file's leader.
fn is_of_permanent(found: Label, label: Label) -> bool
    ensures { result ≡ (is_permanent found || is_permanent label) }
{
    found.marks().permanent || label.marks().permanent
}

// Writes a label over this one between two syncs. The second is left out where the label is not free.
fn relabel_alone<D: Disk, A: Allocator>(
    memory: &mut Swapper<D, A>,
    sector: u32,
    found: Label,
    label: Label,
) -> Result<(), Halt>
    requires { sector < (D.state memory.old.disk).sectors }
    ensures writes { OnOk result
        (RevealsWrite (write.LabelOnly sector label) (D.state memory.old.disk) (D.state memory.new.disk)) }
    ensures stopped { OnErr result
        (RevealsSame (D.state memory.old.disk) (D.state memory.new.disk)
        ⊎ RevealsWrite (write.LabelOnly sector label) (D.state memory.old.disk) (D.state memory.new.disk)) }
    ensures around { OnOk result
        (SyncsAroundOne false found label (D.state memory.old.disk) (D.state memory.new.disk)) }
    ensures stopped_around { OnErr result
        (RevealsSame (D.state memory.old.disk) (D.state memory.new.disk)
        ⊎ SyncsAroundOne true found label (D.state memory.old.disk) (D.state memory.new.disk)) }
    ensures went { Went (D.state memory.old.disk) (D.state memory.new.disk) }
    ensures cause { IfErr result
        (λ e. (e ≡ halt.Disk) × Rose (D.state memory.old.disk).faults (D.state memory.new.disk).faults) }
    ensures frames { memory.new.pool ≡ memory.old.pool }
    ensures layout { memory.new.layout ≡ memory.old.layout }
    ensures cost { (D.state memory.new.disk).transfers ≤ (D.state memory.old.disk).transfers + 1 }
{
    match sync(memory) {
        Ok(()) => (),
        Err(halt) => return Err(halt),
    }
    match write_label(memory, sector, label) {
        Ok(()) => (),
        Err(halt) => return Err(halt),
    }
    if !label.is_free() {
        return Ok(());
    }
    match sync(memory) {
        Ok(()) => Ok(()),
        Err(halt) => Err(halt),
    }
}

/// Writes a label over this one. The disk is synced before where either is that of a permanent file's leader, and after it,
/// too, where such a leader goes; else it is not synced.
pub(crate) fn relabel<D: Disk, A: Allocator>(
    memory: &mut Swapper<D, A>,
    sector: u32,
    found: Label,
    label: Label,
) -> Result<(), Halt>
    requires { sector < (D.state memory.old.disk).sectors }
    ensures writes { OnOk result
        (RevealsWrite (write.LabelOnly sector label) (D.state memory.old.disk) (D.state memory.new.disk)) }
    ensures stopped { OnErr result
        (RevealsSame (D.state memory.old.disk) (D.state memory.new.disk)
        ⊎ RevealsWrite (write.LabelOnly sector label) (D.state memory.old.disk) (D.state memory.new.disk)) }
    ensures around { OnOk result
        (SyncsAroundOne false found label (D.state memory.old.disk) (D.state memory.new.disk)) }
    ensures stopped_around { OnErr result
        (RevealsSame (D.state memory.old.disk) (D.state memory.new.disk)
        ⊎ SyncsAroundOne true found label (D.state memory.old.disk) (D.state memory.new.disk)) }
    ensures unsynced { (is_permanent found || is_permanent label) ≡ false
        → (D.state memory.new.disk).syncs ≡ (D.state memory.old.disk).syncs }
    ensures went { Went (D.state memory.old.disk) (D.state memory.new.disk) }
    ensures cause { IfErr result
        (λ e. (e ≡ halt.Disk) × Rose (D.state memory.old.disk).faults (D.state memory.new.disk).faults) }
    ensures frames { memory.new.pool ≡ memory.old.pool }
    ensures layout { memory.new.layout ≡ memory.old.layout }
    ensures cost { (D.state memory.new.disk).transfers ≤ (D.state memory.old.disk).transfers + 1 }
{
    if is_of_permanent(found, label) {
        return match relabel_alone(memory, sector, found, label) {
            Ok(()) => Ok(()),
            Err(halt) => Err(halt),
        };
    }
    match write_label(memory, sector, label) {
        Ok(()) => Ok(()),
        Err(halt) => Err(halt),
    }
}

/// Writes a label and a page of zeros into a data sector.
#[tactic(auto, unfolding(labelled_disk::specs::Runs::zero_bytes))]
pub(crate) fn write_fresh<D: Disk, A: Allocator>(
    memory: &mut Swapper<D, A>,
    sector: u32,
    label: Label,
) -> Result<(), Halt>
    requires { sector < (D.state memory.old.disk).sectors }
    ensures writes { MatchResult result
        (λ _. RevealsWrite (write.Whole sector label zero_bytes) (D.state memory.old.disk) (D.state memory.new.disk))
        (λ _.
        RevealsSame (D.state memory.old.disk) (D.state memory.new.disk)
        ⊎ RevealsWrite (write.Whole sector label zero_bytes) (D.state memory.old.disk) (D.state memory.new.disk)) }
    ensures moves { Moves (D.state memory.old.disk) (D.state memory.new.disk) }
    ensures cause { IfErr result
        (λ e. (e ≡ halt.Disk) × Rose (D.state memory.old.disk).faults (D.state memory.new.disk).faults) }
    ensures frames { memory.new.pool ≡ memory.old.pool }
    ensures layout { memory.new.layout ≡ memory.old.layout }
{
    let disk = memory.disk_over();
    match disk.write(sector, &label, &[0; PAGE_BYTES]) {
        Ok(()) => Ok(()),
        Err(_) => Err(Halt::Disk),
    }
}
