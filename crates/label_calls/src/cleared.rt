//! Pages that are made in free sectors which have zeros by then.
ghost use Rattle.std.specs.Prelude.{◌≡◌, ◌⊎◌, ◌<◌, ◌≤◌, ◌+◌, ◌*◌, ◌^◌, ℕ, List, [], IfErr, MatchResult, OnErr, OnOk};
ghost use Rattle.std.specs.List.{range_with_len};
ghost use Rattle.labelled_disk.specs.declared.evidence.Halt.TheVariants as halt;
ghost use Rattle.labelled_disk.specs.Calls.{Moves, Rose, RevealsSame};
ghost use Rattle.labelled_disk.specs.Runs.{growth};
ghost use Rattle.swapper_kernel.specs.Goes.{Makes, this_page};
ghost use Rattle.label_calls.specs.Clearing.{Clears, ClearsOne, NamedCleared, PutsZeros, RelabelsCleared};
ghost use Rattle.label_calls.specs.Fails.{FailsBy};
ghost use Rattle.label_calls.specs.Labels.{AreData, free_ones};
ghost use Rattle.label_calls.specs.Own.{RelabelsOwn};
ghost use Rattle.label_calls.specs.Runs.{AreOfFile, AreRight, IsOneTaken};
ghost use Rattle.label_calls.specs.Synced.{LabelsAfterSync};

use crate::label::sync;
use crate::run::make_pages;
use labelled_disk::{Disk, DiskError, FileId, Halt, PAGE_BYTES, Wanted};
use std::alloc::Allocator;
use swapper_kernel::Swapper;

// Puts zeros under a plain free label: identifier 0, page 0, flags below 4, last byte 0. Over any other label no bytes
// are written, and the sector stays as it is.
#[tactic(auto, unfolding(labelled_disk::specs::Runs::zero_bytes))]
fn clear_page<D: Disk, A: Allocator>(memory: &mut Swapper<D, A>, sector: u32) -> Result<(), Halt>
    requires { sector < (D.state memory.old.disk).sectors }
    ensures writes { MatchResult result
        (λ _. ClearsOne sector (D.state memory.old.disk) (D.state memory.new.disk))
        (λ _.
        RevealsSame (D.state memory.old.disk) (D.state memory.new.disk)
        ⊎ PutsZeros sector (D.state memory.old.disk) (D.state memory.new.disk)) }
    ensures moves { Moves (D.state memory.old.disk) (D.state memory.new.disk) }
    ensures cause { IfErr result
        (λ e. (e ≡ halt.Disk) × Rose (D.state memory.old.disk).faults (D.state memory.new.disk).faults) }
    ensures frames { memory.new.pool ≡ memory.old.pool }
    ensures layout { memory.new.layout ≡ memory.old.layout }
{
    let disk = memory.disk_over();
    match disk.write_data(sector, Wanted { id: 0, page: 0 }, &[0; PAGE_BYTES]) {
        Ok(()) => Ok(()),
        Err(DiskError::Failed) => Err(Halt::Disk),
        Err(DiskError::Wrong { .. }) => Ok(()),
    }
}

// Puts zeros under those labels of sectors in a row that are plain.
fn clear_pages<D: Disk, A: Allocator>(
    memory: &mut Swapper<D, A>,
    sector: u32,
    pages: u32,
) -> Result<(), Halt>
    requires data { AreData (D.state memory.old.disk) memory.old.layout sector pages }
    ensures writes { MatchResult result
        (λ _. Clears sector pages pages (D.state memory.old.disk) memory.old.pool (D.state memory.new.disk))
        (λ _.
        Makes (this_page 0 0) [] (D.state memory.old.disk) memory.old.pool (D.state memory.new.disk)
        memory.old.pool) }
    ensures cause { IfErr result
        (λ e. (e ≡ halt.Disk) × Rose (D.state memory.old.disk).faults (D.state memory.new.disk).faults) }
    ensures frames { memory.new.pool ≡ memory.old.pool }
    ensures layout { memory.new.layout ≡ memory.old.layout }
    ensures cost { (D.state memory.new.disk).transfers ≤ (D.state memory.old.disk).transfers + pages }
{
    for k in 0..pages {
        match clear_page(memory, sector + k) {
            Ok(()) => (),
            Err(halt) => return Err(halt),
        }
    }
    Ok(())
}

/// Gives free data sectors in a row the labels of the pages of a file from `page` on, and pages of zeros. Before the
/// first label is written those whose free label is plain (identifier 0, page 0, flags below 4, last byte 0) get zeros
/// under it, and the disk is synced. One under any other free label keeps its page until it gets its new label.
pub fn make_cleared_pages<D: Disk, A: Allocator>(
    memory: &mut Swapper<D, A>,
    sector: u32,
    pages: u32,
    id: FileId,
    kind: u16,
    page: u32,
) -> Result<(), Halt>
    requires data { AreData (D.state memory.old.disk) memory.old.layout sector pages }
    requires numbers { page + pages ≤ 2 ^ 32 }
    requires of_file { AreOfFile id kind page pages }
    ensures made { OnOk result
        (RelabelsCleared sector pages (growth id kind page (range_with_len sector pages))
        (D.state memory.old.disk) memory.old.pool (D.state memory.new.disk)) }
    ensures stopped { OnErr result
        (NamedCleared (λ k. sector + k) (λ k. free_ones) (growth id kind page (range_with_len sector pages))
        (D.state memory.old.disk) memory.old.pool (D.state memory.new.disk)) }
    ensures fails { IfErr result
        (FailsBy (AreRight (λ k. free_ones) sector pages memory.old.pool)
        (IsOneTaken sector pages) (D.state memory.old.disk)
        memory.old.pool (D.state memory.new.disk)) }
    ensures frames { memory.new.pool ≡ memory.old.pool }
    ensures layout { memory.new.layout ≡ memory.old.layout }
    ensures cost { (D.state memory.new.disk).transfers ≤ (D.state memory.old.disk).transfers + 3 * pages }
    ensures own { (other : ℕ) → RelabelsOwn other (D.state memory.old.disk) (D.state memory.new.disk) }
    ensures cleared { LabelsAfterSync (D.state memory.old.disk) (D.state memory.new.disk) }
{
    match clear_pages(memory, sector, pages) {
        Ok(()) => (),
        Err(halt) => return Err(halt),
    }
    match sync(memory) {
        Ok(()) => (),
        Err(halt) => return Err(halt),
    }
    match make_pages(memory, sector, pages, id, kind, page) {
        Ok(()) => (),
        Err(halt) => return Err(halt),
    }
    Ok(())
}
