//! Labels of data sectors in a row.
ghost use Rattle.std.specs.Prelude.{◌≡◌, ◌⊎◌, ◌<◌, ◌≤◌, ◌+◌, ◌-◌, ◌*◌, ◌^◌, ℕ, List, Some, IfErr, OnErr, OnOk, map};
ghost use Rattle.std.specs.List.{range_with_len};
ghost use Rattle.labelled_disk.specs.Runs.{freeing, growth};
ghost use Rattle.labelled_disk.specs.Sectors.{Sector};
ghost use Rattle.label_calls.specs.Clearing.{WritesFresh};
ghost use Rattle.label_calls.specs.Fails.{FailsBy};
ghost use Rattle.label_calls.specs.Labels.{AreData, free_ones, ones_of};
ghost use Rattle.label_calls.specs.Own.{RelabelsOwn};
ghost use Rattle.label_calls.specs.Synced.{RelabelsAround};
ghost use Rattle.label_calls.specs.Runs.{AreOfFile, AreRight, IsOneNotOf, IsOneTaken, NamedSome, RelabelsOnes};

use crate::page::{free_page, make_page};
use labelled_disk::{Disk, FileId, Halt, Label, Wanted};
use std::alloc::Allocator;
use swapper_kernel::Swapper;

/// Gives free data sectors in a row the labels of the pages of a file from `page` on, and pages of zeros.
pub fn make_pages<D: Disk, A: Allocator>(
    memory: &mut Swapper<D, A>,
    sector: u32,
    pages: u32,
    id: FileId,
    kind: u16,
    page: u32,
) -> Result<(), Halt>
    requires data { AreData (D.state memory.old.disk) memory.old.layout sector pages }
    requires numbers { page + pages ≤ 2 ^ 32 }
    requires of_file { AreOfFile id kind page pages }
    ensures made { OnOk result
        (RelabelsOnes (λ k. free_ones) sector pages (growth id kind page (range_with_len sector pages))
        (D.state memory.old.disk) memory.old.pool (D.state memory.new.disk)) }
    ensures stopped { OnErr result
        (NamedSome (λ k. sector + k) (λ k. free_ones) (growth id kind page (range_with_len sector pages))
        (D.state memory.old.disk) memory.old.pool (D.state memory.new.disk)) }
    ensures fails { IfErr result
        (FailsBy (AreRight (λ k. free_ones) sector pages memory.old.pool)
        (IsOneTaken sector pages) (D.state memory.old.disk)
        memory.old.pool (D.state memory.new.disk)) }
    ensures frames { memory.new.pool ≡ memory.old.pool }
    ensures layout { memory.new.layout ≡ memory.old.layout }
    ensures cost { (D.state memory.new.disk).transfers ≤ (D.state memory.old.disk).transfers + 2 * pages }
    ensures own { (other : ℕ) → RelabelsOwn other (D.state memory.old.disk) (D.state memory.new.disk) }
    ensures fresh { WritesFresh sector pages (D.state memory.old.disk) (D.state memory.new.disk) }
{
    for k in 0..pages {
        let label = Label::of_page(id, kind, page + k);
        match make_page(memory, sector + k, label) {
            Ok(()) => (),
            Err(halt) => return Err(halt),
        }
    }
    Ok(())
}

/// Gives data sectors in a row that have the pages of a file from `page` on free labels, the first page first.
pub fn free_pages_up<D: Disk, A: Allocator>(
    memory: &mut Swapper<D, A>,
    sector: u32,
    pages: u32,
    id: FileId,
    page: u32,
) -> Result<(), Halt>
    requires data { AreData (D.state memory.old.disk) memory.old.layout sector pages }
    requires numbers { page + pages ≤ 2 ^ 32 }
    requires of_file { (id ≡ 3) ⊎ (16 ≤ id) }
    ensures freed { OnOk result
        (RelabelsOnes (λ k. ones_of (record { id = id; page = page + k })) sector pages
        (freeing (range_with_len sector pages)) (D.state memory.old.disk) memory.old.pool
        (D.state memory.new.disk)) }
    ensures stopped { OnErr result
        (NamedSome (λ k. sector + k) (λ k. ones_of (record { id = id; page = page + k }))
        (freeing (range_with_len sector pages)) (D.state memory.old.disk) memory.old.pool
        (D.state memory.new.disk)) }
    ensures fails { IfErr result
        (FailsBy (AreRight (λ k. ones_of (record { id = id; page = page + k })) sector pages memory.old.pool)
        (IsOneNotOf sector pages (λ k. record { id = id; page = page + k })) (D.state memory.old.disk)
        memory.old.pool (D.state memory.new.disk)) }
    ensures frames { memory.new.pool ≡ memory.old.pool }
    ensures layout { memory.new.layout ≡ memory.old.layout }
    ensures cost { (D.state memory.new.disk).transfers ≤ (D.state memory.old.disk).transfers + 2 * pages }
    ensures labels { RelabelsAround id result (D.state memory.old.disk) (D.state memory.new.disk) }
{
    for k in 0..pages {
        let wanted = Wanted { id, page: page + k };
        match free_page(memory, sector + k, wanted) {
            Ok(()) => (),
            Err(halt) => return Err(halt),
        }
    }
    Ok(())
}

/// Gives data sectors in a row that have the pages of a file from `page` on free labels, the last page first.
pub fn free_pages_down<D: Disk, A: Allocator>(
    memory: &mut Swapper<D, A>,
    sector: u32,
    pages: u32,
    id: FileId,
    page: u32,
) -> Result<(), Halt>
    requires data { AreData (D.state memory.old.disk) memory.old.layout sector pages }
    requires numbers { page + pages ≤ 2 ^ 32 }
    requires of_file { (id ≡ 3) ⊎ (16 ≤ id) }
    ensures freed { OnOk result
        (RelabelsOnes (λ k. ones_of (record { id = id; page = page + k })) sector pages
        (freeing (map (λ k. sector + (pages - (k + 1))) (range_with_len 0 pages))) (D.state memory.old.disk)
        memory.old.pool (D.state memory.new.disk)) }
    ensures stopped { OnErr result
        (NamedSome (λ k. sector + (pages - (k + 1)))
        (λ k. ones_of (record { id = id; page = page + (pages - (k + 1)) }))
        (freeing (map (λ k. sector + (pages - (k + 1))) (range_with_len 0 pages))) (D.state memory.old.disk)
        memory.old.pool (D.state memory.new.disk)) }
    ensures fails { IfErr result
        (FailsBy (AreRight (λ k. ones_of (record { id = id; page = page + k })) sector pages memory.old.pool)
        (IsOneNotOf sector pages (λ k. record { id = id; page = page + k })) (D.state memory.old.disk)
        memory.old.pool (D.state memory.new.disk)) }
    ensures frames { memory.new.pool ≡ memory.old.pool }
    ensures layout { memory.new.layout ≡ memory.old.layout }
    ensures cost { (D.state memory.new.disk).transfers ≤ (D.state memory.old.disk).transfers + 2 * pages }
    ensures labels { RelabelsAround id result (D.state memory.old.disk) (D.state memory.new.disk) }
{
    for k in 0..pages {
        let after = pages - (k + 1);
        let wanted = Wanted {
            id,
            page: page + after,
        };
        match free_page(memory, sector + after, wanted) {
            Ok(()) => (),
            Err(halt) => return Err(halt),
        }
    }
    Ok(())
}
