//! Spaces that are added and removed.
ghost use Rattle.std.specs.Prelude.{◌≡◌, ◌⊎◌, ◌≤◌, ◌+◌, ℕ, List, Option, IfOk, IfErr};
ghost use Rattle.labelled_disk.specs.declared.evidence.Halt.TheVariants as halt;
ghost use Rattle.labelled_disk.specs.Sectors.{Sector};
ghost use Rattle.file_map.specs.FileMap.{Triples};
ghost use Rattle.flat_machine.specs.declared.space.Space.{Space};
ghost use Rattle.flat_machine.specs.Refusal.{first_of};
ghost use Rattle.flat_machine.specs.Next.{put_space, without_space};
ghost use Rattle.projection_laws.specs.Tests.{add_row, made, remove_row};
ghost use Rattle.space_tables.specs.Form.{first_in_slot, BreaksHierarchy, BreaksFor, BreaksAt, MakesTooMany};
ghost use Rattle.space_tables.specs.Answer.{IfMem, IfMalformed, Answers};
ghost use Rattle.space_tables.specs.Stored.{RevealSpaces};
ghost use Rattle.filer_kernel.specs.Tables.{IsTableAccounted};
ghost use Rattle.filer_kernel.specs.View.{FitsLayout, TablesAre, TablesBeside, view_of};
ghost use Rattle.fault_core.specs.Reach.{ReachHalts};
ghost use Rattle.fault_core.specs.Lack.{Sees};
ghost use Rattle.fault_core.specs.NeverBlames.{NeverBlamesTables};
ghost use Rattle.fault_core.specs.Core.{kept, state, Knows};
ghost use Rattle.table_calls.specs.Answers.{Changes, Retabled, TablesBreak};

use crate::halting::refused_or_halted;
use crate::opening::opened;
use fault_core::Core;
use filer_kernel::{Filer, TableMemory};
use flat_machine::Refusal;
use labelled_disk::{Disk, Halt};
use space_tables::{SpaceError, SpaceTables};
use std::alloc::Allocator;

// Changes the tables that stand in a filer's space tables. Gives how many intervals there are now besides.
fn add_in<D: Disk, A: Allocator>(
    filer: &mut Filer<D, A>,
    intervals: u32,
    parent: u32,
    pages: u32,
    first: Option<u32>,
) -> (Result<(u32, u32), SpaceError<Halt>>, u32)
    requires size { FitsLayout (view_of filer.old) }
    requires count { (1 ≤ intervals) × (intervals ≤ 1023) }
    ensures answer { (ss : List Space) → RevealSpaces (TablesAre (view_of filer.old)) intervals ss
        → Answers (first_of (add_row ss parent pages first))
        (λ at.
        RevealSpaces (TablesAre (view_of filer.new)) result.1 (put_space (made ss parent pages first) ss)
        × (at.0 ≡ (made ss parent pages first).handle) × (at.1 ≡ (made ss parent pages first).first))
        (RevealSpaces (TablesAre (view_of filer.new)) result.1 ss) result.0 }
    ensures malformed { (b : List ℕ) → TablesAre (view_of filer.old) b
        → IfErr result.0
        (IfMalformed
        (λ page.
        BreaksHierarchy b page
        ⊎ (BreaksAt first intervals b page ⊎ MakesTooMany intervals b parent pages first page))) }
    ensures cause { IfErr result.0
        (IfMem
        (IsTableAccounted (view_of filer.old).disk (view_of filer.old).slots (view_of filer.old).layout
        (view_of filer.old).runs (view_of filer.new).disk)) }
    ensures count { (1 ≤ result.1) × (result.1 ≤ 1023) }
    ensures kept { TablesBeside (view_of filer.old) (view_of filer.new) }
    ensures cost { (view_of filer.new).disk.transfers ≤ (view_of filer.old).disk.transfers + 50204 }
{
    let mut tables = SpaceTables::<TableMemory<D, A>>::over(filer.table_memory(), intervals);
    let answer = tables.add(parent, pages, first);
    (answer, tables.intervals())
}

/// Adds a space of so many pages inside a parent, at the given first page or in the lowest gap that is long enough.
/// Gives its handle and its first page.
pub fn add<D: Disk, A: Allocator>(
    core: &mut Core<D, A>,
    parent: u32,
    pages: u32,
    first: Option<u32>,
) -> Result<Result<(u32, u32), Refusal>, Halt>
    requires size { FitsLayout (state core.old) }
    ensures answer { (m : List Sector) (named : Triples) (ss : List Space) → Knows core.old m named ss
        → IfOk result
        (Changes (first_of (add_row ss parent pages first))
        (λ at.
        RevealSpaces (TablesAre (state core.new)) core.new.intervals (put_space (made ss parent pages first) ss)
        × (at.0 ≡ (made ss parent pages first).handle) × (at.1 ≡ (made ss parent pages first).first))
        (RevealSpaces (TablesAre (state core.new)) core.new.intervals ss)) }
    ensures cause { IfErr result
        (ReachHalts
        (TablesBreak (state core.old)
        (λ b page.
        BreaksHierarchy b page
        ⊎ (BreaksAt first core.old.intervals b page ⊎ MakesTooMany core.old.intervals b parent pages first page)))
        (state core.old) (state core.new)) }
    ensures sees { (ss : List Space) → Sees (state core.old) (kept core.old) core.old.intervals ss
        → IfOk result
        (Changes (first_of (add_row ss parent pages first))
        (λ at.
        Sees (state core.new) (kept core.new) core.new.intervals (put_space (made ss parent pages first) ss)
        × (at.0 ≡ (made ss parent pages first).handle) × (at.1 ≡ (made ss parent pages first).first))
        (Sees (state core.new) (kept core.new) core.new.intervals ss)) }
    ensures right { (ss : List Space) → Sees (state core.old) (kept core.old) core.old.intervals ss
        → IfErr result NeverBlamesTables }
    ensures sound { (m : List Sector) (named : Triples) (ss : List Space) → Knows core.old m named ss
        → IfErr result (λ e. e ≡ halt.Disk) }
    ensures retabled { Retabled core.old core.new }
    ensures cost { (state core.new).disk.transfers ≤ (state core.old).disk.transfers + 50204 }
{
    let intervals = opened(core);
    let (answer, intervals) = add_in(&mut core.filer, intervals, parent, pages, first);
    core.keep_count(intervals);
    refused_or_halted(answer)
}

// Changes the tables that stand in a filer's space tables. Gives how many intervals there are now besides.
fn remove_in<D: Disk, A: Allocator>(
    filer: &mut Filer<D, A>,
    intervals: u32,
    space: u32,
) -> (Result<(), SpaceError<Halt>>, u32)
    requires size { FitsLayout (view_of filer.old) }
    requires count { (1 ≤ intervals) × (intervals ≤ 1023) }
    ensures answer { (ss : List Space) → RevealSpaces (TablesAre (view_of filer.old)) intervals ss
        → Answers (first_of (remove_row ss space))
        (λ _. RevealSpaces (TablesAre (view_of filer.new)) result.1 (without_space space ss))
        (RevealSpaces (TablesAre (view_of filer.new)) result.1 ss) result.0 }
    ensures malformed { (b : List ℕ) → TablesAre (view_of filer.old) b
        → IfErr result.0 (IfMalformed (λ page. BreaksFor (first_in_slot b space) intervals b page)) }
    ensures cause { IfErr result.0
        (IfMem
        (IsTableAccounted (view_of filer.old).disk (view_of filer.old).slots (view_of filer.old).layout
        (view_of filer.old).runs (view_of filer.new).disk)) }
    ensures count { (1 ≤ result.1) × (result.1 ≤ 1023) }
    ensures kept { TablesBeside (view_of filer.old) (view_of filer.new) }
    ensures cost { (view_of filer.new).disk.transfers ≤ (view_of filer.old).disk.transfers + 21924 }
{
    let mut tables = SpaceTables::<TableMemory<D, A>>::over(filer.table_memory(), intervals);
    let answer = tables.remove(space);
    (answer, tables.intervals())
}

/// Removes a space that has no children and is not mapped.
pub fn remove<D: Disk, A: Allocator>(
    core: &mut Core<D, A>,
    space: u32,
) -> Result<Result<(), Refusal>, Halt>
    requires size { FitsLayout (state core.old) }
    ensures answer { (m : List Sector) (named : Triples) (ss : List Space) → Knows core.old m named ss
        → IfOk result
        (Changes (first_of (remove_row ss space))
        (λ _. RevealSpaces (TablesAre (state core.new)) core.new.intervals (without_space space ss))
        (RevealSpaces (TablesAre (state core.new)) core.new.intervals ss)) }
    ensures cause { IfErr result
        (ReachHalts
        (TablesBreak (state core.old) (λ b page. BreaksFor (first_in_slot b space) core.old.intervals b page))
        (state core.old) (state core.new)) }
    ensures sees { (ss : List Space) → Sees (state core.old) (kept core.old) core.old.intervals ss
        → IfOk result
        (Changes (first_of (remove_row ss space))
        (λ _. Sees (state core.new) (kept core.new) core.new.intervals (without_space space ss))
        (Sees (state core.new) (kept core.new) core.new.intervals ss)) }
    ensures right { (ss : List Space) → Sees (state core.old) (kept core.old) core.old.intervals ss
        → IfErr result NeverBlamesTables }
    ensures sound { (m : List Sector) (named : Triples) (ss : List Space) → Knows core.old m named ss
        → IfErr result (λ e. e ≡ halt.Disk) }
    ensures retabled { Retabled core.old core.new }
    ensures cost { (state core.new).disk.transfers ≤ (state core.old).disk.transfers + 21924 }
{
    let intervals = opened(core);
    let (answer, intervals) = remove_in(&mut core.filer, intervals, space);
    core.keep_count(intervals);
    refused_or_halted(answer)
}
