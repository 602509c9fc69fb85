//! Calls that ask the space tables where spaces are.
ghost use Rattle.std.specs.Prelude.{◌≡◌, ◌≤◌, ◌+◌, ℕ, true, List, [], ◌∷◌, Some, IfOk, IfErr};
ghost use Rattle.labelled_disk.specs.declared.evidence.Halt.TheVariants as halt;
ghost use Rattle.labelled_disk.specs.Sectors.{Sector};
ghost use Rattle.file_map.specs.FileMap.{Triples};
ghost use Rattle.flat_machine.specs.declared.space.Space.{Space};
ghost use Rattle.flat_machine.specs.Space.{space_at, innermost};
ghost use Rattle.flat_machine.specs.Refusal.{first_of, past_root};
ghost use Rattle.projection_laws.specs.Tests.{no_space, map_row};
ghost use Rattle.space_tables.specs.Form.{lies_in_root, BreaksSlot, BreaksHierarchy, BreaksFor};
ghost use Rattle.space_tables.specs.Shows.{IsRunAt};
ghost use Rattle.space_tables.specs.Answer.{IfMem, IfMalformed, Replies};
ghost use Rattle.space_tables.specs.Stored.{RevealSpaces};
ghost use Rattle.filer_kernel.specs.Tables.{IsTableAccounted};
ghost use Rattle.filer_kernel.specs.View.{FitsLayout, TablesAre, view_of};
ghost use Rattle.fault_core.specs.Reach.{ReachHalts};
ghost use Rattle.fault_core.specs.Lack.{Sees};
ghost use Rattle.fault_core.specs.NeverBlames.{NeverBlamesTables};
ghost use Rattle.fault_core.specs.Core.{kept, state, Knows};
ghost use Rattle.table_calls.specs.Answers.{Asked, AskedTables, IfGiven, Reveals, TablesBreak, TablesSay};

use crate::halting::refused_or_halted;
use fault_core::Core;
use filer_kernel::{Filer, TableMemory};
use flat_machine::Refusal;
use labelled_disk::{Disk, Halt};
use space_tables::{SpaceError, SpaceTables};
use std::alloc::Allocator;

// Asks the tables that stand in a filer's space tables.
fn ask_bounds<D: Disk, A: Allocator>(
    filer: &mut Filer<D, A>,
    intervals: u32,
    space: u32,
) -> Result<(u32, u32), SpaceError<Halt>>
    requires size { FitsLayout (view_of filer.old) }
    requires count { (1 ≤ intervals) × (intervals ≤ 1023) }
    ensures answer { (ss : List Space) → RevealSpaces (TablesAre (view_of filer.old)) intervals ss
        → Replies (no_space ss space) (λ run. (s : Space) × (space_at ss space ≡ Some s) × (run ≡ (s.first, s.pages)))
        result }
    ensures form { IfOk result (λ run. lies_in_root run.0 run.1 ≡ true) }
    ensures read { (b : List ℕ) → TablesAre (view_of filer.old) b → IfOk result (IsRunAt b space) }
    ensures malformed { (b : List ℕ) → TablesAre (view_of filer.old) b
        → IfErr result (IfMalformed (λ page. BreaksSlot b page space)) }
    ensures cause { IfErr result
        (IfMem
        (IsTableAccounted (view_of filer.old).disk (view_of filer.old).slots (view_of filer.old).layout
        (view_of filer.old).runs (view_of filer.new).disk)) }
    ensures asked { AskedTables (view_of filer.old) (view_of filer.new) }
    ensures cost { (view_of filer.new).disk.transfers ≤ (view_of filer.old).disk.transfers + 28 }
{
    let mut tables = SpaceTables::<TableMemory<D, A>>::over(filer.table_memory(), intervals);
    tables.bounds(space)
}

/// The first page of a space, and how many pages it has.
pub fn bounds<D: Disk, A: Allocator>(
    core: &mut Core<D, A>,
    space: u32,
) -> Result<Result<(u32, u32), Refusal>, Halt>
    requires size { FitsLayout (state core.old) }
    ensures answer { (m : List Sector) (named : Triples) (ss : List Space) → Knows core.old m named ss
        → IfOk result
        (Reveals (no_space ss space) (λ run. (s : Space) × (space_at ss space ≡ Some s) × (run ≡ (s.first, s.pages)))) }
    ensures form { IfOk result (IfGiven (λ run. lies_in_root run.0 run.1 ≡ true)) }
    ensures read { IfOk result (IfGiven (TablesSay (state core.old) (λ b. IsRunAt b space))) }
    ensures cause { IfErr result
        (ReachHalts (TablesBreak (state core.old) (λ b page. BreaksSlot b page space)) (state core.old)
        (state core.new)) }
    ensures seen { (ss : List Space) → Sees (state core.old) (kept core.old) core.old.intervals ss
        → IfOk result
        (Reveals (no_space ss space) (λ run. (s : Space) × (space_at ss space ≡ Some s) × (run ≡ (s.first, s.pages)))) }
    ensures sees { (ss : List Space) → Sees (state core.old) (kept core.old) core.old.intervals ss
        → Sees (state core.new) (kept core.new) core.new.intervals ss }
    ensures right { (ss : List Space) → Sees (state core.old) (kept core.old) core.old.intervals ss
        → IfErr result NeverBlamesTables }
    ensures sound { (m : List Sector) (named : Triples) (ss : List Space) → Knows core.old m named ss
        → IfErr result (λ e. e ≡ halt.Disk) }
    ensures asked { Asked core.old core.new }
    ensures cost { (state core.new).disk.transfers ≤ (state core.old).disk.transfers + 28 }
{
    let intervals = core.interval_count();
    refused_or_halted(ask_bounds(&mut core.filer, intervals, space))
}

// Asks the tables that stand in a filer's space tables.
fn ask_place<D: Disk, A: Allocator>(
    filer: &mut Filer<D, A>,
    intervals: u32,
    page: u32,
) -> Result<(u32, u32, u32), SpaceError<Halt>>
    requires size { FitsLayout (view_of filer.old) }
    requires count { (1 ≤ intervals) × (intervals ≤ 1023) }
    ensures answer { (ss : List Space) → RevealSpaces (TablesAre (view_of filer.old)) intervals ss
        → Replies (first_of (past_root page ∷ []))
        (λ at. (s : Space) × (innermost ss page ≡ Some s) × (at ≡ (s.handle, s.first, s.pages))) result }
    ensures form { IfOk result (λ at. lies_in_root at.1 at.2 ≡ true) }
    ensures malformed { (b : List ℕ) → TablesAre (view_of filer.old) b
        → IfErr result (IfMalformed (λ broken. BreaksFor page intervals b broken)) }
    ensures cause { IfErr result
        (IfMem
        (IsTableAccounted (view_of filer.old).disk (view_of filer.old).slots (view_of filer.old).layout
        (view_of filer.old).runs (view_of filer.new).disk)) }
    ensures asked { AskedTables (view_of filer.old) (view_of filer.new) }
    ensures cost { (view_of filer.new).disk.transfers ≤ (view_of filer.old).disk.transfers + 224 }
{
    let mut tables = SpaceTables::<TableMemory<D, A>>::over(filer.table_memory(), intervals);
    tables.place(page)
}

/// The innermost space that holds a page: its handle, its first page, and how many pages it has.
pub fn place<D: Disk, A: Allocator>(
    core: &mut Core<D, A>,
    page: u32,
) -> Result<Result<(u32, u32, u32), Refusal>, Halt>
    requires size { FitsLayout (state core.old) }
    ensures answer { (m : List Sector) (named : Triples) (ss : List Space) → Knows core.old m named ss
        → IfOk result
        (Reveals (first_of (past_root page ∷ []))
        (λ at. (s : Space) × (innermost ss page ≡ Some s) × (at ≡ (s.handle, s.first, s.pages)))) }
    ensures form { IfOk result (IfGiven (λ at. lies_in_root at.1 at.2 ≡ true)) }
    ensures cause { IfErr result
        (ReachHalts (TablesBreak (state core.old) (λ b broken. BreaksFor page core.old.intervals b broken))
        (state core.old) (state core.new)) }
    ensures seen { (ss : List Space) → Sees (state core.old) (kept core.old) core.old.intervals ss
        → IfOk result
        (Reveals (first_of (past_root page ∷ []))
        (λ at. (s : Space) × (innermost ss page ≡ Some s) × (at ≡ (s.handle, s.first, s.pages)))) }
    ensures sees { (ss : List Space) → Sees (state core.old) (kept core.old) core.old.intervals ss
        → Sees (state core.new) (kept core.new) core.new.intervals ss }
    ensures right { (ss : List Space) → Sees (state core.old) (kept core.old) core.old.intervals ss
        → IfErr result NeverBlamesTables }
    ensures sound { (m : List Sector) (named : Triples) (ss : List Space) → Knows core.old m named ss
        → IfErr result (λ e. e ≡ halt.Disk) }
    ensures asked { Asked core.old core.new }
    ensures cost { (state core.new).disk.transfers ≤ (state core.old).disk.transfers + 224 }
{
    let intervals = core.interval_count();
    refused_or_halted(ask_place(&mut core.filer, intervals, page))
}

// Asks the tables that stand in a filer's space tables.
fn ask_can_map<D: Disk, A: Allocator>(
    filer: &mut Filer<D, A>,
    intervals: u32,
    space: u32,
) -> Result<(u32, u32), SpaceError<Halt>>
    requires size { FitsLayout (view_of filer.old) }
    requires count { (1 ≤ intervals) × (intervals ≤ 1023) }
    ensures answer { (ss : List Space) → RevealSpaces (TablesAre (view_of filer.old)) intervals ss
        → Replies (first_of (map_row ss space))
        (λ run. (s : Space) × (space_at ss space ≡ Some s) × (run ≡ (s.first, s.pages))) result }
    ensures form { IfOk result (λ run. lies_in_root run.0 run.1 ≡ true) }
    ensures malformed { (b : List ℕ) → TablesAre (view_of filer.old) b
        → IfErr result (IfMalformed (λ page. BreaksHierarchy b page)) }
    ensures cause { IfErr result
        (IfMem
        (IsTableAccounted (view_of filer.old).disk (view_of filer.old).slots (view_of filer.old).layout
        (view_of filer.old).runs (view_of filer.new).disk)) }
    ensures asked { AskedTables (view_of filer.old) (view_of filer.new) }
    ensures cost { (view_of filer.new).disk.transfers ≤ (view_of filer.old).disk.transfers + 14364 }
{
    let mut tables = SpaceTables::<TableMemory<D, A>>::over(filer.table_memory(), intervals);
    tables.can_map(space)
}

/// The tests of a call that maps a space, as far as they ask of spaces; then its first page and how many it has.
pub fn can_map<D: Disk, A: Allocator>(
    core: &mut Core<D, A>,
    space: u32,
) -> Result<Result<(u32, u32), Refusal>, Halt>
    requires size { FitsLayout (state core.old) }
    ensures answer { (m : List Sector) (named : Triples) (ss : List Space) → Knows core.old m named ss
        → IfOk result
        (Reveals (first_of (map_row ss space))
        (λ run. (s : Space) × (space_at ss space ≡ Some s) × (run ≡ (s.first, s.pages)))) }
    ensures form { IfOk result (IfGiven (λ run. lies_in_root run.0 run.1 ≡ true)) }
    ensures cause { IfErr result
        (ReachHalts (TablesBreak (state core.old) (λ b page. BreaksHierarchy b page)) (state core.old)
        (state core.new)) }
    ensures seen { (ss : List Space) → Sees (state core.old) (kept core.old) core.old.intervals ss
        → IfOk result
        (Reveals (first_of (map_row ss space))
        (λ run. (s : Space) × (space_at ss space ≡ Some s) × (run ≡ (s.first, s.pages)))) }
    ensures sees { (ss : List Space) → Sees (state core.old) (kept core.old) core.old.intervals ss
        → Sees (state core.new) (kept core.new) core.new.intervals ss }
    ensures right { (ss : List Space) → Sees (state core.old) (kept core.old) core.old.intervals ss
        → IfErr result NeverBlamesTables }
    ensures sound { (m : List Sector) (named : Triples) (ss : List Space) → Knows core.old m named ss
        → IfErr result (λ e. e ≡ halt.Disk) }
    ensures asked { Asked core.old core.new }
    ensures cost { (state core.new).disk.transfers ≤ (state core.old).disk.transfers + 14364 }
{
    let intervals = core.interval_count();
    refused_or_halted(ask_can_map(&mut core.filer, intervals, space))
}
