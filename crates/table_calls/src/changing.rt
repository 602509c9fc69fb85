//! Spaces that get another unit size or another window.
ghost use Rattle.std.specs.Prelude.{◌≡◌, ◌≤◌, ◌+◌, ℕ, List, Option, IfOk, IfErr, IfSome, MatchResult, option_map};
ghost use Rattle.labelled_disk.specs.declared.evidence.Halt.TheVariants as halt;
ghost use Rattle.labelled_disk.specs.Sectors.{Sector};
ghost use Rattle.file_map.specs.FileMap.{Triples};
ghost use Rattle.flat_machine.specs.declared.space.Space.{Space};
ghost use Rattle.flat_machine.specs.Refusal.{first_of};
ghost use Rattle.flat_machine.specs.Next.{change_space, set_window};
ghost use Rattle.projection_laws.specs.Spaces.{MayHaveWindow};
ghost use Rattle.projection_laws.specs.Laws.{WindowFits};
ghost use Rattle.projection_laws.specs.Tests.{unit_row};
ghost use Rattle.space_tables.specs.Form.{Breaks};
ghost use Rattle.space_tables.specs.Shows.{window_of};
ghost use Rattle.space_tables.specs.Answer.{FromMemory, IfMem, IfMalformed, Answers};
ghost use Rattle.space_tables.specs.Stored.{RevealSpaces};
ghost use Rattle.filer_kernel.specs.Tables.{IsTableAccounted};
ghost use Rattle.filer_kernel.specs.View.{FitsLayout, TablesAre, TablesBeside, view_of};
ghost use Rattle.fault_core.specs.Reach.{ReachHalts};
ghost use Rattle.fault_core.specs.Lack.{Sees};
ghost use Rattle.fault_core.specs.NeverBlames.{NeverBlamesTables};
ghost use Rattle.fault_core.specs.Core.{kept, state, Knows};
ghost use Rattle.table_calls.specs.Answers.{Changes, IsDone, Retabled, TablesBreak};

use crate::halting::refused_or_halted;
use crate::opening::opened;
use fault_core::Core;
use filer_kernel::{Filer, TableMemory};
use flat_machine::Refusal;
use labelled_disk::{Disk, Halt};
use space_tables::{Shown, SpaceError, SpaceTables};
use std::alloc::Allocator;

// Changes the tables that stand in a filer's space tables. There are as many intervals afterwards.
fn set_unit_in<D: Disk, A: Allocator>(
    filer: &mut Filer<D, A>,
    intervals: u32,
    space: u32,
    unit: u32,
) -> Result<(), SpaceError<Halt>>
    requires size { FitsLayout (view_of filer.old) }
    requires count { (1 ≤ intervals) × (intervals ≤ 1023) }
    ensures answer { (ss : List Space) → RevealSpaces (TablesAre (view_of filer.old)) intervals ss
        → Answers (first_of (unit_row ss space unit))
        (λ _.
        RevealSpaces (TablesAre (view_of filer.new)) intervals (change_space space (λ s. record s { unit = unit }) ss))
        (RevealSpaces (TablesAre (view_of filer.new)) intervals ss) result }
    ensures malformed { (b : List ℕ) → TablesAre (view_of filer.old) b
        → IfErr result (IfMalformed (λ page. Breaks intervals b page)) }
    ensures cause { IfErr result
        (IfMem
        (IsTableAccounted (view_of filer.old).disk (view_of filer.old).slots (view_of filer.old).layout
        (view_of filer.old).runs (view_of filer.new).disk)) }
    ensures kept { TablesBeside (view_of filer.old) (view_of filer.new) }
    ensures cost { (view_of filer.new).disk.transfers ≤ (view_of filer.old).disk.transfers + 57344 }
{
    let mut tables = SpaceTables::<TableMemory<D, A>>::over(filer.table_memory(), intervals);
    tables.set_unit(space, unit)
}

/// Gives a space another unit size, 1 to 16 pages.
pub fn set_unit<D: Disk, A: Allocator>(
    core: &mut Core<D, A>,
    space: u32,
    unit: u32,
) -> Result<Result<(), Refusal>, Halt>
    requires size { FitsLayout (state core.old) }
    ensures answer { (m : List Sector) (named : Triples) (ss : List Space) → Knows core.old m named ss
        → IfOk result
        (Changes (first_of (unit_row ss space unit))
        (λ _.
        RevealSpaces (TablesAre (state core.new)) core.new.intervals
        (change_space space (λ s. record s { unit = unit }) ss))
        (RevealSpaces (TablesAre (state core.new)) core.new.intervals ss)) }
    ensures cause { IfErr result
        (ReachHalts (TablesBreak (state core.old) (λ b page. Breaks core.old.intervals b page)) (state core.old)
        (state core.new)) }
    ensures sees { (ss : List Space) → Sees (state core.old) (kept core.old) core.old.intervals ss
        → IfOk result
        (Changes (first_of (unit_row ss space unit))
        (λ _.
        Sees (state core.new) (kept core.new) core.new.intervals
        (change_space space (λ s. record s { unit = unit }) ss))
        (Sees (state core.new) (kept core.new) core.new.intervals ss)) }
    ensures right { (ss : List Space) → Sees (state core.old) (kept core.old) core.old.intervals ss
        → IfErr result NeverBlamesTables }
    ensures sound { (m : List Sector) (named : Triples) (ss : List Space) → Knows core.old m named ss
        → IfErr result (λ e. e ≡ halt.Disk) }
    ensures retabled { Retabled core.old core.new }
    ensures intervals { core.new.intervals ≡ core.old.intervals }
    ensures cost { (state core.new).disk.transfers ≤ (state core.old).disk.transfers + 57344 }
{
    let intervals = opened(core);
    refused_or_halted(set_unit_in(&mut core.filer, intervals, space, unit))
}

// Changes the tables that stand in a filer's space tables.
fn set_window_in<D: Disk, A: Allocator>(
    filer: &mut Filer<D, A>,
    intervals: u32,
    space: u32,
    shown: Option<Shown>,
) -> Result<(), SpaceError<Halt>>
    requires size { FitsLayout (view_of filer.old) }
    requires count { (1 ≤ intervals) × (intervals ≤ 1023) }
    ensures done { (ss : List Space) (x : Space) → RevealSpaces (TablesAre (view_of filer.old)) intervals ss
        → MayHaveWindow ss x → x.handle ≡ space → IfSome shown (λ w. WindowFits x.pages (window_of w))
        → MatchResult result
        (λ _. RevealSpaces (TablesAre (view_of filer.new)) intervals (set_window space (option_map window_of shown) ss))
        FromMemory }
    ensures malformed { (b : List ℕ) → TablesAre (view_of filer.old) b
        → IfErr result (IfMalformed (Breaks intervals b)) }
    ensures cause { IfErr result
        (IfMem
        (IsTableAccounted (view_of filer.old).disk (view_of filer.old).slots (view_of filer.old).layout
        (view_of filer.old).runs (view_of filer.new).disk)) }
    ensures kept { TablesBeside (view_of filer.old) (view_of filer.new) }
    ensures cost { (view_of filer.new).disk.transfers ≤ (view_of filer.old).disk.transfers + 57344 }
{
    let mut tables = SpaceTables::<TableMemory<D, A>>::over(filer.table_memory(), intervals);
    tables.set_window(space, shown)
}

/// Gives a space another window, or none. Where the space is mapped, or no space on its path is, that is done; else, or where
/// no tables are revealed, the call may be refused.
pub fn set_window<D: Disk, A: Allocator>(
    core: &mut Core<D, A>,
    space: u32,
    shown: Option<Shown>,
) -> Result<Result<(), Refusal>, Halt>
    requires size { FitsLayout (state core.old) }
    ensures done { (m : List Sector) (named : Triples) (ss : List Space) (x : Space) → Knows core.old m named ss
        → MayHaveWindow ss x → x.handle ≡ space → IfSome shown (λ w. WindowFits x.pages (window_of w))
        → IfOk result
        (IsDone
        (RevealSpaces (TablesAre (state core.new)) core.new.intervals
        (set_window space (option_map window_of shown) ss))) }
    ensures sound { (m : List Sector) (named : Triples) (ss : List Space) (x : Space) → Knows core.old m named ss
        → MayHaveWindow ss x → x.handle ≡ space → IfSome shown (λ w. WindowFits x.pages (window_of w))
        → IfErr result (λ e. e ≡ halt.Disk) }
    ensures cause { IfErr result
        (ReachHalts (TablesBreak (state core.old) (Breaks core.old.intervals)) (state core.old) (state core.new)) }
    ensures sees { (ss : List Space) (x : Space) → Sees (state core.old) (kept core.old) core.old.intervals ss
        → MayHaveWindow ss x → x.handle ≡ space → IfSome shown (λ w. WindowFits x.pages (window_of w))
        → IfOk result
        (IsDone
        (Sees (state core.new) (kept core.new) core.new.intervals (set_window space (option_map window_of shown) ss))) }
    ensures right { (ss : List Space) → Sees (state core.old) (kept core.old) core.old.intervals ss
        → IfErr result NeverBlamesTables }
    ensures retabled { Retabled core.old core.new }
    ensures intervals { core.new.intervals ≡ core.old.intervals }
    ensures cost { (state core.new).disk.transfers ≤ (state core.old).disk.transfers + 57344 }
{
    let intervals = opened(core);
    refused_or_halted(set_window_in(&mut core.filer, intervals, space, shown))
}
