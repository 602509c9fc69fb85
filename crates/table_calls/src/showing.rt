//! What spaces show, by the space tables.
ghost use Rattle.std.specs.Prelude.{◌≡◌, ◌≤◌, ◌+◌, ℕ, true, List, Option, Some, IfOk, IfErr, IfSome};
ghost use Rattle.labelled_disk.specs.declared.evidence.Halt.TheVariants as halt;
ghost use Rattle.labelled_disk.specs.Sectors.{Sector};
ghost use Rattle.file_map.specs.FileMap.{Triples};
ghost use Rattle.flat_machine.specs.declared.space.Space.{Space};
ghost use Rattle.flat_machine.specs.Space.{space_at};
ghost use Rattle.flat_machine.specs.Refusal.{first_of};
ghost use Rattle.projection_laws.specs.Tests.{window_row};
ghost use Rattle.space_tables.specs.Form.{BreaksSlot, BreaksHierarchy};
ghost use Rattle.space_tables.specs.Shows.{window_of, shows, IsFirstWith, IsShownAt};
ghost use Rattle.space_tables.specs.Answer.{FromMemory, NotRefused, IfMem, IfMalformed, Replies};
ghost use Rattle.space_tables.specs.Stored.{RevealSpaces};
ghost use Rattle.filer_kernel.specs.Tables.{IsTableAccounted};
ghost use Rattle.filer_kernel.specs.View.{FitsLayout, TablesAre, view_of};
ghost use Rattle.fault_core.specs.Reach.{ReachHalts};
ghost use Rattle.fault_core.specs.Lack.{Sees};
ghost use Rattle.fault_core.specs.NeverBlames.{NeverBlamesTables};
ghost use Rattle.fault_core.specs.Core.{kept, state, Knows};
ghost use Rattle.table_calls.specs.Answers.{Asked, AskedTables, IfGiven, Reveals, TablesBreak, TablesSay};

use crate::halting::refused_or_halted;
use fault_core::Core;
use filer_kernel::{Filer, TableMemory};
use flat_machine::Refusal;
use labelled_disk::{Disk, FileId, Halt};
use space_tables::{Shown, SpaceError, SpaceTables};
use std::alloc::Allocator;

// Asks the tables that stand in a filer's space tables.
fn ask_shown<D: Disk, A: Allocator>(
    filer: &mut Filer<D, A>,
    intervals: u32,
    space: u32,
) -> Result<Shown, SpaceError<Halt>>
    requires size { FitsLayout (view_of filer.old) }
    requires count { (1 ≤ intervals) × (intervals ≤ 1023) }
    ensures answer { (ss : List Space) → RevealSpaces (TablesAre (view_of filer.old)) intervals ss
        → Replies (first_of (window_row ss space))
        (λ x. (s : Space) × (space_at ss space ≡ Some s) × (s.window ≡ Some (window_of x))) result }
    ensures form { IfOk result (λ x. 16 ≤ x.id) }
    ensures read { (b : List ℕ) → TablesAre (view_of filer.old) b → IfOk result (IsShownAt b space) }
    ensures malformed { (b : List ℕ) → TablesAre (view_of filer.old) b
        → IfErr result (IfMalformed (λ page. BreaksSlot b page space)) }
    ensures cause { IfErr result
        (IfMem
        (IsTableAccounted (view_of filer.old).disk (view_of filer.old).slots (view_of filer.old).layout
        (view_of filer.old).runs (view_of filer.new).disk)) }
    ensures asked { AskedTables (view_of filer.old) (view_of filer.new) }
    ensures cost { (view_of filer.new).disk.transfers ≤ (view_of filer.old).disk.transfers + 28 }
{
    let mut tables = SpaceTables::<TableMemory<D, A>>::over(filer.table_memory(), intervals);
    tables.shown(space)
}

/// What a space itself shows.
pub fn shown<D: Disk, A: Allocator>(
    core: &mut Core<D, A>,
    space: u32,
) -> Result<Result<Shown, Refusal>, Halt>
    requires size { FitsLayout (state core.old) }
    ensures answer { (m : List Sector) (named : Triples) (ss : List Space) → Knows core.old m named ss
        → IfOk result
        (Reveals (first_of (window_row ss space))
        (λ x. (s : Space) × (space_at ss space ≡ Some s) × (s.window ≡ Some (window_of x)))) }
    ensures form { IfOk result (IfGiven (λ x. 16 ≤ x.id)) }
    ensures read { IfOk result (IfGiven (TablesSay (state core.old) (λ b. IsShownAt b space))) }
    ensures cause { IfErr result
        (ReachHalts (TablesBreak (state core.old) (λ b page. BreaksSlot b page space)) (state core.old)
        (state core.new)) }
    ensures seen { (ss : List Space) → Sees (state core.old) (kept core.old) core.old.intervals ss
        → IfOk result
        (Reveals (first_of (window_row ss space))
        (λ x. (s : Space) × (space_at ss space ≡ Some s) × (s.window ≡ Some (window_of x)))) }
    ensures sees { (ss : List Space) → Sees (state core.old) (kept core.old) core.old.intervals ss
        → Sees (state core.new) (kept core.new) core.new.intervals ss }
    ensures right { (ss : List Space) → Sees (state core.old) (kept core.old) core.old.intervals ss
        → IfErr result NeverBlamesTables }
    ensures sound { (m : List Sector) (named : Triples) (ss : List Space) → Knows core.old m named ss
        → IfErr result (λ e. e ≡ halt.Disk) }
    ensures asked { Asked core.old core.new }
    ensures cost { (state core.new).disk.transfers ≤ (state core.old).disk.transfers + 28 }
{
    let intervals = core.interval_count();
    refused_or_halted(ask_shown(&mut core.filer, intervals, space))
}

// Asks the tables that stand in a filer's space tables.
fn ask_shows_file<D: Disk, A: Allocator>(
    filer: &mut Filer<D, A>,
    intervals: u32,
    id: FileId,
    writable_only: bool,
) -> Result<Option<(u32, Shown)>, SpaceError<Halt>>
    requires size { FitsLayout (view_of filer.old) }
    requires count { (1 ≤ intervals) × (intervals ≤ 1023) }
    ensures answer { (ss : List Space) → RevealSpaces (TablesAre (view_of filer.old)) intervals ss
        → IfOk result (IsFirstWith (shows id writable_only) ss) }
    ensures right { (ss : List Space) → RevealSpaces (TablesAre (view_of filer.old)) intervals ss
        → IfErr result FromMemory }
    ensures form { IfOk result
        (λ o. IfSome o (λ at. (16 ≤ at.1.id) × (at.1.id ≡ id) × (writable_only ≡ true → at.1.writable ≡ true))) }
    ensures malformed { (b : List ℕ) → TablesAre (view_of filer.old) b
        → IfErr result (IfMalformed (BreaksHierarchy b)) }
    ensures refused { IfErr result NotRefused }
    ensures cause { IfErr result
        (IfMem
        (IsTableAccounted (view_of filer.old).disk (view_of filer.old).slots (view_of filer.old).layout
        (view_of filer.old).runs (view_of filer.new).disk)) }
    ensures asked { AskedTables (view_of filer.old) (view_of filer.new) }
    ensures cost { (view_of filer.new).disk.transfers ≤ (view_of filer.old).disk.transfers + 14336 }
{
    let mut tables = SpaceTables::<TableMemory<D, A>>::over(filer.table_memory(), intervals);
    tables.shows_file(id, writable_only)
}

/// The lowest handle whose space shows a file, and what it shows there; or only one that shows it writable.
pub fn shows_file<D: Disk, A: Allocator>(
    core: &mut Core<D, A>,
    id: FileId,
    writable_only: bool,
) -> Result<Option<(u32, Shown)>, Halt>
    requires size { FitsLayout (state core.old) }
    ensures answer { (m : List Sector) (named : Triples) (ss : List Space) → Knows core.old m named ss
        → IfOk result (IsFirstWith (shows id writable_only) ss) }
    ensures form { IfOk result
        (λ o. IfSome o (λ at. (16 ≤ at.1.id) × (at.1.id ≡ id) × (writable_only ≡ true → at.1.writable ≡ true))) }
    ensures cause { IfErr result
        (ReachHalts (TablesBreak (state core.old) BreaksHierarchy) (state core.old) (state core.new)) }
    ensures seen { (ss : List Space) → Sees (state core.old) (kept core.old) core.old.intervals ss
        → IfOk result (IsFirstWith (shows id writable_only) ss) }
    ensures sees { (ss : List Space) → Sees (state core.old) (kept core.old) core.old.intervals ss
        → Sees (state core.new) (kept core.new) core.new.intervals ss }
    ensures right { (ss : List Space) → Sees (state core.old) (kept core.old) core.old.intervals ss
        → IfErr result NeverBlamesTables }
    ensures sound { (m : List Sector) (named : Triples) (ss : List Space) → Knows core.old m named ss
        → IfErr result (λ e. e ≡ halt.Disk) }
    ensures asked { Asked core.old core.new }
    ensures cost { (state core.new).disk.transfers ≤ (state core.old).disk.transfers + 14336 }
{
    let intervals = core.interval_count();
    match refused_or_halted(ask_shows_file(&mut core.filer, intervals, id, writable_only)) {
        Ok(Ok(found)) => Ok(found),
        Ok(Err(_)) => unreachable!(),
        Err(halt) => Err(halt),
    }
}
