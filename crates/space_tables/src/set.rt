//! Another unit or another window of a space.
ghost use Rattle.std.specs.Prelude.{◌≡◌, ℕ, ◌+◌, ◌*◌, ◌≤◌, List, Option, IfErr, IfSome, MatchResult};
ghost use Rattle.flat_machine.specs.declared.space.Space.{Space};
ghost use Rattle.flat_machine.specs.Next.{change_space, set_window};
ghost use Rattle.flat_machine.specs.Refusal.{first_of};
ghost use Rattle.projection_laws.specs.Laws.{WindowFits};
ghost use Rattle.projection_laws.specs.Spaces.{MayHaveWindow};
ghost use Rattle.projection_laws.specs.Tests.{unit_row};
ghost use Rattle.space_tables.specs.Form.{Breaks};
ghost use Rattle.space_tables.specs.Answer.{FromMemory, IfMem, IfMalformed, Answers};
ghost use Rattle.space_tables.specs.Stored.{RevealSpaces};

use crate::SpaceError;
use crate::ask::existing;
use crate::change::{Change, rewrite};
use crate::code::space_bytes;
use crate::records::put_slot;
use flat_machine::{Refusal, Space, Window};
use flat_mem::FlatMem;

/// Gives a space another unit.
pub fn set_unit<M: FlatMem>(
    mem: &mut M,
    count: u32,
    handle: u32,
    unit: u32,
) -> Result<(), SpaceError<M::Error>>
    requires size { 49152 ≤ M.size mem.old }
    requires some { 1 ≤ count }
    requires few { count ≤ 1023 }
    ensures answer { (ss : List Space) → RevealSpaces (M.reveals mem.old) count ss
        → Answers (first_of (unit_row ss handle unit))
        (λ _. RevealSpaces (M.reveals mem.new) count (change_space handle (λ s. record s { unit = unit }) ss))
        (RevealSpaces (M.reveals mem.new) count ss) result }
    ensures malformed { (b : List ℕ) → M.reveals mem.old b → IfErr result (IfMalformed (Breaks count b)) }
    ensures kept { M.beside mem.old mem.new }
    ensures cause { IfErr result (IfMem (M.accounted mem.old mem.new)) }
    ensures cost { M.spent mem.new ≤ M.spent mem.old + 2048 * M.cost }
{
    let found = existing(mem, handle)?;
    if handle == 0 {
        return Err(SpaceError::Refused(Refusal::Root));
    }
    if unit == 0 || unit > 16 {
        return Err(SpaceError::Refused(Refusal::Size));
    }
    let unit = unit as u8;
    put_slot(mem, handle, &space_bytes(&Space { unit, ..found }))?;
    rewrite(mem, count, &found, &Change::Unit(handle, unit))
}

/// Gives a space another window, or none.
pub fn set_window<M: FlatMem>(
    mem: &mut M,
    count: u32,
    handle: u32,
    window: Option<Window>,
) -> Result<(), SpaceError<M::Error>>
    requires size { 49152 ≤ M.size mem.old }
    requires some { 1 ≤ count }
    requires few { count ≤ 1023 }
    ensures done { (ss : List Space) (x : Space) → RevealSpaces (M.reveals mem.old) count ss → MayHaveWindow ss x
        → x.handle ≡ handle → IfSome window (WindowFits x.pages)
        → MatchResult result (λ _. RevealSpaces (M.reveals mem.new) count (set_window handle window ss)) FromMemory }
    ensures malformed { (b : List ℕ) → M.reveals mem.old b → IfErr result (IfMalformed (Breaks count b)) }
    ensures kept { M.beside mem.old mem.new }
    ensures cause { IfErr result (IfMem (M.accounted mem.old mem.new)) }
    ensures cost { M.spent mem.new ≤ M.spent mem.old + 2048 * M.cost }
{
    let found = existing(mem, handle)?;
    put_slot(mem, handle, &space_bytes(&Space { window, ..found }))?;
    rewrite(mem, count, &found, &Change::Window(found, window))
}
