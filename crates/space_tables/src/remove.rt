//! A space is removed.
ghost use Rattle.std.specs.Prelude.{◌≡◌, ℕ, ◌+◌, ◌*◌, ◌<◌, ◌≤◌, ◌==◌, ◌&&◌, true, List, Some, IfOk, IfErr, MatchResult};
ghost use Rattle.std.specs.Bool.{then_some};
ghost use Rattle.flat_machine.specs.declared.call.Refusal.TheVariants.{Children};
ghost use Rattle.flat_machine.specs.declared.space.Space.{Space};
ghost use Rattle.flat_machine.specs.Space.{root_pages, space_at};
ghost use Rattle.flat_machine.specs.Next.{without_space};
ghost use Rattle.flat_machine.specs.Refusal.{first_of};
ghost use Rattle.projection_laws.specs.Tests.{has_children, remove_row};
ghost use Rattle.space_tables.specs.Form.{space_in_form, first_in_slot, BreaksFor};
ghost use Rattle.space_tables.specs.Answer.{FromMemory, NotRefused, IfMem, IfMalformed, Answers, Replies};
ghost use Rattle.space_tables.specs.Stored.{RevealSpaces};

use crate::ask::existing;
use crate::handles::EVERY;
use crate::join::rejoin;
use crate::records::put_slot;
use crate::scan::{Test, find_space};
use crate::split::inside;
use crate::{SpaceError, projection};
use flat_machine::{Refusal, Space};
use flat_mem::FlatMem;
use swap_units::Interval;

// The interval is the space's own, and has all its pages.
fn is_whole(x: &Interval, space: &Space) -> bool
    ensures { result
        ≡ (x.now.first == space.now.first && x.now.pages == space.now.pages && x.now.space == space.now.handle) }
{
    x.first == space.first && x.pages == space.pages && u32::from(x.space) == space.handle
}

// Whether a space has a child: one whose pages are one interval of its own has none.
fn has_child<M: FlatMem>(
    mem: &mut M,
    count: u32,
    space: &Space,
) -> Result<bool, SpaceError<M::Error>>
    requires size { 49152 ≤ M.size mem.old }
    requires some { 1 ≤ count }
    requires few { count ≤ 1023 }
    ensures answer { (ss : List Space) → RevealSpaces (M.reveals mem.old) count ss
        → space_at ss space.now.handle ≡ Some space.now → space.now.first < root_pages
        → MatchResult result (λ is. has_children ss space.now.handle ≡ then_some is Children) FromMemory }
    ensures malformed { (b : List ℕ) → M.reveals mem.old b
        → IfErr result (IfMalformed (BreaksFor space.now.first count b)) }
    ensures refused { IfErr result NotRefused }
    ensures unchanged { (b : List ℕ) → M.reveals mem.old b → M.reveals mem.new b }
    ensures kept { M.beside mem.old mem.new }
    ensures looked { M.only_reads mem.old mem.new }
    ensures cause { IfErr result (IfMem (M.accounted mem.old mem.new)) }
    ensures cost { M.spent mem.new ≤ M.spent mem.old + 39 * M.cost }
{
    let (_, interval) = projection::find(mem, count, space.first)?;
    if is_whole(&interval, space) {
        return Ok(false);
    }
    match find_space(mem, &EVERY, &Test::ChildOf(space.handle))? {
        Some(_) => Ok(true),
        None => Ok(false),
    }
}

// The space of a handle, where it can be removed.
fn removable<M: FlatMem>(
    mem: &mut M,
    count: u32,
    handle: u32,
) -> Result<Space, SpaceError<M::Error>>
    requires size { 49152 ≤ M.size mem.old }
    requires some { 1 ≤ count }
    requires few { count ≤ 1023 }
    ensures answer { (ss : List Space) → RevealSpaces (M.reveals mem.old) count ss
        → Replies (first_of (remove_row ss handle)) (λ s. space_at ss handle ≡ Some s) result }
    ensures form { IfOk result (λ s. (space_in_form s ≡ true) × (handle < 512)) }
    ensures read { (b : List ℕ) → M.reveals mem.old b → IfOk result (λ s. s.first ≡ first_in_slot b handle) }
    ensures malformed { (b : List ℕ) → M.reveals mem.old b
        → IfErr result (IfMalformed (BreaksFor (first_in_slot b handle) count b)) }
    ensures unchanged { (b : List ℕ) → M.reveals mem.old b → M.reveals mem.new b }
    ensures kept { M.beside mem.old mem.new }
    ensures looked { M.only_reads mem.old mem.new }
    ensures cause { IfErr result (IfMem (M.accounted mem.old mem.new)) }
    ensures cost { M.spent mem.new ≤ M.spent mem.old + 40 * M.cost }
{
    let space = existing(mem, handle)?;
    if handle == 0 {
        return Err(SpaceError::Refused(Refusal::Root));
    }
    let is_parent = has_child(mem, count, &space)?;
    if is_parent {
        return Err(SpaceError::Refused(Refusal::Children));
    }
    match space.window {
        Some(_) => Err(SpaceError::Refused(Refusal::Mapped(handle))),
        None => Ok(space),
    }
}

/// Removes a space. Gives how many intervals there are then.
pub fn remove<M: FlatMem>(mem: &mut M, count: u32, handle: u32) -> Result<u32, SpaceError<M::Error>>
    requires size { 49152 ≤ M.size mem.old }
    requires some { 1 ≤ count }
    requires few { count ≤ 1023 }
    ensures answer { (ss : List Space) → RevealSpaces (M.reveals mem.old) count ss
        → Answers (first_of (remove_row ss handle)) (λ n. RevealSpaces (M.reveals mem.new) n (without_space handle ss))
        (RevealSpaces (M.reveals mem.new) count ss) result }
    ensures form { IfOk result (λ n. (1 ≤ n) × (n ≤ 1023)) }
    ensures malformed { (b : List ℕ) → M.reveals mem.old b
        → IfErr result (IfMalformed (BreaksFor (first_in_slot b handle) count b)) }
    ensures kept { M.beside mem.old mem.new }
    ensures cause { IfErr result (IfMem (M.accounted mem.old mem.new)) }
    ensures cost { M.spent mem.new ≤ M.spent mem.old + 783 * M.cost }
{
    let space = removable(mem, count, handle)?;
    let parent = existing(mem, space.parent)?;
    let (index, interval) = projection::find(mem, count, space.first)?;
    let count = rejoin(mem, count, index, &inside(&parent, &interval))?;
    put_slot(mem, handle, &[0; 32])?;
    Ok(count)
}
