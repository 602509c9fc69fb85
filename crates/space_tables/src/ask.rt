//! What is asked of the tables: they stay as they are.
ghost use Rattle.std.specs.Prelude.{◌≡◌, ℕ, ◌+◌, ◌*◌, ◌<◌, ◌≤◌, true, List, [], ◌∷◌, Some, IfOk, IfErr};
ghost use Rattle.flat_machine.specs.declared.space.Space.{Space};
ghost use Rattle.flat_machine.specs.Space.{space_at, innermost};
ghost use Rattle.flat_machine.specs.Refusal.{first_of, past_root};
ghost use Rattle.projection_laws.specs.Tests.{no_space, map_row};
ghost use Rattle.projection_laws.specs.Stored.{slot_in};
ghost use Rattle.space_tables.specs.Form.{slot_record, space_in_form, BreaksSlot, BreaksHierarchy, BreaksFor};
ghost use Rattle.space_tables.specs.Answer.{IfMem, IfMalformed, Replies};
ghost use Rattle.space_tables.specs.Stored.{RevealSpaces};

use crate::handles::{Sought, named_handles};
use crate::records::slot;
use crate::scan::{Test, find_space};
use crate::{SpaceError, projection};
use flat_machine::{Refusal, Space};
use flat_mem::FlatMem;
use swap_units::ROOT_PAGES;

/// The space of a handle.
pub fn existing<M: FlatMem>(mem: &mut M, handle: u32) -> Result<Space, SpaceError<M::Error>>
    requires size { 49152 ≤ M.size mem.old }
    ensures answer { (count : ℕ) (ss : List Space) → RevealSpaces (M.reveals mem.old) count ss
        → Replies (no_space ss handle) (λ s. space_at ss handle ≡ Some s) result }
    ensures read { (b : List ℕ) → M.reveals mem.old b
        → IfOk result (λ s. slot_in handle (slot_record b handle) ≡ Some s) }
    ensures form { IfOk result (λ s. (space_in_form s ≡ true) × (s.handle ≡ handle) × (handle < 512)) }
    ensures malformed { (b : List ℕ) → M.reveals mem.old b
        → IfErr result (IfMalformed (λ page. BreaksSlot b page handle)) }
    ensures unchanged { (b : List ℕ) → M.reveals mem.old b → M.reveals mem.new b }
    ensures kept { M.beside mem.old mem.new }
    ensures looked { M.only_reads mem.old mem.new }
    ensures cause { IfErr result (IfMem (M.accounted mem.old mem.new)) }
    ensures cost { M.spent mem.new ≤ M.spent mem.old + M.cost }
{
    if handle > 511 {
        return Err(SpaceError::Refused(Refusal::Space));
    }
    match slot(mem, handle)? {
        Some(space) => Ok(space),
        None => Err(SpaceError::Refused(Refusal::Space)),
    }
}

/// The innermost space that holds a page.
pub fn place<M: FlatMem>(mem: &mut M, count: u32, page: u32) -> Result<Space, SpaceError<M::Error>>
    requires size { 49152 ≤ M.size mem.old }
    requires some { 1 ≤ count }
    requires few { count ≤ 1023 }
    ensures answer { (ss : List Space) → RevealSpaces (M.reveals mem.old) count ss
        → Replies (first_of (past_root page ∷ [])) (λ s. innermost ss page ≡ Some s) result }
    ensures form { IfOk result (λ s. space_in_form s ≡ true) }
    ensures malformed { (b : List ℕ) → M.reveals mem.old b → IfErr result (IfMalformed (BreaksFor page count b)) }
    ensures unchanged { (b : List ℕ) → M.reveals mem.old b → M.reveals mem.new b }
    ensures kept { M.beside mem.old mem.new }
    ensures looked { M.only_reads mem.old mem.new }
    ensures cause { IfErr result (IfMem (M.accounted mem.old mem.new)) }
    ensures cost { M.spent mem.new ≤ M.spent mem.old + 8 * M.cost }
{
    if page >= ROOT_PAGES {
        return Err(SpaceError::Refused(Refusal::Range));
    }
    let (_, interval) = projection::find(mem, count, page)?;
    existing(mem, interval.space.into())
}

/// The space of a handle, where it can be mapped.
pub fn unmapped<M: FlatMem>(
    mem: &mut M,
    count: u32,
    handle: u32,
) -> Result<Space, SpaceError<M::Error>>
    requires size { 49152 ≤ M.size mem.old }
    requires some { 1 ≤ count }
    requires few { count ≤ 1023 }
    ensures answer { (ss : List Space) → RevealSpaces (M.reveals mem.old) count ss
        → Replies (first_of (map_row ss handle)) (λ s. space_at ss handle ≡ Some s) result }
    ensures read { (b : List ℕ) → M.reveals mem.old b
        → IfOk result (λ s. slot_in handle (slot_record b handle) ≡ Some s) }
    ensures form { IfOk result (λ s. space_in_form s ≡ true) }
    ensures malformed { (b : List ℕ) → M.reveals mem.old b → IfErr result (IfMalformed (BreaksHierarchy b)) }
    ensures unchanged { (b : List ℕ) → M.reveals mem.old b → M.reveals mem.new b }
    ensures kept { M.beside mem.old mem.new }
    ensures looked { M.only_reads mem.old mem.new }
    ensures cause { IfErr result (IfMem (M.accounted mem.old mem.new)) }
    ensures cost { M.spent mem.new ≤ M.spent mem.old + 513 * M.cost }
{
    let space = existing(mem, handle)?;
    if handle == 0 {
        return Err(SpaceError::Refused(Refusal::Root));
    }
    let (from, end) = projection::within(mem, count, &space)?;
    let handles = named_handles(mem, from, end, &Sought::Mapped)?;
    match find_space(mem, &handles, &Test::OnPath(space))? {
        Some(mapped) => Err(SpaceError::Refused(Refusal::Mapped(mapped.handle))),
        None => Ok(space),
    }
}
