//! A space is added.
ghost use Rattle.std.specs.Prelude.{◌≡◌, ℕ, ◌+◌, ◌*◌, ◌≤◌, ◌⊎◌, true, List, Option, IfOk, IfErr, min};
ghost use Rattle.flat_machine.specs.declared.space.Space.{Space};
ghost use Rattle.flat_machine.specs.Next.{put_space};
ghost use Rattle.flat_machine.specs.Refusal.{first_of};
ghost use Rattle.projection_laws.specs.Tests.{add_row, made};
ghost use Rattle.space_tables.specs.Form.{lies_in_root, BreaksHierarchy, BreaksAt, MakesTooMany};
ghost use Rattle.space_tables.specs.Answer.{IfMem, IfMalformed, Answers};
ghost use Rattle.space_tables.specs.Stored.{RevealSpaces};

use crate::SpaceError;
use crate::ask::existing;
use crate::code::space_bytes;
use crate::records::put_slot;
use crate::rooms::find_room;
use crate::scan::free_handle;
use crate::split::split;
use flat_machine::{Refusal, Space};
use flat_mem::FlatMem;

// The unit of a new space, which is set later.
fn first_unit(pages: u32) -> u8
    ensures { result ≡ min pages 16 }
{
    pages.min(16) as u8
}

/// Adds a space. Gives its handle, its first page, and how many intervals there are then.
pub fn add<M: FlatMem>(
    mem: &mut M,
    count: u32,
    parent: u32,
    pages: u32,
    first: Option<u32>,
) -> Result<(u32, u32, u32), SpaceError<M::Error>>
    requires size { 49152 ≤ M.size mem.old }
    requires some { 1 ≤ count }
    requires few { count ≤ 1023 }
    ensures answer { (ss : List Space) → RevealSpaces (M.reveals mem.old) count ss
        → Answers (first_of (add_row ss parent pages first))
        (λ at.
        RevealSpaces (M.reveals mem.new) at.2 (put_space (made ss parent pages first) ss)
        × (at.0 ≡ (made ss parent pages first).handle) × (at.1 ≡ (made ss parent pages first).first))
        (RevealSpaces (M.reveals mem.new) count ss) result }
    ensures form { IfOk result (λ at. (lies_in_root at.1 pages ≡ true) × (1 ≤ at.2) × (at.2 ≤ 1023)) }
    ensures malformed { (b : List ℕ) → M.reveals mem.old b
        → IfErr result
        (IfMalformed
        (λ page.
        BreaksHierarchy b page ⊎ (BreaksAt first count b page ⊎ MakesTooMany count b parent pages first page))) }
    ensures kept { M.beside mem.old mem.new }
    ensures cause { IfErr result (IfMem (M.accounted mem.old mem.new)) }
    ensures cost { M.spent mem.new ≤ M.spent mem.old + 1793 * M.cost }
{
    existing(mem, parent)?;
    if pages == 0 {
        return Err(SpaceError::Refused(Refusal::Size));
    }
    let Some(handle) = free_handle(mem)? else {
        return Err(SpaceError::Refused(Refusal::Spaces));
    };
    let room = find_room(mem, count, parent, pages, first)?;
    let space = Space {
        handle,
        parent,
        first: room.first,
        pages,
        unit: first_unit(pages),
        window: None,
    };
    let count = split(mem, count, room.index, &room.interval, &space)?;
    put_slot(mem, handle, &space_bytes(&space))?;
    Ok((handle, room.first, count))
}
