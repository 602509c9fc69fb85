//! The order of the slots, in which the empty ones stand first: so one is found, taken and given back in constant time.
ghost use Rattle.std.specs.Prelude.{◌<◌, length};
ghost use Rattle.frame_pool.specs.Lists.{IsSized};
ghost use Rattle.frame_pool.specs.Order.{IsOrder, Exchanges, KeepsButOrder};

use crate::table::Table;
use std::alloc::Allocator;

/// Moves a slot to a place of the order, and what stands there to where the slot was.
pub(crate) fn exchange<A: Allocator>(table: &mut Table<A>, slot: u16, place: u16)
    requires slot { slot < length table.old.frames }
    requires place { place < length table.old.frames }
    requires sized { IsSized table.old }
    requires order { IsOrder table.old }
    ensures order { IsOrder table.new }
    ensures moved { Exchanges table.old table.new slot place }
    ensures kept { KeepsButOrder table.old table.new }
{
    let from = table.position(slot);
    let other = table.order(place);
    table.set_order(from, other);
    table.set_position(other, from);
    table.set_order(place, slot);
    table.set_position(slot, place);
}
