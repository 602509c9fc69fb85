//! Clients that wait, and searches among them.
ghost use Rattle.std.specs.Prelude.{◌≡◌, ◌==◌, ◌≤◌, length, find, option_copied};
ghost use Rattle.std.specs.List.{All};
ghost use Rattle.flight_core.specs.Pending.{IsKept};
ghost use Rattle.flight_core.specs.Crowd.{entry_of, entry_for, of_flight};

use arrayvec::ArrayVec;
use flat_machine::{Call, Piece};

/// A client that waits with a load or a store for a page that it touches.
#[derive(Drop)]
pub struct Pending {
    pub(crate) client: u8,
    pub(crate) call: Call,
    pub(crate) page: u32,
    pub(crate) flight: u64,
}

// The places of an array that are not used hold this.
impl Default for Pending {
    fn default() -> Pending {
        Pending {
            client: 0,
            call: Call::Volume,
            page: 0,
            flight: 0,
        }
    }
}

/// With what the client waits.
pub(crate) fn entry_of(pending: &[Pending], client: u8) -> Option<&Pending>
    ensures { option_copied result ≡ entry_of pending.now client }
{
    pending.iter().find(|p| p.client == client)
}

/// Who waits for the page first.
pub(crate) fn entry_for(pending: &[Pending], page: u32) -> Option<&Pending>
    ensures { option_copied result ≡ entry_for pending.now page }
{
    pending.iter().find(|p| p.page == page)
}

/// Copies of those who wait for the flight, in order.
pub(crate) fn of_flight(pending: &[Pending], flight: u64) -> ArrayVec<Pending, 16>
    requires few { length pending.now ≤ 16 }
    requires kept { All (λ p. IsKept p.call) pending.now }
    ensures { result.items ≡ of_flight pending.now flight }
{
    let mut found = ArrayVec::new();
    for p in pending {
        if p.flight == flight {
            found.push(copied(p));
        }
    }
    found
}

fn copied(pending: &Pending) -> Pending
    requires { IsKept pending.now.call }
    ensures { result ≡ pending.now }
{
    Pending {
        client: pending.client,
        call: reference(&pending.call),
        page: pending.page,
        flight: pending.flight,
    }
}

/// A load or a store once more.
pub(crate) fn reference(call: &Call) -> Call
    requires { IsKept call.now }
    ensures { result ≡ call.now }
{
    match call {
        Call::Load { address, count } => Call::Load {
            address: *address,
            count: *count,
        },
        Call::Store { address, bytes } => Call::Store {
            address: *address,
            bytes: Piece::of(bytes.as_slice()),
        },
        _ => Call::Volume,
    }
}
