//! The calls of a trial, one after another.
ghost use Rattle.std.specs.Prelude.{◌≡◌, ◌<◌, ◌+◌, ◌^◌, ℕ, suc, false};
ghost use Rattle.flat_machine.specs.Form.{IsInForm};
ghost use Rattle.flat_machine.specs.After.{ends_trace};
ghost use Rattle.trace_maker.specs.Drawn.{number_after, value_of};
ghost use Rattle.trace_maker.specs.Calls.{bytes_by, call_by, call_of};

use crate::drawn::{number_after, value_of};
use flat_machine::{Call, Piece};

// The bytes of a store, which rise by one.
fn bytes_by(u: u32) -> Piece
    requires { u < 2 ^ 31 }
    ensures { result ≡ bytes_by u }
{
    let mut bytes = Piece::new();
    for k in 0..1 + u % 64 {
        bytes.append(((u + k) % 256) as u8);
    }
    bytes
}

// The call that three values give.
fn call_by(v: u32, w: u32, u: u32) -> Call
    requires { u < 2 ^ 31 }
    ensures { result ≡ call_by v w u }
{
    let address = w % 32768;
    let space = 1 + w % 4;
    match v % 8 {
        0..=2 => Call::Load {
            address,
            count: (1 + u % 64) as u8,
        },
        3..=5 => Call::Store {
            address,
            bytes: bytes_by(u),
        },
        6 => match u % 3 {
            0 => Call::Activate { space },
            1 => Call::Deactivate { space },
            _ => Call::ForceOut { space },
        },
        _ => Call::Units {
            space,
            pages: 1 + u % 16,
        },
    }
}

/// Draws the calls of a trial, three numbers a call.
#[derive(Clone, Copy, Debug, PartialEq, Eq)]
pub struct TraceMaker {
    // The last number that was drawn, at first the seed.
    drawn: u64,
}

impl TraceMaker {
    ghost use Rattle.trace_maker.specs.Maker.{IsAt};

    /// Calls are drawn from the first one on.
    pub fn new(seed: u32) -> TraceMaker
        ensures { IsAt result seed 0 }
    {
        TraceMaker {
            drawn: u64::from(seed),
        }
    }

    fn draw(&mut self) -> u32
        ensures drawn { self.new.drawn ≡ number_after self.old.drawn }
        ensures value { result ≡ value_of self.new.drawn }
        ensures small { result < 2 ^ 31 }
    {
        self.drawn = number_after(self.drawn);
        value_of(self.drawn)
    }

    /// The next call, with the index after that of the call before.
    pub fn next_call(&mut self) -> Call
        ensures call { (seed index : ℕ) → IsAt self.old seed index → result ≡ call_of seed index }
        ensures next { (seed index : ℕ) → IsAt self.old seed index → IsAt self.new seed (suc index) }
        ensures in_form { IsInForm result }
        ensures more { ends_trace result ≡ false }
    {
        let v = self.draw();
        let w = self.draw();
        let u = self.draw();
        call_by(v, w, u)
    }
}

/// The call of this index.
pub fn call_at(seed: u32, index: u32) -> Call
    ensures call { result ≡ call_of seed index }
    ensures in_form { IsInForm result }
    ensures more { ends_trace result ≡ false }
{
    let mut maker = TraceMaker::new(seed);
    for _ in 0..index {
        maker.next_call();
    }
    maker.next_call()
}
