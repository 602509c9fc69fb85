//! What came of drawn calls, and the line about it.
ghost use Rattle.std.specs.Prelude.{◌≡◌, ◌<◌, ◌≤◌, ◌+◌, ◌-◌, ◌^◌, ◌++◌, codes, decimal, length, List, sum_by, [], ◌∷◌};
ghost use Rattle.flat_machine.specs.declared.call.Reply.{Reply};
ghost use Rattle.pilot_top.specs.Trial.{trial_line};

use arrayvec::ArrayVec;
use flat_machine::Reply;
use itoa::Buffer;

// The sum of the bytes of one reply.
fn sum_of(bytes: &[u8]) -> u32
    requires short { length bytes.now ≤ 64 }
    ensures { result ≡ sum_by (λ b. b) bytes.now }
{
    let mut sum = 0;
    for byte in bytes {
        sum += u32::from(*byte);
    }
    sum
}

/// How many calls were refused, how many bytes were loaded, and their sum modulo 2^32.
#[derive(Clone, Copy, Debug, PartialEq, Eq)]
pub(crate) struct Counts {
    pub(crate) errors: u32,
    pub(crate) loaded: u64,
    pub(crate) sum: u32,
}

impl Counts {
    ghost use Rattle.pilot_top.specs.Counting.{AreOf};

    /// Before the first call.
    pub(crate) fn none() -> Counts
        ensures { AreOf result [] }
    {
        Counts {
            errors: 0,
            loaded: 0,
            sum: 0,
        }
    }

    /// Counts one reply more, where there were fewer than 2^32.
    pub(crate) fn add(&mut self, reply: &Reply)
        requires errors { self.old.errors < 2 ^ 32 - 1 }
        requires loaded { self.old.loaded < 2 ^ 63 }
        ensures more { (replies : List Reply) → AreOf self.old replies → AreOf self.new (replies ++ reply.now ∷ []) }
        ensures one { self.new.errors ≤ self.old.errors + 1 }
        ensures few { self.new.loaded ≤ self.old.loaded + 64 }
    {
        match reply {
            Reply::Refused(_) => self.errors += 1,
            Reply::Bytes(piece) => {
                let bytes = piece.as_slice();
                self.loaded += bytes.len() as u64;
                self.sum = self.sum.wrapping_add(sum_of(bytes));
            }
            _ => {}
        }
    }

    // The first words of the line.
    fn prefix(&self, calls: u32) -> ArrayVec<u8, 64>
        ensures text { result.items ≡ codes "trial calls " ++ decimal calls ++ codes " errors " ++ decimal
            self.now.errors ++ codes " loaded " }
        ensures short { length result.items ≤ 48 }
    {
        let mut line = ArrayVec::new();
        let _ = line.try_extend_from_slice(b"trial calls ");
        let _ = line.try_extend_from_slice(Buffer::new().format(calls).as_bytes());
        let _ = line.try_extend_from_slice(b" errors ");
        let _ = line.try_extend_from_slice(Buffer::new().format(self.errors).as_bytes());
        let _ = line.try_extend_from_slice(b" loaded ");
        line
    }

    /// The line about so many calls.
    pub(crate) fn line(&self, calls: u32) -> ArrayVec<u8, 96>
        ensures { (replies : List Reply) → AreOf self.now replies → result.items ≡ trial_line calls replies }
    {
        let mut line = ArrayVec::new();
        let _ = line.try_extend_from_slice(&self.prefix(calls));
        let _ = line.try_extend_from_slice(Buffer::new().format(self.loaded).as_bytes());
        let _ = line.try_extend_from_slice(b" sum ");
        let _ = line.try_extend_from_slice(Buffer::new().format(self.sum).as_bytes());
        let _ = line.try_extend_from_slice(b"\n");
        line
    }
}
