//! Bytes from a source, as many as there is room for.
ghost use Rattle.std.specs.Prelude.{◌≡◌, ◌≤◌, ◌<◌, length, take, IfOk, Ok};
ghost use Rattle.std.specs.Io.KnownBytes.{Consumes, IsAtEnd};
ghost use Rattle.trace_io.specs.Stream.{HasCause};

use trace_io::{Source, SourceFault};

// Of the bytes at hand those before the next of this value are taken at once.
const STOP: u8 = 255;

// Takes a byte, and those at hand after it. None is taken at the end.
fn take_some<S: Source>(source: &mut S, room: &mut [u8]) -> Result<usize, SourceFault>
    requires { 1 ≤ length room.old }
    ensures within { IfOk result (λ n. n ≤ length room.old) }
    ensures bytes { IfOk result (λ n. Consumes (S.left source.old) (S.left source.new) (take n room.new)) }
    ensures end { result ≡ Ok 0 → IsAtEnd (S.left source.new) }
    ensures width { length room.new ≡ length room.old }
    ensures cause { HasCause (S.faults source.old) (S.faults source.new) result }
{
    let first = match source.next() {
        Ok(Some(first)) => first,
        Ok(None) => return Ok(0),
        Err(fault) => return Err(fault),
    };
    room[0] = first;
    Ok(1 + source.take_before(STOP, &mut room[1..]))
}

/// Takes bytes until the room is full or the source has ended, and says how many.
pub(crate) fn fill<S: Source>(source: &mut S, room: &mut [u8]) -> Result<usize, SourceFault>
    ensures within { IfOk result (λ n. n ≤ length room.old) }
    ensures bytes { IfOk result (λ n. Consumes (S.left source.old) (S.left source.new) (take n room.new)) }
    ensures end { IfOk result (λ n. n < length room.old → IsAtEnd (S.left source.new)) }
    ensures width { length room.new ≡ length room.old }
    ensures cause { HasCause (S.faults source.old) (S.faults source.new) result }
{
    let mut done = 0;
    'turns: while done < room.len() {
        match take_some(source, &mut room[done..]) {
            Ok(0) => return Ok(done),
            Ok(count) => done += count,
            Err(fault) => return Err(fault),
        }
    }
    Ok(done)
}
