//! The bytes of one line, taken from a source.
ghost use Rattle.std.specs.Prelude.{◌≡◌, ◌≤◌};
ghost use Rattle.trace_io.specs.Stream.{Rose};
ghost use Rattle.trace_io.specs.Scan.{Scans, TakesPrefix};

use crate::Source;

/// A longer line says nothing.
pub(crate) const LINE: usize = 255;

// How a line ended: at its line feed, at the source's end, by a fault, or where there was no more
// room.
#[derive(Clone, Copy)]
pub(crate) enum Ending {
    Feed,
    Source,
    Fault,
    Room,
}

#[derive(Clone, Copy)]
pub(crate) struct Scan {
    pub(crate) size: u64,
    pub(crate) end: Ending,
}

// Takes the prefix of a line that is at hand, but no more than the buffer and the room have space
// for, and gives its length.
fn take_prefix<S: Source>(source: &mut S, buffer: &mut [u8; LINE], room: u64) -> u64
    ensures prefix { TakesPrefix (S.left source.old) (S.left source.new) buffer.new result }
    ensures within { result ≤ room }
    ensures faults { S.faults source.new ≡ S.faults source.old }
{
    let most = room.min(LINE as u64) as usize;
    source.take_before(b'\n', &mut buffer[..most]) as u64
}

// Takes bytes to the next line feed, but no more than there is room for, and keeps the prefix of
// them.
pub(crate) fn take_line<S: Source>(source: &mut S, buffer: &mut [u8; LINE], room: u64) -> Scan
    ensures scan { Scans (S.left source.old) (S.left source.new) buffer.new room result }
    ensures faults { S.faults source.old ≤ S.faults source.new }
    ensures fault { result.end ≡ Ending.Fault → Rose (S.faults source.old) (S.faults source.new) }
{
    let prefix = take_prefix(source, buffer, room);
    for size in prefix..room {
        let Ok(got) = source.next() else {
            return Scan {
                size,
                end: Ending::Fault,
            };
        };
        let byte = match got {
            Some(byte) => byte,
            None => {
                return Scan {
                    size,
                    end: Ending::Source,
                };
            }
        };
        if byte == b'\n' {
            return Scan {
                size,
                end: Ending::Feed,
            };
        }
        if size < LINE as u64 {
            buffer[size as usize] = byte;
        }
    }
    Scan {
        size: room,
        end: Ending::Room,
    }
}
