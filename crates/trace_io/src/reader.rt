//! A source that is read line by line, whatever its lines say.
ghost use Rattle.std.specs.Prelude.{◌≡◌, ◌≤◌, ◌+◌, take, None, Err, IfOk, IfSome};
ghost use Rattle.trace_io.specs.Stream.{Rose};
ghost use Rattle.trace_io.specs.Held.{Holds, held_size, progress_of};

use crate::scan::{Ending, LINE, take_line};
use crate::{Source, Stop};

/// Takes one line after another, at most as many bytes as its limit, and holds the line. Lines end
/// with a line feed; what stands after the last line feed is a line too, where it has a byte.
#[derive(Drop)]
pub(crate) struct LineReader {
    buffer: [u8; LINE],
    taken: u64,
    limit: u64,
    stopped: Option<Stop>,
}

// How much of a line of this size is held: all of it, or nothing of use.
fn held(size: u64) -> Option<usize>
    ensures { result ≡ held_size size }
{
    if size > LINE as u64 {
        return None;
    }
    Some(size as usize)
}

impl LineReader {
    // No line is read yet, and at most that many bytes will be taken.
    pub(crate) fn with_limit(limit: u64) -> LineReader
        ensures { progress_of result ≡ record { taken = 0; limit = limit; stopped = None } }
    {
        LineReader {
            buffer: [0; LINE],
            taken: 0,
            limit,
            stopped: None,
        }
    }

    // The bytes taken so far.
    pub(crate) fn taken(&self) -> u64
        ensures { result ≡ self.now.taken }
    {
        self.taken
    }

    // The line that is held, of that size.
    pub(crate) fn line(&self, size: usize) -> &[u8]
        requires { size ≤ 255 }
        ensures { result.now ≡ take size self.now.buffer }
    {
        &self.buffer[..size]
    }

    // So many bytes more were taken, and the reading goes on or is stopped.
    fn advance(&mut self, bytes: u64, stopped: Option<Stop>)
        requires { self.old.taken + bytes ≤ self.old.limit }
        ensures progress { progress_of self.new
            ≡ record { taken = self.old.taken + bytes; limit = self.old.limit; stopped = stopped } }
        ensures buffer { self.new.buffer ≡ self.old.buffer }
    {
        self.taken += bytes;
        self.stopped = stopped;
    }

    // Takes the bytes of the next line and its line feed, or those up to the source's end, and
    // gives the size of the line that is held. The bytes of a line that is too long to be held are
    // taken too, however long it is. Where no line came, the answer is the same again, and nothing
    // is taken.
    pub(crate) fn next<S: Source>(&mut self, source: &mut S) -> Result<Option<usize>, Stop>
        requires { self.old.taken ≤ self.old.limit }
        // Which line it is, or why none comes, and what was taken.
        ensures next { self.old.stopped ≡ None → Holds result self.new.buffer
            (S.left source.old) (S.left source.new) (progress_of self.old) (progress_of self.new) }
        ensures again { IfSome self.old.stopped (λ why. (result ≡ Err why)
            × (progress_of self.new ≡ progress_of self.old) × (source.new ≡ source.old)) }
        ensures size { IfOk result (λ held. IfSome held (λ size. size ≤ 255)) }
        ensures bound { self.new.taken ≤ self.new.limit }
        ensures faults { S.faults source.old ≤ S.faults source.new }
        ensures fault { self.old.stopped ≡ None → result ≡ Err Stop.ReadFault
            → Rose (S.faults source.old) (S.faults source.new) }
    {
        if let Some(why) = self.stopped {
            return Err(why);
        }
        let room = self.limit - self.taken;
        let scan = take_line(source, &mut self.buffer, room);
        match scan.end {
            Ending::Feed => {
                self.advance(scan.size + 1, None);
                Ok(held(scan.size))
            }
            Ending::Source => {
                self.advance(scan.size, Some(Stop::End));
                if scan.size == 0 {
                    return Err(Stop::End);
                }
                Ok(held(scan.size))
            }
            Ending::Fault => {
                self.advance(scan.size, Some(Stop::ReadFault));
                Err(Stop::ReadFault)
            }
            Ending::Room => {
                self.advance(scan.size, Some(Stop::Long));
                Err(Stop::Long)
            }
        }
    }
}
