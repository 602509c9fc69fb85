//! The lines for a pair of volumes, one after another.
ghost use Rattle.std.specs.Prelude.{◌≡◌, ◌≤◌, Some, None, IfSome};
ghost use Rattle.trace_io.specs.Stream.{Rose};
ghost use Rattle.trace_io.specs.PairLines.{TakesNextPair, pair_line_after};

use crate::pair_line::{PairLine, pair_line_in};
use crate::reader::LineReader;
use crate::{Source, Stop};
use std::marker::Model;

/// Reads what is asked of a pair line by line, and takes at most as many bytes as its limit. Lines
/// end with a line feed; what stands after the last line feed is a line too, where it has a byte.
#[derive(Drop)]
pub struct PairLines {
    reader: LineReader,
}

impl Model for PairLines {
    ghost use Rattle.std.specs.Prelude.{◌≤◌};
    ghost use Rattle.trace_io.specs.Progress.{Progress};
    ghost use Rattle.trace_io.specs.Held.{progress_of};

    ghost Value = { Progress };

    ghost view = { λ p. progress_of p.reader };

    ghost invariant = { λ p. p.reader.taken ≤ p.reader.limit };
}

// What is answered where no more lines come.
fn answer(why: Stop) -> PairLine
    ensures { result ≡ pair_line_after why }
{
    match why {
        Stop::End => PairLine::End,
        Stop::ReadFault => PairLine::ReadFault,
        Stop::Long => PairLine::Long,
    }
}

impl PairLines {
    /// No line is read yet, and at most that many bytes will be taken.
    pub fn with_limit(limit: u64) -> PairLines
        ensures { result ≡ record { taken = 0; limit = limit; stopped = None } }
    {
        PairLines {
            reader: LineReader::with_limit(limit),
        }
    }

    /// The bytes taken so far.
    pub fn taken(&self) -> u64
        ensures { result ≡ self.now.taken }
    {
        self.reader.taken()
    }

    /// Takes the bytes of the next line and its line feed, or those up to the source's end, and
    /// gives what the line says. The bytes of a line that is bad are taken too, however long it is.
    /// After `End`, `ReadFault` and `Long` the answer is the same again, and nothing is taken. What
    /// follows `Close` stays, unless this is called again.
    pub fn next<S: Source>(&mut self, source: &mut S) -> PairLine
        // Which line it is, or why none comes, and what was taken.
        ensures next { self.old.stopped ≡ None
            → TakesNextPair result (S.left source.old) (S.left source.new) self.old self.new }
        ensures again { IfSome self.old.stopped (λ why. (result ≡ pair_line_after why)
            × (self.new ≡ self.old) × (source.new ≡ source.old)) }
        ensures bound { self.new.taken ≤ self.new.limit }
        ensures faults { S.faults source.old ≤ S.faults source.new }
        ensures fault { self.old.stopped ≡ None → result ≡ PairLine.ReadFault
            → Rose (S.faults source.old) (S.faults source.new) }
    {
        let size = match self.reader.next(source) {
            Ok(Some(size)) => size,
            Ok(None) => return PairLine::Bad,
            Err(why) => return answer(why),
        };
        pair_line_in(self.reader.line(size))
    }
}
