//! The lines of a trace, one after another.
ghost use Rattle.std.specs.Prelude.{◌≡◌, ◌≤◌, Some, None, IfSome};
ghost use Rattle.trace_io.specs.Stream.{Rose};
ghost use Rattle.trace_io.specs.Form.{GivesForm};
ghost use Rattle.trace_io.specs.Lines.{TakesNext, answer_of};

use crate::progress::{Line, Stop};
use crate::reader::LineReader;
use crate::{Source, calls};
use std::marker::Model;

/// Reads a trace line by line, and takes at most as many bytes as its limit. Lines end with a line
/// feed; what stands after the last line feed is a line too, where it has a byte.
#[derive(Drop)]
pub struct Lines {
    reader: LineReader,
}

impl Model for Lines {
    ghost use Rattle.std.specs.Prelude.{◌≤◌};
    ghost use Rattle.trace_io.specs.Progress.{Progress};
    ghost use Rattle.trace_io.specs.Held.{progress_of};

    ghost Value = { Progress };

    ghost view = { λ l. progress_of l.reader };

    ghost invariant = { λ l. l.reader.taken ≤ l.reader.limit };
}

// What is answered where no more lines come.
fn answer(why: Stop) -> Line
    ensures { result ≡ answer_of why }
{
    match why {
        Stop::End => Line::End,
        Stop::ReadFault => Line::ReadFault,
        Stop::Long => Line::Long,
    }
}

impl Lines {
    /// No line is read yet, and at most that many bytes will be taken.
    pub fn with_limit(limit: u64) -> Lines
        ensures { result ≡ record { taken = 0; limit = limit; stopped = None } }
    {
        Lines {
            reader: LineReader::with_limit(limit),
        }
    }

    /// The bytes taken so far.
    pub fn taken(&self) -> u64
        ensures { result ≡ self.now.taken }
    {
        self.reader.taken()
    }

    /// Takes the bytes of the next line and its line feed, or those up to the source's end, and
    /// gives the call that the line says. The bytes of a line that is no call are taken too,
    /// however long it is. After `End`, `ReadFault` and `Long` the answer is the same again, and
    /// nothing is taken. A line that ends the session is a call like any other: what follows it
    /// stays, unless this is called again.
    pub fn next<S: Source>(&mut self, source: &mut S) -> Line
        // Which line it is, or why none comes, and what was taken.
        ensures next { self.old.stopped ≡ None
            → TakesNext result (S.left source.old) (S.left source.new) self.old self.new }
        ensures again { IfSome self.old.stopped (λ why. (result ≡ answer_of why)
            × (self.new ≡ self.old) × (source.new ≡ source.old)) }
        // Each call that it gives is in form.
        ensures form { self.old.stopped ≡ None → GivesForm result }
        ensures bound { self.new.taken ≤ self.new.limit }
        ensures faults { S.faults source.old ≤ S.faults source.new }
        ensures fault { self.old.stopped ≡ None → result ≡ Line.ReadFault
            → Rose (S.faults source.old) (S.faults source.new) }
    {
        let size = match self.reader.next(source) {
            Ok(Some(size)) => size,
            Ok(None) => return Line::Bad,
            Err(why) => return answer(why),
        };
        calls::line_of(self.reader.line(size))
    }
}
