//! The events of clients that share a session, one after another.
ghost use Rattle.std.specs.Prelude.{◌≡◌, ◌≤◌, Some, None, IfSome};
ghost use Rattle.trace_io.specs.Stream.{Rose};
ghost use Rattle.trace_io.specs.Events.{TakesNextEvent, GivesEventForm, event_after};

use crate::event::{Event, event_in};
use crate::reader::LineReader;
use crate::{Source, Stop};
use std::marker::Model;

/// Reads events line by line, and takes at most as many bytes as its limit. Lines end with a line
/// feed; what stands after the last line feed is a line too, where it has a byte.
#[derive(Drop)]
pub struct Events {
    reader: LineReader,
}

impl Model for Events {
    ghost use Rattle.std.specs.Prelude.{◌≤◌};
    ghost use Rattle.trace_io.specs.Progress.{Progress};
    ghost use Rattle.trace_io.specs.Held.{progress_of};

    ghost Value = { Progress };

    ghost view = { λ e. progress_of e.reader };

    ghost invariant = { λ e. e.reader.taken ≤ e.reader.limit };
}

// What is answered where no more lines come.
fn answer(why: Stop) -> Event
    ensures { result ≡ event_after why }
{
    match why {
        Stop::End => Event::End,
        Stop::ReadFault => Event::ReadFault,
        Stop::Long => Event::Long,
    }
}

impl Events {
    /// No line is read yet, and at most that many bytes will be taken.
    pub fn with_limit(limit: u64) -> Events
        ensures { result ≡ record { taken = 0; limit = limit; stopped = None } }
    {
        Events {
            reader: LineReader::with_limit(limit),
        }
    }

    /// The bytes taken so far.
    pub fn taken(&self) -> u64
        ensures { result ≡ self.now.taken }
    {
        self.reader.taken()
    }

    /// Takes the bytes of the next line and its line feed, or those up to the source's end, and
    /// gives the event that the line says. The bytes of a line that is no event are taken too,
    /// however long it is. After `End`, `ReadFault` and `Long` the answer is the same again, and
    /// nothing is taken. What follows `Close` or `Halt` stays, unless this is called again.
    pub fn next<S: Source>(&mut self, source: &mut S) -> Event
        // Which event it is, or why none comes, and what was taken.
        ensures next { self.old.stopped ≡ None
            → TakesNextEvent result (S.left source.old) (S.left source.new) self.old self.new }
        ensures again { IfSome self.old.stopped (λ why. (result ≡ event_after why)
            × (self.new ≡ self.old) × (source.new ≡ source.old)) }
        // Who asks is a client, and the call is in form and ends no session.
        ensures form { self.old.stopped ≡ None → GivesEventForm result }
        ensures bound { self.new.taken ≤ self.new.limit }
        ensures faults { S.faults source.old ≤ S.faults source.new }
        ensures fault { self.old.stopped ≡ None → result ≡ Event.ReadFault
            → Rose (S.faults source.old) (S.faults source.new) }
    {
        let size = match self.reader.next(source) {
            Ok(Some(size)) => size,
            Ok(None) => return Event::Bad,
            Err(why) => return answer(why),
        };
        event_in(self.reader.line(size))
    }
}
