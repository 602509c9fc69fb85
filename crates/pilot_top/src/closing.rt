//! The end of a trace, and of the session that it ran in.
ghost use Rattle.std.specs.Prelude.{◌≡◌, ◌≢◌, ◌⊎◌, ◌≤◌, Some, None};
ghost use Rattle.labelled_disk.specs.Calls.{RevealsSame, Rose};
ghost use Rattle.flat_machine.specs.Machine.{Machine};
ghost use Rattle.running_words.specs.Running.{Runs};
ghost use Rattle.pilot_engine.specs.Opening.{IsUnset};
ghost use Rattle.pilot_engine.specs.Referring.{TakesCalls};
ghost use Rattle.pilot_top.specs.Ended.{AnswersEnd, EndsAs, StopsEnding, WritesEnd};
ghost use Rattle.pilot_top.specs.InitialState.{FromEachInitialState};
ghost use Rattle.pilot_top.specs.Last.{Puts};
ghost use Rattle.fault_core.specs.Core.{state};

use crate::Status;
use crate::ending::{bring, close_run};
use crate::run_disk::RunDisk;
use crate::stopping::stop;
use crate::turn::End;
use flat_machine::Reply;
use labelled_disk::Disk;
use pilot_engine::Session;
use std::alloc::Allocator;
use trace_io::{Sink, write_reply};

/// Ends the session, and hands the disk back, with the status where that failed.
pub(crate) fn close<D: Disk, A: Allocator, K: Sink>(
    session: Session<D, A>,
    sink: &mut K,
) -> (Option<Status>, D)
    requires ready { TakesCalls session }
    ensures stands { (m : Machine) → Runs session.core session.volume m
        → EndsAs m (result.0 ≡ None) (result.0 ≡ Some Status.Damaged) (state session.core).disk (D.state result.1) }
    ensures stops { StopsEnding result.0 None (FromEachInitialState session (D.state result.1))
        (state session.core).disk (D.state result.1)
        (Puts (Rose (K.faults sink.old) (K.faults sink.new)) (K.took sink.old) (K.took sink.new)) }
    ensures writes { WritesEnd session.volume.root (state session.core).slots (state session.core).disk
        (D.state result.1) }
    ensures quiet { result.0 ≡ None → sink.new ≡ sink.old }
    ensures later { K.faults sink.old ≤ K.faults sink.new }
{
    let (closed, disk) = session.finish();
    match closed {
        Ok(()) => (None, disk),
        Err(halt) => (Some(stop(halt, sink)), disk),
    }
}

/// Ends the session, unless the trace was stopped, and writes the reply to the line that ended it.
pub(crate) fn end_trace<D: RunDisk, A: Allocator, K: Sink>(
    session: Session<D, A>,
    end: End,
    sink: &mut K,
) -> (Status, D)
    requires ready { TakesCalls session }
    ensures stands { (m : Machine) → Runs session.core session.volume m
        → EndsAs m ((end ≢ End.Halt) × ((result.0 ≡ Status.Done) ⊎ (result.0 ≡ Status.StreamFault)))
        (result.0 ≡ Status.Damaged) (state session.core).disk (D.state result.1) }
    ensures answers { AnswersEnd result.0 end (D.shown result.1) (FromEachInitialState session (D.state result.1))
        (state session.core).disk (D.state result.1) (K.took sink.old) (K.took sink.new)
        (Rose (K.faults sink.old) (K.faults sink.new)) }
    ensures halted { end ≡ End.Halt → RevealsSame (state session.core).disk (D.state result.1) }
    ensures rests { result.0 ≡ Status.Done → D.rests result.1 }
    ensures left_open { IsUnset (state session.core).disk → result.0 ≡ Status.Damaged → IsUnset (D.state result.1) }
    ensures writes { WritesEnd session.volume.root (state session.core).slots (state session.core).disk
        (D.state result.1) }
    ensures later { K.faults sink.old ≤ K.faults sink.new }
{
    if end == End::Halt {
        let mut disk = session.into_disk();
        if let Some(status) = bring(&mut disk, sink) {
            return (status, disk);
        }
        return match write_reply(sink, &Reply::Done) {
            Ok(()) => (Status::Done, disk),
            Err(_) => (Status::StreamFault, disk),
        };
    }
    let (stopped, disk) = close_run(session, sink);
    if let Some(status) = stopped {
        return (status, disk);
    }
    if end != End::Trace && write_reply(sink, &Reply::Done).is_err() {
        return (Status::StreamFault, disk);
    }
    (Status::Done, disk)
}
