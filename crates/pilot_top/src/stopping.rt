//! The status and the last line of a session that stopped, or that did not start.
ghost use Rattle.std.specs.Prelude.{◌≡◌, ◌≤◌};
ghost use Rattle.labelled_disk.specs.Calls.{Rose};
ghost use Rattle.labelled_disk.specs.declared.evidence.Halt.TheVariants as halt;
ghost use Rattle.pilot_engine.specs.declared.fault.StartFault.TheVariants as start_fault;
ghost use Rattle.pilot_top.specs.Last.{last_line, Puts};
ghost use Rattle.pilot_top.specs.Stopping.{status_of, cause_of, StopsAs};

use crate::Status;
use crate::last::{Cause, put_last};
use labelled_disk::{Halt, RootFault};
use pilot_engine::StartFault;
use trace_io::Sink;

/// Writes why a session stopped, and gives the status.
pub(crate) fn stop<K: Sink>(halt: Halt, sink: &mut K) -> Status
    ensures status { result ≡ status_of halt }
    ensures line { Puts (Rose (K.faults sink.old) (K.faults sink.new)) (K.took sink.old) (K.took sink.new)
        (last_line (cause_of halt)) }
    ensures later { K.faults sink.old ≤ K.faults sink.new }
{
    match halt {
        Halt::Disk => {
            put_last(sink, Cause::DiskFault);
            Status::DiskFault
        }
        Halt::Damaged(evidence) => {
            put_last(sink, Cause::Damaged(evidence));
            Status::Damaged
        }
    }
}

/// Writes why no session started, unless there was no memory, and gives the status.
pub(crate) fn refuse<K: Sink>(fault: StartFault, sink: &mut K) -> Status
    ensures stops { StopsAs fault result sink.old sink.new
        (Puts (Rose (K.faults sink.old) (K.faults sink.new)) (K.took sink.old) (K.took sink.new)) }
    ensures later { K.faults sink.old ≤ K.faults sink.new }
{
    match fault {
        StartFault::Root(why) => match why {
            RootFault::Disk => {
                put_last(sink, Cause::DiskFault);
                Status::DiskFault
            }
            _ => {
                put_last(sink, Cause::Root(why));
                Status::NotOpened
            }
        },
        StartFault::NoMemory => Status::NoMemory,
        StartFault::Halt(halt) => stop(halt, sink),
    }
}
