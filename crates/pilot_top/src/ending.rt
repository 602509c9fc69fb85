//! A run is stopped, or what waits before its disk is brought to the medium.
ghost use Rattle.std.specs.Prelude.{◌≡◌, ◌⊎◌, ◌≤◌, Some, None};
ghost use Rattle.labelled_disk.specs.declared.evidence.Evidence.{Evidence};
ghost use Rattle.labelled_disk.specs.Calls.{RevealsSame, Rose};
ghost use Rattle.flat_machine.specs.Machine.{Machine};
ghost use Rattle.swapper_kernel.specs.Goes.{Went};
ghost use Rattle.running_words.specs.Running.{Runs};
ghost use Rattle.pilot_engine.specs.Referring.{TakesCalls};
ghost use Rattle.pilot_top.specs.Ended.{EndsAs, StopsEnding, WritesEnd};
ghost use Rattle.pilot_top.specs.InitialState.{FromEachInitialState};
ghost use Rattle.pilot_top.specs.Last.{last_line, Puts};
ghost use Rattle.pilot_top.specs.RunDisk.{halt_on};
ghost use Rattle.pilot_top.specs.Stopping.{cause_of, status_of};
ghost use Rattle.fault_core.specs.Core.{state};

use crate::Status;
use crate::last::{Cause, put_last};
use crate::run_disk::RunDisk;
use crate::stopping::stop;
use labelled_disk::Halt;
use pilot_engine::Session;
use std::alloc::Allocator;
use trace_io::Sink;

/// Writes why a run stopped, and gives the status: a label that had changed comes before any other halt.
pub(crate) fn stop_on<D: RunDisk, K: Sink>(disk: &D, halt: Halt, sink: &mut K) -> Status
    ensures status { result ≡ status_of (halt_on (D.shown disk.now) halt) }
    ensures line { Puts (Rose (K.faults sink.old) (K.faults sink.new)) (K.took sink.old) (K.took sink.new)
        (last_line (cause_of (halt_on (D.shown disk.now) halt))) }
    ensures later { K.faults sink.old ≤ K.faults sink.new }
{
    match disk.changed() {
        Some(evidence) => stop(Halt::Damaged(evidence), sink),
        None => stop(halt, sink),
    }
}

/// Brings what waits to the medium before a run ends, and writes why that failed, where it did.
pub(crate) fn bring<D: RunDisk, K: Sink>(disk: &mut D, sink: &mut K) -> Option<Status>
    ensures rests { result ≡ None → D.rests disk.new }
    ensures same { RevealsSame (D.state disk.old) (D.state disk.new) }
    ensures went { Went (D.state disk.old) (D.state disk.new) }
    ensures transfers { (D.state disk.new).transfers ≡ (D.state disk.old).transfers }
    ensures quiet { result ≡ None → sink.new ≡ sink.old }
    ensures disk_fault { result ≡ Some Status.DiskFault
        → (D.shown disk.new ≡ None) × Rose (D.state disk.old).faults (D.state disk.new).faults
        × Puts (Rose (K.faults sink.old) (K.faults sink.new)) (K.took sink.old) (K.took sink.new)
        (last_line Cause.DiskFault) }
    ensures changed { result ≡ Some Status.Damaged
        → (e : Evidence) × (D.shown disk.new ≡ Some e)
        × Puts (Rose (K.faults sink.old) (K.faults sink.new)) (K.took sink.old) (K.took sink.new)
        (last_line (Cause.Damaged e)) }
    ensures ends { (result ≡ None) ⊎ (result ≡ Some Status.DiskFault) ⊎ (result ≡ Some Status.Damaged) }
    ensures later { K.faults sink.old ≤ K.faults sink.new }
{
    match disk.rest() {
        Ok(()) => None,
        Err(_) => Some(stop_on(disk, Halt::Disk, sink)),
    }
}

/// Brings what waits before the disk of a trace that is too long to the medium, and writes that last line.
pub(crate) fn end_long<D: RunDisk, K: Sink>(disk: D, sink: &mut K) -> (Status, D)
    ensures rests { result.0 ≡ Status.Long → D.rests result.1 }
    ensures same { RevealsSame (D.state disk) (D.state result.1) }
    ensures went { Went (D.state disk) (D.state result.1) }
    ensures transfers { (D.state result.1).transfers ≡ (D.state disk).transfers }
    ensures line { result.0 ≡ Status.Long
        → Puts (Rose (K.faults sink.old) (K.faults sink.new)) (K.took sink.old) (K.took sink.new)
        (last_line Cause.Long) }
    ensures disk_fault { result.0 ≡ Status.DiskFault
        → (D.shown result.1 ≡ None) × Rose (D.state disk).faults (D.state result.1).faults
        × Puts (Rose (K.faults sink.old) (K.faults sink.new)) (K.took sink.old) (K.took sink.new)
        (last_line Cause.DiskFault) }
    ensures changed { result.0 ≡ Status.Damaged
        → (e : Evidence) × (D.shown result.1 ≡ Some e)
        × Puts (Rose (K.faults sink.old) (K.faults sink.new)) (K.took sink.old) (K.took sink.new)
        (last_line (Cause.Damaged e)) }
    ensures ends { (result.0 ≡ Status.Long) ⊎ (result.0 ≡ Status.DiskFault) ⊎ (result.0 ≡ Status.Damaged) }
    ensures later { K.faults sink.old ≤ K.faults sink.new }
{
    let mut disk = disk;
    if let Some(status) = bring(&mut disk, sink) {
        return (status, disk);
    }
    put_last(sink, Cause::Long);
    (Status::Long, disk)
}

/// Ends the session of a run, and hands the disk back, with the status where that failed.
pub(crate) fn close_run<D: RunDisk, A: Allocator, K: Sink>(
    session: Session<D, A>,
    sink: &mut K,
) -> (Option<Status>, D)
    requires ready { TakesCalls session }
    ensures stands { (m : Machine) → Runs session.core session.volume m
        → EndsAs m (result.0 ≡ None) (result.0 ≡ Some Status.Damaged) (state session.core).disk (D.state result.1) }
    ensures rests { result.0 ≡ None → D.rests result.1 }
    ensures stops { StopsEnding result.0 (D.shown result.1) (FromEachInitialState session (D.state result.1))
        (state session.core).disk (D.state result.1)
        (Puts (Rose (K.faults sink.old) (K.faults sink.new)) (K.took sink.old) (K.took sink.new)) }
    ensures writes { WritesEnd session.volume.root (state session.core).slots (state session.core).disk
        (D.state result.1) }
    ensures quiet { result.0 ≡ None → sink.new ≡ sink.old }
    ensures later { K.faults sink.old ≤ K.faults sink.new }
{
    let (closed, disk) = session.finish();
    match closed {
        Ok(()) => (None, disk),
        Err(halt) => {
            let status = stop_on(&disk, halt, sink);
            (Some(status), disk)
        }
    }
}
