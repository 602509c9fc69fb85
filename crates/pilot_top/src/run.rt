//! A run: a session is started, a trace is answered line by line, and the session is ended.
ghost use Rattle.std.specs.Prelude.{◌≡◌, ◌≢◌, ◌⊎◌, ◌^◌, ◌≤◌, None};
ghost use Rattle.labelled_disk.specs.Calls.{Rose};
ghost use Rattle.swapper_kernel.specs.Goes.{Went};
ghost use Rattle.trace_io.specs.Reading.{IsShort};
ghost use Rattle.volume_root.specs.Flag.{IsRefused};
ghost use Rattle.running_words.specs.Running.{Runs};
ghost use Rattle.pilot_engine.specs.Referring.{TakesCalls};
ghost use Rattle.pilot_top.specs.InitialState.{FromEachInitialState};
ghost use Rattle.pilot_top.specs.Last.{Puts};
ghost use Rattle.pilot_top.specs.Lines.{AnswersLines, LeavesDisk, PutsChange, WritesLines, session_disk};
ghost use Rattle.pilot_top.specs.Running.{Ran};
ghost use Rattle.pilot_top.specs.Sparing.{Hides};
ghost use Rattle.pilot_top.specs.Started.{HasCauses, LeavesStreams, Refuses};
ghost use Rattle.pilot_top.specs.World.{world};
ghost use Rattle.fault_core.specs.Core.{state};

use crate::Status;
use crate::closing::end_trace;
use crate::ending::{end_long, stop_on};
use crate::run_disk::RunDisk;
use crate::stopping::refuse;
use crate::turn::{Turn, take_turn};
use pilot_engine::Session;
use std::alloc::Allocator;
use trace_io::{Lines, Sink, Source, write_reply};

// The most bytes of a trace that are read.
const LIMIT: u64 = 1 << 32;

// Reads a trace, and writes a reply to each line, in a session that was started.
pub(crate) fn answer_lines<D: RunDisk, A: Allocator, S: Source, K: Sink>(
    session: Session<D, A>,
    source: &mut S,
    sink: &mut K,
) -> (Status, D)
    requires ready { TakesCalls session }
    // What was answered, and what the disk has.
    ensures answers { AnswersLines result.0 (Runs session.core session.volume) (D.shown result.1)
        (FromEachInitialState session (D.state result.1))
        (world (session_disk session) (S.left source.old) (S.faults source.old) (K.took sink.old) (K.faults sink.old))
        (world (D.state result.1) (S.left source.new) (S.faults source.new) (K.took sink.new) (K.faults sink.new)) }
    ensures changes { PutsChange result.0 (D.shown result.1) (S.left source.old) (K.took sink.old) (K.took sink.new)
        (Rose (K.faults sink.old) (K.faults sink.new)) }
    ensures leaves { LeavesDisk result.0 (Runs session.core session.volume)
        (world (session_disk session) (S.left source.old) (S.faults source.old) (K.took sink.old) (K.faults sink.old))
        (world (D.state result.1) (S.left source.new) (S.faults source.new) (K.took sink.new) (K.faults sink.new)) }
    ensures writes { WritesLines result.0 (Runs session.core session.volume) session.volume.root
        (state session.core).slots (Hides session)
        (world (session_disk session) (S.left source.old) (S.faults source.old) (K.took sink.old) (K.faults sink.old))
        (world (D.state result.1) (S.left source.new) (S.faults source.new) (K.took sink.new) (K.faults sink.new)) }
    ensures rests { (result.0 ≡ Status.Done) ⊎ (result.0 ≡ Status.Long) → D.rests result.1 }

    // Why it ended so.
    ensures causes { HasCauses (IsShort (2 ^ 32)) result.0
        (world (session_disk session) (S.left source.old) (S.faults source.old) (K.took sink.old) (K.faults sink.old))
        (world (D.state result.1) (S.left source.new) (S.faults source.new) (K.took sink.new) (K.faults sink.new)) }
    ensures plain { result.0 ≡ Status.DiskFault → D.shown result.1 ≡ None }
    ensures began { result.0 ≢ Status.NotOpened × result.0 ≢ Status.NoMemory }
{
    let mut session = session;
    let mut lines = Lines::with_limit(LIMIT);
    'turns: loop {
        match take_turn(&mut session, &mut lines, source) {
            Turn::Replies(reply) => {
                let Ok(()) = write_reply(sink, &reply) else {
                    return (Status::StreamFault, session.into_disk());
                };
            }
            Turn::Ends(end) => return end_trace(session, end, sink),
            Turn::ReadFault => return (Status::StreamFault, session.into_disk()),
            Turn::Halts(halt) => {
                let disk = session.into_disk();
                let status = stop_on(&disk, halt, sink);
                return (status, disk);
            }
            Turn::Long => return end_long(session.into_disk(), sink),
        }
    }
}

/// Starts a session on the volume of a disk, with so many frames, carries out a trace, ends the session, and hands the
/// disk back.
pub(crate) fn run<A: Allocator, D: RunDisk, S: Source, K: Sink>(
    alloc: A,
    frames: u32,
    disk: D,
    source: &mut S,
    sink: &mut K,
) -> (Status, D)
    requires least { 24 ≤ frames }
    requires most { frames ≤ 4096 }
    requires plain { (e : D) → D.shown e ≡ None }
    // What it does, and why it ended so.
    ensures ran { Ran result.0
        (world (D.state disk) (S.left source.old) (S.faults source.old) (K.took sink.old) (K.faults sink.old))
        (world (D.state result.1) (S.left source.new) (S.faults source.new) (K.took sink.new) (K.faults sink.new)) }
    ensures causes { HasCauses (IsShort (2 ^ 32)) result.0
        (world (D.state disk) (S.left source.old) (S.faults source.old) (K.took sink.old) (K.faults sink.old))
        (world (D.state result.1) (S.left source.new) (S.faults source.new) (K.took sink.new) (K.faults sink.new)) }

    // The volume can't be opened, or there is no memory.
    ensures refuses { Refuses IsRefused result.0 (D.state disk) (D.state result.1)
        (Puts (Rose (K.faults sink.old) (K.faults sink.new)) (K.took sink.old) (K.took sink.new)) }
    ensures leaves { LeavesStreams result.0 (D.state disk).contents (source.new ≡ source.old) (sink.new ≡ sink.old) }

    ensures same_disk { Went (D.state disk) (D.state result.1) }
{
    match Session::over(alloc, disk, frames) {
        Ok(session) => answer_lines(session, source, sink),
        Err((fault, disk)) => (refuse(fault, sink), disk),
    }
}
