//! The command `processes`: a session is started, the events of its clients are answered, and the session is ended.
ghost use Rattle.std.specs.Prelude.{◌≡◌, ◌≢◌, ◌≤◌, List, String};
ghost use Rattle.std.specs.declared.alloc.Global.{Global};
ghost use Rattle.command_words.specs.Meaning.{Means};
ghost use Rattle.command_words.specs.declared.words.Command.TheVariants as command;
ghost use Rattle.labelled_disk.specs.Calls.{Rose};
ghost use Rattle.swapper_kernel.specs.Goes.{Went};
ghost use Rattle.volume_root.specs.Flag.{IsRefused};
ghost use Rattle.pilot_top.specs.Causes.{HasReason, TakesNothing};
ghost use Rattle.pilot_top.specs.Last.{Puts};
ghost use Rattle.pilot_top.specs.Processing.{IsShortText, Processed};
ghost use Rattle.pilot_top.specs.Started.{HasCauses, LeavesStreams, Refuses};
ghost use Rattle.pilot_top.specs.World.{world};

use crate::Status;
use crate::clients::answer_clients;
use crate::stopping::refuse;
use labelled_disk::Disk;
use pilot_engine::Session;
use std::alloc::Allocator;
use trace_io::{Sink, Source};

// Starts a session on the volume of a disk, with so many frames, answers the events of its clients, ends the session,
// and hands the disk back.
fn process<A: Allocator, D: Disk, S: Source, K: Sink>(
    alloc: A,
    frames: u32,
    disk: D,
    source: &mut S,
    sink: &mut K,
) -> (Status, D)
    requires least { 24 ≤ frames }
    requires most { frames ≤ 4096 }
    // What it does, and why it ended so.
    ensures processed { Processed result.0
        (world (D.state disk) (S.left source.old) (S.faults source.old) (K.took sink.old) (K.faults sink.old))
        (world (D.state result.1) (S.left source.new) (S.faults source.new) (K.took sink.new) (K.faults sink.new)) }
    ensures causes { HasCauses IsShortText result.0
        (world (D.state disk) (S.left source.old) (S.faults source.old) (K.took sink.old) (K.faults sink.old))
        (world (D.state result.1) (S.left source.new) (S.faults source.new) (K.took sink.new) (K.faults sink.new)) }

    // The volume can't be opened, or there is no memory.
    ensures refuses { Refuses IsRefused result.0 (D.state disk) (D.state result.1)
        (Puts (Rose (K.faults sink.old) (K.faults sink.new)) (K.took sink.old) (K.took sink.new)) }
    ensures leaves { LeavesStreams result.0 (D.state disk).contents (source.new ≡ source.old) (sink.new ≡ sink.old) }

    ensures same_disk { Went (D.state disk) (D.state result.1) }
{
    match Session::over(alloc, disk, frames) {
        Ok(session) => answer_clients(session, source, sink),
        Err((fault, disk)) => (refuse(fault, sink), disk),
    }
}

/// Answers the events of clients on the volume of a disk that is lent, with so many frames.
pub(crate) fn process_on<A: Allocator, D: Disk, S: Source, K: Sink>(
    alloc: A,
    frames: u32,
    disk: &mut D,
    source: &mut S,
    sink: &mut K,
) -> Status
    requires least { 24 ≤ frames }
    requires most { frames ≤ 4096 }
    ensures processed { Processed result
        (world (D.state disk.old) (S.left source.old) (S.faults source.old) (K.took sink.old) (K.faults sink.old))
        (world (D.state disk.new) (S.left source.new) (S.faults source.new) (K.took sink.new) (K.faults sink.new)) }
    ensures cause { (words : List (String Global)) → Means words (command.Processes frames) → HasReason words result
        (world (D.state disk.old) (S.left source.old) (S.faults source.old) (K.took sink.old) (K.faults sink.old))
        (world (D.state disk.new) (S.left source.new) (S.faults source.new) (K.took sink.new) (K.faults sink.new)) }
    ensures keeps_source { (words : List (String Global)) → Means words (command.Processes frames)
        → TakesNothing words result
        (world (D.state disk.old) (S.left source.old) (S.faults source.old) (K.took sink.old) (K.faults sink.old))
        → source.new ≡ source.old }
    ensures understood { result ≢ Status.Usage }
    ensures keeps_sink { result ≡ Status.NoMemory → sink.new ≡ sink.old }
{
    let (status, _disk) = process(alloc, frames, disk, source, sink);
    status
}
