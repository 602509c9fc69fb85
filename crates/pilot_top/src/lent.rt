//! A run on a disk that is lent, with a queue and without one.
ghost use Rattle.std.specs.Prelude.{◌≡◌, ◌≢◌, ◌≤◌, List, String};
ghost use Rattle.std.specs.declared.alloc.Global.{Global};
ghost use Rattle.command_words.specs.Meaning.{Means};
ghost use Rattle.command_words.specs.declared.words.Command.TheVariants as command;
ghost use Rattle.pilot_top.specs.Causes.{HasReason, TakesNothing};
ghost use Rattle.pilot_top.specs.Queued.{RanQueued};
ghost use Rattle.pilot_top.specs.Running.{Ran};
ghost use Rattle.pilot_top.specs.World.{world};

use crate::Status;
use crate::queued::run_queued;
use crate::run::run;
use labelled_disk::Disk;
use std::alloc::Allocator;
use trace_io::{Sink, Source};

/// Carries a trace out on the volume of a disk, with so many frames.
pub(crate) fn run_on<A: Allocator, D: Disk, S: Source, K: Sink>(
    alloc: A,
    frames: u32,
    disk: &mut D,
    source: &mut S,
    sink: &mut K,
) -> Status
    requires least { 24 ≤ frames }
    requires most { frames ≤ 4096 }
    ensures ran { Ran result
        (world (D.state disk.old) (S.left source.old) (S.faults source.old) (K.took sink.old) (K.faults sink.old))
        (world (D.state disk.new) (S.left source.new) (S.faults source.new) (K.took sink.new) (K.faults sink.new)) }
    ensures cause { (words : List (String Global)) → Means words (command.Run frames 0) → HasReason words result
        (world (D.state disk.old) (S.left source.old) (S.faults source.old) (K.took sink.old) (K.faults sink.old))
        (world (D.state disk.new) (S.left source.new) (S.faults source.new) (K.took sink.new) (K.faults sink.new)) }
    ensures keeps_source { (words : List (String Global)) → Means words (command.Run frames 0)
        → TakesNothing words result
        (world (D.state disk.old) (S.left source.old) (S.faults source.old) (K.took sink.old) (K.faults sink.old))
        → source.new ≡ source.old }
    ensures understood { result ≢ Status.Usage }
    ensures keeps_sink { result ≡ Status.NoMemory → sink.new ≡ sink.old }
{
    let (status, _disk) = run(alloc, frames, disk, source, sink);
    status
}

/// The same, where up to so many pages wait before the disk.
pub(crate) fn run_queued_on<A: Allocator + Clone, D: Disk, S: Source, K: Sink>(
    alloc: A,
    frames: u32,
    room: u32,
    disk: &mut D,
    source: &mut S,
    sink: &mut K,
) -> Status
    requires least { 24 ≤ frames }
    requires most { frames ≤ 4096 }
    requires some_room { 1 ≤ room }
    requires most_room { room ≤ 256 }
    ensures ran { RanQueued result
        (world (D.state disk.old) (S.left source.old) (S.faults source.old) (K.took sink.old) (K.faults sink.old))
        (world (D.state disk.new) (S.left source.new) (S.faults source.new) (K.took sink.new) (K.faults sink.new)) }
    ensures cause { (words : List (String Global)) → Means words (command.Run frames room) → HasReason words result
        (world (D.state disk.old) (S.left source.old) (S.faults source.old) (K.took sink.old) (K.faults sink.old))
        (world (D.state disk.new) (S.left source.new) (S.faults source.new) (K.took sink.new) (K.faults sink.new)) }
    ensures keeps_source { (words : List (String Global)) → Means words (command.Run frames room)
        → TakesNothing words result
        (world (D.state disk.old) (S.left source.old) (S.faults source.old) (K.took sink.old) (K.faults sink.old))
        → source.new ≡ source.old }
    ensures understood { result ≢ Status.Usage }
    ensures keeps_sink { result ≡ Status.NoMemory → sink.new ≡ sink.old }
{
    let (status, _disk) = run_queued(alloc, frames, room, disk, source, sink);
    status
}
