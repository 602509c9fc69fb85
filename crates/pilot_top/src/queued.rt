//! A run with a queue: pages wait before the disk, and are written in ascending sweeps.
ghost use Rattle.std.specs.Prelude.{◌≡◌, ◌⊎◌, ◌^◌, ◌≤◌, List, Some};
ghost use Rattle.labelled_disk.specs.Calls.{Rose};
ghost use Rattle.labelled_disk.specs.Root.{root_page};
ghost use Rattle.labelled_disk.specs.Sectors.{Sector};
ghost use Rattle.swapper_kernel.specs.Goes.{Went};
ghost use Rattle.trace_io.specs.Reading.{IsShort};
ghost use Rattle.volume_root.specs.Flag.{IsRefused};
ghost use Rattle.volume_root.specs.RootPage.{IsValidRoot, root_in};
ghost use Rattle.pilot_top.specs.Last.{Puts};
ghost use Rattle.pilot_top.specs.Lines.{PutsChange};
ghost use Rattle.pilot_top.specs.Queued.{RanQueued};
ghost use Rattle.pilot_top.specs.Rooted.{RanRooted};
ghost use Rattle.pilot_top.specs.RunDisk.{fault_on};
ghost use Rattle.pilot_top.specs.Started.{HasCauses, LeavesStreams, Refuses};
ghost use Rattle.pilot_top.specs.Stopping.{StopsAs};
ghost use Rattle.pilot_top.specs.World.{world};

use crate::Status;
use crate::ending::stop_on;
use crate::run::answer_lines;
use crate::run_disk::RunDisk;
use crate::stopping::refuse;
use labelled_disk::Disk;
use pilot_engine::{Session, StartFault};
use std::alloc::Allocator;
use trace_io::{Sink, Source};
use volume_root::{Root, read_root};
use write_queue::RunQueue;

// Writes why no session started over a disk before which pages may wait, and gives the status.
fn refuse_on<D: RunDisk, K: Sink>(disk: &D, fault: StartFault, sink: &mut K) -> Status
    ensures stops { StopsAs (fault_on (D.shown disk.now) fault) result sink.old sink.new
        (Puts (Rose (K.faults sink.old) (K.faults sink.new)) (K.took sink.old) (K.took sink.new)) }
    ensures later { K.faults sink.old ≤ K.faults sink.new }
{
    match fault {
        StartFault::Halt(halt) => stop_on(disk, halt, sink),
        StartFault::Root(why) => refuse(StartFault::Root(why), sink),
        StartFault::NoMemory => Status::NoMemory,
    }
}

// Carries a trace out in a session over a root that was read, and hands the disk back.
fn run_rooted<D: RunDisk, A: Allocator, S: Source, K: Sink>(
    alloc: A,
    frames: u32,
    root: Root,
    disk: D,
    source: &mut S,
    sink: &mut K,
) -> (Status, D)
    requires least { 24 ≤ frames }
    requires most { frames ≤ 4096 }
    requires valid { IsValidRoot (D.state disk).sectors root }
    requires read { (d : List Sector) → (D.state disk).contents ≡ Some d → root ≡ root_in (root_page d) }
    ensures ran { RanRooted result.0 (D.shown result.1)
        (world (D.state disk) (S.left source.old) (S.faults source.old) (K.took sink.old) (K.faults sink.old))
        (world (D.state result.1) (S.left source.new) (S.faults source.new) (K.took sink.new) (K.faults sink.new)) }
    ensures changes { PutsChange result.0 (D.shown result.1) (S.left source.old) (K.took sink.old) (K.took sink.new)
        (Rose (K.faults sink.old) (K.faults sink.new)) }
    ensures rests { (result.0 ≡ Status.Done) ⊎ (result.0 ≡ Status.Long) → D.rests result.1 }

    // Why it ended so.
    ensures causes { HasCauses (IsShort (2 ^ 32)) result.0
        (world (D.state disk) (S.left source.old) (S.faults source.old) (K.took sink.old) (K.faults sink.old))
        (world (D.state result.1) (S.left source.new) (S.faults source.new) (K.took sink.new) (K.faults sink.new)) }
    ensures memory { result.0 ≡ Status.NoMemory
        → (result.1 ≡ disk) × (source.new ≡ source.old) × (sink.new ≡ sink.old) }
    ensures went { Went (D.state disk) (D.state result.1) }
{
    match Session::with_root(alloc, disk, root, frames) {
        Ok(session) => answer_lines(session, source, sink),
        Err((fault, disk)) => {
            let status = refuse_on(&disk, fault, sink);
            (status, disk)
        }
    }
}

/// Carries a trace out as `run` does, where up to so many pages wait before the disk. What is said is said of the disk beneath.
pub(crate) fn run_queued<A: Allocator + Clone, D: Disk, S: Source, K: Sink>(
    alloc: A,
    frames: u32,
    room: u32,
    disk: D,
    source: &mut S,
    sink: &mut K,
) -> (Status, D)
    requires least { 24 ≤ frames }
    requires most { frames ≤ 4096 }
    requires some_room { 1 ≤ room }
    requires most_room { room ≤ 256 }
    ensures ran { RanQueued result.0
        (world (D.state disk) (S.left source.old) (S.faults source.old) (K.took sink.old) (K.faults sink.old))
        (world (D.state result.1) (S.left source.new) (S.faults source.new) (K.took sink.new) (K.faults sink.new)) }
    ensures causes { HasCauses (IsShort (2 ^ 32)) result.0
        (world (D.state disk) (S.left source.old) (S.faults source.old) (K.took sink.old) (K.faults sink.old))
        (world (D.state result.1) (S.left source.new) (S.faults source.new) (K.took sink.new) (K.faults sink.new)) }

    // The volume can't be opened, or there is no memory. The root is judged before memory is taken.
    ensures refuses { Refuses IsRefused result.0 (D.state disk) (D.state result.1)
        (Puts (Rose (K.faults sink.old) (K.faults sink.new)) (K.took sink.old) (K.took sink.new)) }
    ensures leaves { LeavesStreams result.0 (D.state disk).contents (source.new ≡ source.old) (sink.new ≡ sink.old) }
    ensures lent { (D.state result.1).lent ≡ (D.state disk).lent }
{
    let mut disk = disk;
    let root = match read_root(&mut disk, true) {
        Ok(root) => root,
        Err(why) => return (refuse(StartFault::Root(why), sink), disk),
    };
    let Ok(own) = alloc.clone() else {
        return (Status::NoMemory, disk);
    };
    let queue = match RunQueue::over(own, disk, room) {
        Ok(queue) => queue,
        Err((_, disk)) => return (Status::NoMemory, disk),
    };
    let (status, queue) = run_rooted(alloc, frames, root, queue, source, sink);
    (status, queue.into_disk())
}
