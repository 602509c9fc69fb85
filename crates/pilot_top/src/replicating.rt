//! The command `replicate`: lines are answered over two volumes, of which the second gets copies of files of the first.
ghost use Rattle.std.specs.Prelude.{◌≡◌, ◌≢◌, ◌≤◌, List, String};
ghost use Rattle.std.specs.declared.alloc.Global.{Global};
ghost use Rattle.command_words.specs.Meaning.{Means};
ghost use Rattle.command_words.specs.declared.words.Command.TheVariants as command;
ghost use Rattle.labelled_disk.specs.Calls.{Rose};
ghost use Rattle.pair_session.specs.Causes.{IfNotStarted};
ghost use Rattle.pilot_top.specs.Causes.{TakesNothing};
ghost use Rattle.pilot_top.specs.Last.{last_line, Puts};
ghost use Rattle.pilot_top.specs.Replicating.{JudgesRoots, PutsCause, RanLines, Replicated, cause_after, cause_unstarted, other_cause_of, status_after, status_unstarted};
ghost use Rattle.pilot_top.specs.Stopping.{status_of};
ghost use Rattle.pilot_top.specs.World.{world};

use crate::Status;
use crate::last::{Cause, OtherCause, put_last};
use crate::stopping::stop;
use labelled_disk::{Disk, Halt, RootFault};
use pair_session::{Outcome, replicate};
use std::alloc::Allocator;
use trace_io::{Sink, Source};
use volume_pair::{PairHalt, PairStart};
use volume_root::read_root;

// Looks at the roots of both volumes, the first one's first: whether they can be opened.
fn judge_roots<D: Disk, E: Disk>(disk: &mut D, other: &mut E) -> Result<(), PairStart>
    ensures { JudgesRoots result (D.state disk.old) (E.state other.old) (D.state disk.new) (E.state other.new) }
{
    match read_root(disk, true) {
        Ok(_) => (),
        Err(why) => return Err(PairStart::From(why)),
    }
    match read_root(other, true) {
        Ok(_) => Ok(()),
        Err(why) => Err(PairStart::To(why)),
    }
}

// Answers the lines for two volumes that can be opened.
fn run_lines<A, D, E, S, K>(
    alloc: A,
    frames: u32,
    disk: &mut D,
    other: &mut E,
    source: &mut S,
    sink: &mut K,
) -> Outcome
where
    A: Allocator + Clone,
    D: Disk,
    E: Disk,
    S: Source,
    K: Sink,
    requires least { 24 ≤ frames }
    requires most { frames ≤ 4096 }
    ensures ran { RanLines result
        (world (D.state disk.old) (S.left source.old) (S.faults source.old) (K.took sink.old) (K.faults sink.old))
        (world (D.state disk.new) (S.left source.new) (S.faults source.new) (K.took sink.new) (K.faults sink.new))
        (E.state other.old) (E.state other.new) }
    ensures kept { IfNotStarted result (λ why. (source.new ≡ source.old) × (sink.new ≡ sink.old)) }
{
    match judge_roots(disk, other) {
        Ok(()) => replicate(alloc, frames, disk, other, source, sink),
        Err(why) => Outcome::NotStarted(why),
    }
}

// Writes why a halt came on the second volume, and gives the status.
fn stop_other<K: Sink>(halt: Halt, sink: &mut K) -> Status
    ensures status { result ≡ status_of halt }
    ensures line { Puts (Rose (K.faults sink.old) (K.faults sink.new)) (K.took sink.old) (K.took sink.new)
        (last_line (other_cause_of halt)) }
    ensures later { K.faults sink.old ≤ K.faults sink.new }
{
    match halt {
        Halt::Disk => {
            put_last(sink, Cause::Other(OtherCause::DiskFault));
            Status::DiskFault
        }
        Halt::Damaged(evidence) => {
            put_last(sink, Cause::Other(OtherCause::Damaged(evidence)));
            Status::Damaged
        }
    }
}

// Writes why the first volume was refused, and gives the status.
fn refuse_first<K: Sink>(why: RootFault, sink: &mut K) -> Status
    ensures status { result ≡ status_unstarted (PairStart.From why) }
    ensures line { PutsCause (Rose (K.faults sink.old) (K.faults sink.new)) (K.took sink.old) (K.took sink.new)
        (cause_unstarted (PairStart.From why)) }
    ensures later { K.faults sink.old ≤ K.faults sink.new }
{
    match why {
        RootFault::Disk => {
            put_last(sink, Cause::DiskFault);
            Status::DiskFault
        }
        _ => {
            put_last(sink, Cause::Root(why));
            Status::NotOpened
        }
    }
}

// Writes why the second one was, and gives the status.
fn refuse_second<K: Sink>(why: RootFault, sink: &mut K) -> Status
    ensures status { result ≡ status_unstarted (PairStart.To why) }
    ensures line { PutsCause (Rose (K.faults sink.old) (K.faults sink.new)) (K.took sink.old) (K.took sink.new)
        (cause_unstarted (PairStart.To why)) }
    ensures later { K.faults sink.old ≤ K.faults sink.new }
{
    match why {
        RootFault::Disk => {
            put_last(sink, Cause::Other(OtherCause::DiskFault));
            Status::DiskFault
        }
        _ => {
            put_last(sink, Cause::Other(OtherCause::Root(why)));
            Status::NotOpened
        }
    }
}

// Writes why no pair started, unless there was no memory, and gives the status.
fn end_unstarted<K: Sink>(why: PairStart, sink: &mut K) -> Status
    ensures status { result ≡ status_unstarted why }
    ensures line { PutsCause (Rose (K.faults sink.old) (K.faults sink.new)) (K.took sink.old) (K.took sink.new)
        (cause_unstarted why) }
    ensures later { K.faults sink.old ≤ K.faults sink.new }
    ensures quiet { why ≡ PairStart.NoMemory → sink.new ≡ sink.old }
{
    match why {
        PairStart::From(why) => refuse_first(why, sink),
        PairStart::To(why) => refuse_second(why, sink),
        PairStart::NoMemory => Status::NoMemory,
        PairStart::Halt(halt) => stop_other(halt, sink),
    }
}

// Writes why the lines stopped, if they did, and gives the status.
fn end_lines<K: Sink>(how: Outcome, sink: &mut K) -> Status
    ensures status { result ≡ status_after how }
    ensures line { PutsCause (Rose (K.faults sink.old) (K.faults sink.new)) (K.took sink.old) (K.took sink.new)
        (cause_after how) }
    ensures later { K.faults sink.old ≤ K.faults sink.new }
    ensures quiet { how ≡ Outcome.NotStarted PairStart.NoMemory → sink.new ≡ sink.old }
{
    match how {
        Outcome::Done => Status::Done,
        Outcome::NotStarted(why) => end_unstarted(why, sink),
        Outcome::Halted(PairHalt::From(halt)) => stop(halt, sink),
        Outcome::Halted(PairHalt::To(halt)) => stop_other(halt, sink),
        Outcome::Long => {
            put_last(sink, Cause::Long);
            Status::Long
        }
        Outcome::ReadFault => Status::StreamFault,
        Outcome::SinkFault => Status::StreamFault,
    }
}

/// Answers lines of the source over two disks that are lent, with so many frames each.
pub(crate) fn replicate_on<A, D, E, S, K>(
    alloc: A,
    frames: u32,
    disk: &mut D,
    other: &mut E,
    source: &mut S,
    sink: &mut K,
) -> Status
where
    A: Allocator + Clone,
    D: Disk,
    E: Disk,
    S: Source,
    K: Sink,
    requires least { 24 ≤ frames }
    requires most { frames ≤ 4096 }
    ensures replicated { Replicated result
        (world (D.state disk.old) (S.left source.old) (S.faults source.old) (K.took sink.old) (K.faults sink.old))
        (world (D.state disk.new) (S.left source.new) (S.faults source.new) (K.took sink.new) (K.faults sink.new))
        (E.state other.old) (E.state other.new) }
    ensures keeps_source { (words : List (String Global)) → Means words (command.Replicate frames)
        → TakesNothing words result
        (world (D.state disk.old) (S.left source.old) (S.faults source.old) (K.took sink.old) (K.faults sink.old))
        → source.new ≡ source.old }
    ensures understood { result ≢ Status.Usage }
    ensures keeps_sink { result ≡ Status.NoMemory → sink.new ≡ sink.old }
{
    let how = run_lines(alloc, frames, disk, other, source, sink);
    end_lines(how, sink)
}
