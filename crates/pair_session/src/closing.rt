//! The end of a pair, by how its lines ended.
ghost use Rattle.std.specs.Prelude.{◌≡◌};
ghost use Rattle.filer_kernel.specs.View.{disk_of};
ghost use Rattle.pair_session.specs.Closing.{EndsSilently, Finishes, RepliesLast};
ghost use Rattle.pair_session.specs.Pairs.{MayBeAsked, shown};

use crate::Outcome;
use labelled_disk::Disk;
use pair_machine::PairReply;
use std::alloc::Allocator;
use trace_io::{Sink, write_pair};
use volume_pair::Pair;

/// Closes the second volume.
pub(crate) fn finish<D: Disk, E: Disk, A: Allocator>(pair: Pair<D, E, A>) -> (Outcome, D, E)
    requires asked { MayBeAsked (shown pair) }
    ensures finishes { Finishes result.0 (shown pair) (D.state result.1) (E.state result.2) }
    ensures ends { EndsSilently result.0 }
{
    let (ended, from, to) = pair.finish();
    match ended {
        Ok(()) => (Outcome::Done, from, to),
        Err(halt) => (Outcome::Halted(halt), from, to),
    }
}

/// Closes the second volume, and replies to the line `close` after that.
pub(crate) fn close<D: Disk, E: Disk, A: Allocator, K: Sink>(
    pair: Pair<D, E, A>,
    sink: &mut K,
) -> (Outcome, D, E)
    requires asked { MayBeAsked (shown pair) }
    ensures finishes { Finishes result.0 (shown pair) (D.state result.1) (E.state result.2) }
    ensures replies { RepliesLast result.0 (K.took sink.old) (K.took sink.new) (K.faults sink.old)
        (K.faults sink.new) }
{
    let (ended, from, to) = pair.finish();
    match ended {
        Ok(()) => (),
        Err(halt) => return (Outcome::Halted(halt), from, to),
    }
    match write_pair(sink, &PairReply::Done) {
        Ok(()) => (Outcome::Done, from, to),
        Err(_) => (Outcome::SinkFault, from, to),
    }
}

/// Leaves both disks as they stand: what is dirty in frames of the second is lost, and its volume stays open.
pub(crate) fn leave<D: Disk, E: Disk, A: Allocator>(
    pair: Pair<D, E, A>,
    how: Outcome,
) -> (Outcome, D, E)
    ensures how { result.0 ≡ how }
    ensures from { result.1 ≡ disk_of pair.from }
    ensures to { result.2 ≡ disk_of pair.to }
{
    let (from, to) = pair.into_disks();
    (how, from, to)
}
