//! Lines for a pair in a row, each answered before the next one is read.
ghost use Rattle.std.specs.Prelude.{◌≡◌};
ghost use Rattle.pair_session.specs.Causes.{HasReason, IfHalted, ShowsHalt};
ghost use Rattle.pair_session.specs.Ending.{HasReplied, IsOpenAt, outcome_of};
ghost use Rattle.pair_session.specs.Pairs.{GoesOn, MayBeAsked, shown};

use crate::ending::Ending;
use crate::turn::{Turn, take_turn};
use labelled_disk::Disk;
use std::alloc::Allocator;
use trace_io::{PairLines, Sink, Source, write_pair};
use volume_pair::Pair;

// The most bytes that are read.
const LIMIT: u64 = 1 << 32;

/// Reads lines, and writes the reply to each before the next one is read, until they end. What stands after `close`
/// is not taken, and no reply to `close` is written.
pub(crate) fn answer_lines<D: Disk, E: Disk, A: Allocator, S: Source, K: Sink>(
    pair: &mut Pair<D, E, A>,
    source: &mut S,
    sink: &mut K,
) -> Ending
    requires asked { MayBeAsked (shown pair.old) }
    ensures replied { HasReplied result (shown pair.old) (shown pair.new) (S.left source.old) (S.left source.new)
        (K.took sink.old) (K.took sink.new) }
    ensures goes_on { GoesOn (shown pair.old) (shown pair.new) }
    ensures stays { IsOpenAt result (shown pair.new) }
    ensures halt { IfHalted (outcome_of result) (ShowsHalt (shown pair.old).from.disk (shown pair.old).to.disk
        (shown pair.new).from.disk (shown pair.new).to.disk) }
    ensures reason { HasReason (outcome_of result) (S.left source.old) (S.faults source.old) (S.faults source.new)
        (K.faults sink.old) (K.faults sink.new) }
{
    let mut lines = PairLines::with_limit(LIMIT);
    'turns: loop {
        match take_turn(pair, &mut lines, source) {
            Turn::Replies(reply) => {
                let Ok(()) = write_pair(sink, &reply) else {
                    return Ending::SinkFault;
                };
            }
            Turn::Ends(ending) => return ending,
        }
    }
}
