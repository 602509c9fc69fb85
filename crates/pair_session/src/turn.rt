//! One line for a pair, and its reply.
ghost use Rattle.std.specs.Prelude.{◌≡◌, ◌⊎◌, ◌≤◌, Some, None};
ghost use Rattle.pair_session.specs.Causes.{ShowsHalt};
ghost use Rattle.pair_session.specs.Pairs.{GoesOn, MayBeAsked, shown};
ghost use Rattle.pair_session.specs.Turn.{FaultsBy, HaltsBy, IfHalts, StaysOpen, Steps, Turns};

use crate::ending::Ending;
use labelled_disk::Disk;
use pair_machine::{PairRefusal, PairReply};
use std::alloc::Allocator;
use trace_io::{PairLine, PairLines, Source, Stop};
use volume_pair::Pair;

/// One line: its reply, or how the lines end.
#[derive(Clone, Copy, Debug, PartialEq, Eq)]
pub(crate) enum Turn {
    /// Others may follow the line.
    Replies(PairReply),
    Ends(Ending),
}

/// Reads a line, and carries out its call.
pub(crate) fn take_turn<D: Disk, E: Disk, A: Allocator, S: Source>(
    pair: &mut Pair<D, E, A>,
    lines: &mut PairLines,
    source: &mut S,
) -> Turn
    requires stopped { (lines.old.stopped ≡ None) ⊎ (lines.old.stopped ≡ Some Stop.End) }
    requires asked { MayBeAsked (shown pair.old) }
    ensures turns { Turns result (S.left source.old) (S.left source.new) lines.old lines.new
        (Steps (shown pair.old) (shown pair.new)) (HaltsBy (shown pair.old) (shown pair.new)) }
    ensures bound { lines.new.taken ≤ lines.new.limit }
    ensures goes_on { GoesOn (shown pair.old) (shown pair.new) }
    ensures stays { StaysOpen result (shown pair.old) (shown pair.new) }
    ensures halt { IfHalts result (ShowsHalt (shown pair.old).from.disk (shown pair.old).to.disk
        (shown pair.new).from.disk (shown pair.new).to.disk) }
    ensures faults { FaultsBy result (S.faults source.old) (S.faults source.new) }
{
    match lines.next(source) {
        PairLine::Call(call) => match pair.step(&call) {
            Ok(reply) => Turn::Replies(reply),
            Err(halt) => Turn::Ends(Ending::Halted(halt)),
        },
        PairLine::Bad => Turn::Replies(PairReply::Refused(PairRefusal::Syntax)),
        PairLine::Close => Turn::Ends(Ending::Close),
        PairLine::End => Turn::Ends(Ending::End),
        PairLine::ReadFault => Turn::Ends(Ending::ReadFault),
        PairLine::Long => Turn::Ends(Ending::Long),
    }
}
