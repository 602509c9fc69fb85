//! One replication: a pair is started on two disks that are lent, lines are answered, and the second volume is closed.
ghost use Rattle.std.specs.Prelude.{◌≡◌, ◌≤◌, ℕ, List, Some};
ghost use Rattle.labelled_disk.specs.Sectors.{Sector};
ghost use Rattle.volume_root.specs.Sound.{Sound};
ghost use Rattle.trace_io.specs.PairReading.{pair_reading};
ghost use Rattle.volume_pair.specs.Kept.{IsOnlyRead};
ghost use Rattle.pair_session.specs.Causes.{HasReason, IfNotStarted, IsJudged, IsShown, WroteSecond};
ghost use Rattle.pair_session.specs.Ended.{Ended};
ghost use Rattle.pair_session.specs.Owned.{RepliesTo};
ghost use Rattle.pair_session.specs.Pairs.{MayBeAsked, shown};
ghost use Rattle.pair_session.specs.Replicated.{Carries, Replicated, streams};
ghost use Rattle.pair_session.specs.Second.{Replicates};

use crate::Outcome;
use crate::answering::answer_lines;
use crate::closing::{close, finish, leave};
use crate::ending::Ending;
use labelled_disk::Disk;
use std::alloc::Allocator;
use trace_io::{Sink, Source};
use volume_pair::Pair;

// Answers lines over a pair that was started, and ends it.
fn answer_pair<D: Disk, E: Disk, A: Allocator, S: Source, K: Sink>(
    pair: Pair<D, E, A>,
    source: &mut S,
    sink: &mut K,
) -> (Outcome, D, E)
    requires asked { MayBeAsked (shown pair) }
    ensures carries { Carries result.0 (shown pair)
        (streams (S.left source.old) (S.faults source.old) (K.took sink.old) (K.faults sink.old))
        (streams (S.left source.new) (S.faults source.new) (K.took sink.new) (K.faults sink.new))
        (D.state result.1) (E.state result.2) }
{
    let mut pair = pair;
    match answer_lines(&mut pair, source, sink) {
        Ending::Close => close(pair, sink),
        Ending::End => finish(pair),
        Ending::Long => leave(pair, Outcome::Long),
        Ending::ReadFault => leave(pair, Outcome::ReadFault),
        Ending::SinkFault => leave(pair, Outcome::SinkFault),
        Ending::Halted(halt) => leave(pair, Outcome::Halted(halt)),
    }
}

// Starts a pair on both disks, answers lines, ends it, and hands the disks back.
fn replicate_over<A: Allocator + Clone, D: Disk, E: Disk, S: Source, K: Sink>(
    alloc: A,
    frames: u32,
    from: D,
    to: E,
    source: &mut S,
    sink: &mut K,
) -> (Outcome, D, E)
    requires least { 24 ≤ frames }
    requires most { frames ≤ 4096 }
    ensures replicated { Replicated result.0 (D.state from) (E.state to)
        (streams (S.left source.old) (S.faults source.old) (K.took sink.old) (K.faults sink.old))
        (D.state result.1) (E.state result.2)
        (streams (S.left source.new) (S.faults source.new) (K.took sink.new) (K.faults sink.new)) }
    ensures kept { IfNotStarted result.0 (λ why. (source.new ≡ source.old) × (sink.new ≡ sink.old)) }
{
    match Pair::over(alloc, from, to, frames) {
        Ok(pair) => answer_pair(pair, source, sink),
        Err((why, from, to)) => (Outcome::NotStarted(why), from, to),
    }
}

// The same over a second disk that is lent.
fn replicate_on<A: Allocator + Clone, D: Disk, E: Disk, S: Source, K: Sink>(
    alloc: A,
    frames: u32,
    from: D,
    to: &mut E,
    source: &mut S,
    sink: &mut K,
) -> (Outcome, D)
    requires least { 24 ≤ frames }
    requires most { frames ≤ 4096 }
    ensures replicated { Replicated result.0 (D.state from) (E.state to.old)
        (streams (S.left source.old) (S.faults source.old) (K.took sink.old) (K.faults sink.old))
        (D.state result.1) (E.state to.new)
        (streams (S.left source.new) (S.faults source.new) (K.took sink.new) (K.faults sink.new)) }
    ensures kept { IfNotStarted result.0 (λ why. (source.new ≡ source.old) × (sink.new ≡ sink.old)) }
{
    let (outcome, from, _to) = replicate_over(alloc, frames, from, to, source, sink);
    (outcome, from)
}

/// Starts a pair on both disks, with so many frames on each side, 24 to 4,096. Then reads lines `copy`, `compare` and
/// `close`, and writes the reply to each before the next one is read, until they end: at most 2^32 bytes are read. Last
/// it closes the second volume, and replies to `close` after that. Where it halts, the text is too long, or the source or
/// the sink fails before the end, the second volume is not closed, and no disk is written any more.
pub fn replicate<A: Allocator + Clone, D: Disk, E: Disk, S: Source, K: Sink>(
    alloc: A,
    frames: u32,
    from: &mut D,
    to: &mut E,
    source: &mut S,
    sink: &mut K,
) -> Outcome
    requires least { 24 ≤ frames }
    requires most { frames ≤ 4096 }
    ensures replies { (d e : List Sector) (b t : List ℕ) → (D.state from.old).contents ≡ Some d
        → (E.state to.old).contents ≡ Some e → Sound d → Sound e → S.left source.old ≡ Some b
        → K.took sink.old ≡ Some t
        → Ended result b (S.left source.new) t (K.took sink.new)
        (Replicates result d e (pair_reading b) (E.state to.old) (E.state to.new)) }
    ensures texts { (b t : List ℕ) → S.left source.old ≡ Some b → K.took sink.old ≡ Some t
        → Ended result b (S.left source.new) t (K.took sink.new)
        (RepliesTo result (pair_reading b) (E.state to.old) (E.state to.new)) }
    ensures judged { (d e : List Sector) → (D.state from.old).contents ≡ Some d
        → (E.state to.old).contents ≡ Some e → IsJudged result d e }
    ensures from { IsOnlyRead (D.state from.old) (D.state from.new) }
    ensures to { WroteSecond result (E.state to.old) (E.state to.new) }
    ensures shown { IsShown result (D.state from.old) (E.state to.old) (D.state from.new) (E.state to.new) }
    ensures reason { HasReason result (S.left source.old) (S.faults source.old) (S.faults source.new)
        (K.faults sink.old) (K.faults sink.new) }
    ensures kept { IfNotStarted result (λ why. (source.new ≡ source.old) × (sink.new ≡ sink.old)) }
{
    let (outcome, _from) = replicate_on(alloc, frames, from, to, source, sink);
    outcome
}
