//! One line of a trace, and the reply to it.
ghost use Rattle.std.specs.Prelude.{◌≡◌, ◌⊎◌, ◌≤◌, Some, None};
ghost use Rattle.file_manager.specs.Reasons.{KeepsOn, InitialState, IsNotOlder};
ghost use Rattle.running_words.specs.Running.{Runs};
ghost use Rattle.pilot_engine.specs.Referring.{TakesCalls};
ghost use Rattle.pilot_top.specs.Headline.{CostsLine};
ghost use Rattle.pilot_top.specs.CrashStates.{LineCrashStates};
ghost use Rattle.pilot_top.specs.Sparing.{Hides, LineDone};
ghost use Rattle.pilot_top.specs.Turn.{EndsAt, IsGoing, Turns};
ghost use Rattle.pilot_top.specs.Waiting.{IsBrought};
ghost use Rattle.pilot_top.specs.Turning.{AccountsTurn, ReadsSource, StaysInTurn, StopsTurn, WritesTurn};
ghost use Rattle.fault_core.specs.Core.{state};

use flat_machine::{Call, Refusal, Reply};
use labelled_disk::{Disk, Halt};
use pilot_engine::Session;
use std::alloc::Allocator;
use trace_io::{Line, Lines, Source, Stop};

/// How a trace ends.
#[derive(Clone, Copy, Debug, PartialEq, Eq)]
pub(crate) enum End {
    /// At a line `close`.
    Close,
    /// At a line `halt`.
    Halt,
    /// The source is at its end.
    Trace,
}

/// One line of a trace, with the reply to it, or why there is none.
#[derive(Drop)]
pub(crate) enum Turn {
    /// Others may follow the line.
    Replies(Reply),
    Ends(End),
    /// The call stopped the session.
    Halts(Halt),
    ReadFault,
    Long,
}

// How the call ends the trace, if it does.
fn end_at(call: &Call) -> Option<End>
    ensures { EndsAt call.now result }
{
    match call {
        Call::Close => Some(End::Close),
        Call::Halt => Some(End::Halt),
        _ => None,
    }
}

/// Reads a line, and carries out its call in the session.
pub(crate) fn take_turn<D: Disk, A: Allocator, S: Source>(
    session: &mut Session<D, A>,
    lines: &mut Lines,
    source: &mut S,
) -> Turn
    requires stopped { (lines.old.stopped ≡ None) ⊎ (lines.old.stopped ≡ Some Stop.End) }
    requires ready { TakesCalls session.old }
    ensures turns { Turns result (S.left source.old) (S.left source.new) lines.old lines.new
        (Runs session.old.core session.old.volume) (Runs session.new.core session.new.volume)
        (λ m line.
        LineCrashStates m line (state session.old.core).disk (state session.new.core).disk
        × CostsLine line (state session.old.core).disk (state session.new.core).disk
        × (IsGoing result → IsBrought m line (state session.new.core).disk))
        (λ line.
        LineDone session.old.volume.root line (state session.old.core).disk (state session.old.core).slots
        (state session.new.core).disk (state session.new.core).slots (Hides session.old)
        (λ id. IsGoing result → Hides session.new id)) }
    ensures stops { StopsTurn result (Runs session.old.core session.old.volume) (state session.old.core).disk
        (state session.new.core).disk }
    ensures accounts { (o : InitialState) → KeepsOn o session.old.core.filer → IsNotOlder o session.old.volume.root
        → AccountsTurn o result session.old session.new }
    ensures stays { StaysInTurn result session.old session.new }
    ensures writes { WritesTurn result session.old session.new }
    ensures bound { lines.new.taken ≤ lines.new.limit }
    ensures reads { ReadsSource result (S.faults source.old) (S.faults source.new) }
{
    match lines.next(source) {
        Line::Call(call) => match end_at(&call) {
            Some(end) => Turn::Ends(end),
            None => match session.step(&call) {
                Ok(reply) => Turn::Replies(reply),
                Err(halt) => Turn::Halts(halt),
            },
        },
        Line::Bad => Turn::Replies(Reply::Refused(Refusal::Syntax)),
        Line::End => Turn::Ends(End::Trace),
        Line::ReadFault => Turn::ReadFault,
        Line::Long => Turn::Long,
    }
}
