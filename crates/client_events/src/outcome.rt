//! The lines of what comes of an event.
ghost use Rattle.std.specs.Prelude.{OnOk, OnErr, flat_map};
ghost use Rattle.std.specs.Io.KnownBytes.{Appends};
ghost use Rattle.trace_io.specs.ClientText.{client_line};
ghost use Rattle.trace_io.specs.Stream.{AppendsPrefix, HasCause};
ghost use Rattle.client_events.specs.Outcome.{answer_line, asked_line, landed_lines};

use flight_core::{Answers, Landed, Revealed};
use trace_io::{ClientLine, Sink, SinkFault, write_answer, write_client_line};

/// Writes the line of a client that asked, or at an error a prefix of it.
pub(crate) fn write_revealed<K: Sink>(
    sink: &mut K,
    client: u8,
    revealed: &Revealed,
) -> Result<(), SinkFault>
    ensures ok { OnOk result (Appends (K.took sink.old) (K.took sink.new)
        (client_line (asked_line client revealed.now))) }
    ensures err { OnErr result (AppendsPrefix (K.took sink.old) (K.took sink.new)
        (client_line (asked_line client revealed.now))) }
    ensures cause { HasCause (K.faults sink.old) (K.faults sink.new) result }
{
    match revealed {
        Revealed::Answered(reply) => write_answer(sink, client, reply),
        Revealed::Waits(flight) => {
            let flight = *flight;
            write_client_line(sink, &ClientLine::Waits { client, flight })
        }
        Revealed::Busy => write_client_line(sink, &ClientLine::Busy { client }),
    }
}

// Writes a line for each answer.
fn write_answers<K: Sink>(sink: &mut K, answers: Answers) -> Result<(), SinkFault>
    ensures ok { OnOk result (Appends (K.took sink.old) (K.took sink.new) (flat_map answer_line answers.items)) }
    ensures err { OnErr result (AppendsPrefix (K.took sink.old) (K.took sink.new)
        (flat_map answer_line answers.items)) }
    ensures cause { HasCause (K.faults sink.old) (K.faults sink.new) result }
{
    for answer in answers {
        write_answer(sink, answer.client, &answer.reply)?;
    }
    Ok(())
}

/// Writes the lines of a flight that is done, or at an error a prefix of them.
pub(crate) fn write_landed<K: Sink>(sink: &mut K, landed: Landed) -> Result<(), SinkFault>
    ensures ok { OnOk result (Appends (K.took sink.old) (K.took sink.new) (landed_lines landed)) }
    ensures err { OnErr result (AppendsPrefix (K.took sink.old) (K.took sink.new) (landed_lines landed)) }
    ensures cause { HasCause (K.faults sink.old) (K.faults sink.new) result }
{
    match landed {
        Landed::NoFlight => write_client_line(sink, &ClientLine::NoFlight),
        Landed::Answered(answers) => write_answers(sink, answers),
    }
}
