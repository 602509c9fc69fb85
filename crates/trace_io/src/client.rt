//! Lines for clients that share a session.
ghost use Rattle.std.specs.Prelude.{◌≡◌, ◌≤◌, [], length, OnOk, OnErr};
ghost use Rattle.std.specs.Io.KnownBytes.{Appends};
ghost use Rattle.trace_io.specs.Stream.{HasCause, AppendsPrefix};
ghost use Rattle.trace_io.specs.declared.client.ClientLine.TheVariants as said;
ghost use Rattle.trace_io.specs.ClientText.{client_text, client_line, ClientLinesAreLines};

use crate::reply::put_reply;
use crate::text::Text;
use crate::{Sink, SinkFault};
use flat_machine::{Reply, replies_are_lines};

/// What is written for a client.
#[derive(Drop)]
pub enum ClientLine {
    /// The client's call was answered.
    Reply { client: u8, reply: Reply },
    /// The client waits already.
    Busy { client: u8 },
    /// The client waits for the flight of this number.
    Waits { client: u8, flight: u64 },
    /// The session ends, and the client's reference was not carried out.
    Dropped { client: u8 },
    /// Nobody waits for the flight.
    NoFlight,
}

// Puts the text of a client and its reply into a line that has no byte yet.
#[tactic(auto, unfolding(crate::specs::ClientText::client_text))]
fn put_answer(line: &mut Text, client: u8, reply: &Reply)
    requires { line.old ≡ [] }
    ensures text { line.new ≡ client_text (said.Reply client reply.now) }
    ensures short { length line.new ≤ 191 }
{
    line.put_client(client);
    put_reply(line, reply);
}

// Puts the text of a line for a client into a line that has no byte yet.
#[tactic(auto, unfolding(crate::specs::ClientText::client_text))]
fn put_client(line: &mut Text, given: &ClientLine)
    requires { line.old ≡ [] }
    ensures text { line.new ≡ client_text given.now }
    ensures short { length line.new ≤ 191 }
{
    match given {
        ClientLine::Reply { client, reply } => {
            put_answer(line, *client, reply);
        }
        ClientLine::Busy { client } => {
            line.put_small(*client);
            line.put(b" busy");
        }
        ClientLine::Waits { client, flight } => {
            line.put_small(*client);
            line.put(b" waits ");
            line.put_wide(*flight);
        }
        ClientLine::Dropped { client } => {
            line.put_small(*client);
            line.put(b" dropped");
        }
        ClientLine::NoFlight => line.put(b"error flight"),
    }
}

/// Writes a line for a client, or at an error a prefix of it.
pub fn write_client_line<K: Sink>(sink: &mut K, given: &ClientLine) -> Result<(), SinkFault>
    ensures ok { OnOk result (Appends (K.took sink.old) (K.took sink.new) (client_line given.now)) }
    ensures err { OnErr result (AppendsPrefix (K.took sink.old) (K.took sink.new) (client_line given.now)) }
    ensures cause { HasCause (K.faults sink.old) (K.faults sink.new) result }
{
    let mut line = Text::new();
    put_client(&mut line, given);
    line.put(b"\n");
    sink.put(line.as_slice())
}

/// Writes the line of a client's reply, or at an error a prefix of it.
pub fn write_answer<K: Sink>(sink: &mut K, client: u8, reply: &Reply) -> Result<(), SinkFault>
    ensures ok { OnOk result (Appends (K.took sink.old) (K.took sink.new)
        (client_line (said.Reply client reply.now))) }
    ensures err { OnErr result (AppendsPrefix (K.took sink.old) (K.took sink.new)
        (client_line (said.Reply client reply.now))) }
    ensures cause { HasCause (K.faults sink.old) (K.faults sink.new) result }
{
    let mut line = Text::new();
    put_answer(&mut line, client, reply);
    line.put(b"\n");
    sink.put(line.as_slice())
}

/// What is written for a client is one line.
pub fn client_lines_are_lines()
    ensures { ClientLinesAreLines }
{
    replies_are_lines();
}
