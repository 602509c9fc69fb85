//! The lines of a pair's replies.
ghost use Rattle.std.specs.Prelude.{◌≡◌, ◌≤◌, [], ◌++◌, length, OnOk, OnErr, codes};
ghost use Rattle.std.specs.Io.KnownBytes.{Appends};
ghost use Rattle.trace_io.specs.Stream.{HasCause, AppendsPrefix};
ghost use Rattle.trace_io.specs.PairText.{PairRepliesAreLines, pair_refusal_text, pair_reply_text, pair_text};

use crate::text::Text;
use crate::{Sink, SinkFault};
use pair_machine::{PairRefusal, PairReply};

// Puts the text of a refusal into a line that has no byte yet.
fn put_pair_refusal(line: &mut Text, why: PairRefusal)
    requires { line.old ≡ [] }
    ensures text { line.new ≡ codes "error " ++ pair_refusal_text why }
    ensures short { length line.new ≤ 160 }
{
    match why {
        PairRefusal::Syntax => line.put(b"error syntax"),
        PairRefusal::File => line.put(b"error file"),
        PairRefusal::Mutable => line.put(b"error mutable"),
        PairRefusal::Exists => line.put(b"error exists"),
        PairRefusal::Serial => line.put(b"error serial"),
        PairRefusal::Full => line.put(b"error full"),
    }
}

// Puts the text of a reply into a line that has no byte yet.
#[tactic(auto, unfolding(crate::specs::PairText::pair_reply_text))]
fn put_pair_reply(line: &mut Text, reply: &PairReply)
    requires { line.old ≡ [] }
    ensures text { line.new ≡ pair_reply_text reply.now }
    ensures short { length line.new ≤ 160 }
{
    match reply {
        PairReply::Done => line.put(b"ok"),
        PairReply::Same => line.put(b"same"),
        PairReply::Differs(page) => {
            line.put(b"differs ");
            line.put_number(*page);
        }
        PairReply::Refused(why) => put_pair_refusal(line, *why),
    }
}

/// Writes the line of a pair's reply, or at an error a prefix of it.
pub fn write_pair<K: Sink>(sink: &mut K, reply: &PairReply) -> Result<(), SinkFault>
    ensures ok { OnOk result (Appends (K.took sink.old) (K.took sink.new) (pair_text reply.now)) }
    ensures err { OnErr result (AppendsPrefix (K.took sink.old) (K.took sink.new) (pair_text reply.now)) }
    ensures cause { HasCause (K.faults sink.old) (K.faults sink.new) result }
{
    let mut line = Text::new();
    put_pair_reply(&mut line, reply);
    line.put(b"\n");
    sink.put(line.as_slice())
}

/// Each reply of a pair is one line.
pub fn pair_replies_are_lines()
    ensures { PairRepliesAreLines }
{}
