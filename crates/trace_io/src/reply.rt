//! The lines of replies.
ghost use Rattle.std.specs.Prelude.{◌≡◌, ◌≤◌, ◌+◌, ◌++◌, length, OnOk, OnErr, codes};
ghost use Rattle.std.specs.Io.KnownBytes.{Appends};
ghost use Rattle.trace_io.specs.Stream.{HasCause, AppendsPrefix};
ghost use Rattle.flat_machine.specs.Text.{reply_text, refusal_text, text};

use crate::text::Text;
use crate::{Sink, SinkFault};
use flat_machine::{Refusal, Reply};

// Puts the text of a reply after what the line has.
pub(crate) fn put_reply(line: &mut Text, reply: &Reply)
    requires { length line.old ≤ 31 }
    ensures text { line.new ≡ line.old ++ reply_text reply.now }
    ensures short { length line.new ≤ length line.old + 160 }
{
    match reply {
        Reply::Done => line.put(b"ok"),
        Reply::File(id) => {
            line.put(b"file ");
            line.put_hex(&id.to_be_bytes());
        }
        Reply::Attributes {
            pages,
            kind,
            permanent,
            immutable,
        } => {
            line.put(b"attr ");
            line.put_number(*pages);
            line.put(b" ");
            line.put_number(u32::from(*kind));
            line.put(if *permanent { b" perm" } else { b" temp" });
            line.put(if *immutable {
                b" immutable".as_slice()
            } else {
                b" mutable".as_slice()
            });
        }
        Reply::Volume { capacity, free } => {
            line.put(b"volume ");
            line.put_number(*capacity);
            line.put(b" ");
            line.put_number(*free);
        }
        Reply::Nothing => line.put(b"none"),
        Reply::Space { handle, first } => {
            line.put(b"space ");
            line.put_number(*handle);
            line.put(b" ");
            line.put_number(*first);
        }
        Reply::Place {
            handle,
            first,
            pages,
        } => {
            line.put(b"where ");
            line.put_number(*handle);
            line.put(b" ");
            line.put_number(*first);
            line.put(b" ");
            line.put_number(*pages);
        }
        Reply::Bytes(piece) => {
            line.put(b"bytes ");
            line.put_hex(piece.as_slice());
        }
        Reply::Refused(why) => put_refusal(line, *why),
    }
}

// Puts the text of a refusal after what the line has.
fn put_refusal(line: &mut Text, why: Refusal)
    requires { length line.old ≤ 31 }
    ensures text { line.new ≡ line.old ++ (codes "error " ++ refusal_text why) }
    ensures short { length line.new ≤ length line.old + 160 }
{
    match why {
        Refusal::Syntax => line.put(b"error syntax"),
        Refusal::Space => line.put(b"error space"),
        Refusal::File => line.put(b"error file"),
        Refusal::Size => line.put(b"error size"),
        Refusal::Full => line.put(b"error full"),
        Refusal::Spaces => line.put(b"error spaces"),
        Refusal::Gap => line.put(b"error gap"),
        Refusal::Range => line.put(b"error range"),
        Refusal::Children => line.put(b"error children"),
        Refusal::Mapped(handle) => {
            line.put(b"error mapped ");
            line.put_number(handle);
        }
        Refusal::Window => line.put(b"error window"),
        Refusal::Immutable => line.put(b"error immutable"),
        Refusal::NotMapped => line.put(b"error notmapped"),
        Refusal::NoMap(page) => {
            line.put(b"error nomap ");
            line.put_number(page);
        }
        Refusal::ReadOnly(page) => {
            line.put(b"error readonly ");
            line.put_number(page);
        }
        Refusal::FileMapped(handle) => {
            line.put(b"error filemapped ");
            line.put_number(handle);
        }
        Refusal::Root => line.put(b"error root"),
        Refusal::Ids => line.put(b"error ids"),
    }
}

/// Writes the line of a reply, or at an error a prefix of it.
#[tactic(auto, unfolding(flat_machine::specs::Text::text))]
pub fn write_reply<K: Sink>(sink: &mut K, reply: &Reply) -> Result<(), SinkFault>
    ensures ok { OnOk result (Appends (K.took sink.old) (K.took sink.new) (text reply.now)) }
    ensures err { OnErr result (AppendsPrefix (K.took sink.old) (K.took sink.new) (text reply.now)) }
    ensures cause { HasCause (K.faults sink.old) (K.faults sink.new) result }
{
    let mut line = Text::new();
    put_reply(&mut line, reply);
    line.put(b"\n");
    sink.put(line.as_slice())
}
