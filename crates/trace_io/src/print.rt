//! The lines of calls, for clients that write traces.
ghost use Rattle.std.specs.Prelude.{◌≡◌, ◌≤◌, [], get_or, length, OnOk, OnErr};
ghost use Rattle.std.specs.Io.KnownBytes.{Appends};
ghost use Rattle.trace_io.specs.Stream.{HasCause, AppendsPrefix};
ghost use Rattle.trace_io.specs.CallText.{call_text, call_words, call_line};

use crate::text::Text;
use crate::{Sink, SinkFault};
use flat_machine::Call;

// The first word of a call.
fn word(call: &Call) -> &'static [u8]
    ensures word { result.now ≡ get_or (call_words call.now) 0 [] }
    ensures short { length result.now ≤ 10 }
{
    match call {
        Call::Create { .. } => b"create",
        Call::Delete { .. } => b"delete",
        Call::Attributes { .. } => b"attr",
        Call::SetSize { .. } => b"setsize",
        Call::MakePermanent { .. } => b"permanent",
        Call::MakeImmutable { .. } => b"immutable",
        Call::Next { .. } => b"next",
        Call::Volume => b"volume",
        Call::MakeSpace { first: None, .. } => b"space",
        Call::MakeSpace { first: Some(_), .. } => b"space",
        Call::RemoveSpace { .. } => b"remove",
        Call::Place { .. } => b"where",
        Call::Units { .. } => b"units",
        Call::Map { .. } => b"map",
        Call::MapAnonymous { .. } => b"mapdata",
        Call::Unmap { .. } => b"unmap",
        Call::Protect { .. } => b"protect",
        Call::Load { .. } => b"load",
        Call::Store { .. } => b"store",
        Call::Activate { .. } => b"activate",
        Call::Deactivate { .. } => b"deactivate",
        Call::Kill { .. } => b"kill",
        Call::ForceOut { .. } => b"force",
        Call::Close => b"close",
        Call::Halt => b"halt",
    }
}

// Puts the text of a call into a line that has no byte yet.
#[tactic(auto, unfolding(crate::specs::CallText::call_text))]
fn put_call(line: &mut Text, call: &Call)
    requires { line.old ≡ [] }
    ensures text { line.new ≡ call_text call.now }
    ensures short { length line.new ≤ 191 }
{
    line.put(word(call));
    match call {
        Call::Delete { id }
        | Call::Attributes { id }
        | Call::MakePermanent { id }
        | Call::MakeImmutable { id }
        | Call::Next { id } => line.then_id(*id),
        Call::SetSize { id, pages } => {
            line.then_id(*id);
            line.then_number(*pages);
        }
        Call::RemoveSpace { space: n }
        | Call::Place { page: n }
        | Call::MapAnonymous { space: n }
        | Call::Unmap { space: n }
        | Call::Activate { space: n }
        | Call::Deactivate { space: n }
        | Call::Kill { space: n }
        | Call::ForceOut { space: n } => line.then_number(*n),
        Call::Create { pages, kind } => {
            line.then_number(*pages);
            line.then_number(u32::from(*kind));
        }
        Call::Units { space, pages } => {
            line.then_number(*space);
            line.then_number(*pages);
        }
        Call::MakeSpace {
            parent,
            pages,
            first,
        } => {
            line.then_number(*parent);
            line.then_number(*pages);
            match first {
                Some(first) => line.then_number(*first),
                None => {}
            }
        }
        Call::Map {
            space,
            id,
            page,
            writable,
        } => {
            line.then_number(*space);
            line.then_id(*id);
            line.then_number(*page);
            line.then_mode(*writable);
        }
        Call::Protect { space, writable } => {
            line.then_number(*space);
            line.then_mode(*writable);
        }
        Call::Load { address, count } => {
            line.then_number(*address);
            line.then_number(u32::from(*count));
        }
        Call::Store { address, bytes } => {
            line.then_number(*address);
            line.put(b" ");
            line.put_hex(bytes.as_slice());
        }
        Call::Volume | Call::Close | Call::Halt => {}
    }
}

/// Writes the line of a call, or at an error a prefix of it.
pub fn write_call<K: Sink>(sink: &mut K, call: &Call) -> Result<(), SinkFault>
    ensures ok { OnOk result (Appends (K.took sink.old) (K.took sink.new) (call_line call.now)) }
    ensures err { OnErr result (AppendsPrefix (K.took sink.old) (K.took sink.new) (call_line call.now)) }
    ensures cause { HasCause (K.faults sink.old) (K.faults sink.new) result }
{
    let mut line = Text::new();
    put_call(&mut line, call);
    line.put(b"\n");
    sink.put(line.as_slice())
}
