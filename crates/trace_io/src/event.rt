//! What a line of events says.
ghost use Rattle.std.specs.Prelude.{◌≡◌, ◌≤◌, ◌∷◌, IfNone, IfSome, codes, length};
ghost use Rattle.trace_io.specs.Grammar.{words_of};
ghost use Rattle.trace_io.specs.EventGrammar.{event_of, event_of_words, landed, closed, halted, AsksFor, AsksNothing};
ghost use Rattle.trace_io.specs.Events.{event_at};
ghost use Rattle.trace_io.specs.Words.{rest_words};

use crate::calls::call_of;
use crate::event_fields::{client_and_line, ends_session, only_flight, plain_client};
use crate::fields::nothing;
use crate::words::cut;
use flat_machine::Call;

/// The next event of clients that share a session.
#[derive(Drop)]
pub enum Event {
    /// A client from 1 to 16 asks for a call. It is in form, and does not end the session.
    Ask { client: u8, call: Call },
    /// The flight of this number is done.
    Done(u64),
    /// The session is closed.
    Close,
    /// The session is halted.
    Halt,
    /// The line is no event.
    Bad,
    /// The source ended, with fewer bytes than the limit taken, and no byte stands after the last
    /// line.
    End,
    /// The source failed.
    ReadFault,
    /// As many bytes as the limit were taken, and a further one is needed.
    Long,
}

fn done_in(rest: Option<&[u8]>) -> Event
    ensures { result ≡ event_at (landed (rest_words rest.entry)) }
{
    match only_flight(rest) {
        Some(flight) => Event::Done(flight),
        None => Event::Bad,
    }
}

fn close_in(rest: Option<&[u8]>) -> Event
    ensures { result ≡ event_at (closed (rest_words rest.entry)) }
{
    match nothing(rest) {
        Some(()) => Event::Close,
        None => Event::Bad,
    }
}

fn halt_in(rest: Option<&[u8]>) -> Event
    ensures { result ≡ event_at (halted (rest_words rest.entry)) }
{
    match nothing(rest) {
        Some(()) => Event::Halt,
        None => Event::Bad,
    }
}

// What a line says by which no client asks.
#[tactic(auto, unfolding(crate::specs::EventGrammar::event_of_words))]
fn other_event(line: &[u8]) -> Event
    requires { AsksNothing line.now }
    ensures { result ≡ event_at (event_of_words (words_of line.now)) }
{
    let (word, rest) = cut(line);
    if word == b"on".as_slice() {
        return Event::Bad;
    }
    if word == b"done".as_slice() {
        return done_in(rest);
    }
    if word == b"close".as_slice() {
        return close_in(rest);
    }
    if word == b"halt".as_slice() {
        return halt_in(rest);
    }
    Event::Bad
}

// Which client asks by a line, and the line of its call, by the words.
fn asking_by_words(line: &[u8]) -> Option<(u8, &[u8])>
    ensures some { IfSome result (λ p. AsksFor line.now p.0 p.1.now) }
    ensures none { IfNone result (AsksNothing line.now) }
{
    let (word, rest) = cut(line);
    if word == b"on".as_slice() {
        return match rest {
            Some(text) => client_and_line(text),
            None => None,
        };
    }
    None
}

// What stands after `on` and a space, where a line begins so.
fn text_of_asking(line: &[u8]) -> Option<&[u8]>
    ensures { IfSome result (λ rest. words_of line.now ≡ codes "on" ∷ words_of rest.now) }
{
    if line.len() > 2 && line[0] == b'o' && line[1] == b'n' && line[2] == b' ' {
        return Some(&line[3..]);
    }
    None
}

// Which client asks by a line, and the line of its call. Where they must stand, `on` and a client are looked for
// before words are cut.
fn asking(line: &[u8]) -> Option<(u8, &[u8])>
    ensures some { IfSome result (λ p. AsksFor line.now p.0 p.1.now) }
    ensures none { IfNone result (AsksNothing line.now) }
{
    if let Some(text) = text_of_asking(line) {
        if let Some(found) = plain_client(text) {
            return Some(found);
        }
    }
    asking_by_words(line)
}

// What a line says that is not too long. The call is read in one place, so that the event is put together once.
pub(crate) fn event_in(line: &[u8]) -> Event
    requires { length line.now ≤ 255 }
    ensures { result ≡ event_at (event_of line.now) }
{
    let Some((client, rest)) = asking(line) else {
        return other_event(line);
    };
    let Some(call) = call_of(rest) else {
        return Event::Bad;
    };
    if ends_session(&call) {
        return Event::Bad;
    }
    Event::Ask { client, call }
}
