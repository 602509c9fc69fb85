//! The fields of an event, by the words after the first.
ghost use Rattle.std.specs.Prelude.{◌≡◌, if◌then◌else◌, IfNone, IfSome, None, Some};
ghost use Rattle.std.specs.List.{list_all};
ghost use Rattle.std.specs.Char.{is_ascii_digit};
ghost use Rattle.flat_machine.specs.After.{ends_trace};
ghost use Rattle.trace_io.specs.Grammar.{both, words_of};
ghost use Rattle.trace_io.specs.EventGrammar.{wide_value_of, flight_of, client_of, unending_of, client_and_call, only_flight};
ghost use Rattle.trace_io.specs.Words.{rest_words};

use crate::words::{cut, number, split_word};
use flat_machine::Call;

// The number of some digits, if there is nothing else and the number is below 2 ^ 64.
fn wide_value(word: &[u8]) -> Option<u64>
    ensures { result ≡ (if list_all is_ascii_digit word.now then wide_value_of word.now else None) }
{
    let mut n: u128 = 0;
    for b in word {
        if !b.is_ascii_digit() {
            return None;
        }
        n = n * 10 + u128::from(*b - b'0');
        if n > u128::from(u64::MAX) {
            return None;
        }
    }
    Some(n as u64)
}

#[tactic(auto, unfolding(crate::specs::EventGrammar::flight_of))]
fn flight(word: &[u8]) -> Option<u64>
    ensures { result ≡ flight_of word.now }
{
    if word.is_empty() || word.len() > 1 && word[0] == b'0' {
        return None;
    }
    wide_value(word)
}

#[tactic(auto, unfolding(crate::specs::EventGrammar::client_of))]
fn client(word: &[u8]) -> Option<u8>
    ensures { result ≡ client_of word.now }
{
    let n = number(word)?;
    if n < 1 || n > 16 {
        return None;
    }
    Some(n as u8)
}

// Whether a call ends the session.
pub(crate) fn ends_session(call: &Call) -> bool
    ensures { result ≡ ends_trace call.now }
{
    matches!(call, Call::Close | Call::Halt)
}

// A client and the line of its call, where a text begins with a client and a space.
pub(crate) fn plain_client(text: &[u8]) -> Option<(u8, &[u8])>
    ensures { IfSome result
        (λ p. client_and_call (words_of text.now) ≡ both (Some p.0) (unending_of (words_of p.1.now))) }
{
    if text.len() > 1 && text[1] == b' ' && text[0] >= b'1' && text[0] <= b'9' {
        return Some((text[0] - b'0', &text[2..]));
    }
    if text.len() > 2 && text[2] == b' ' && text[0] == b'1' && text[1] >= b'0' && text[1] <= b'6' {
        return Some((10 + (text[1] - b'0'), &text[3..]));
    }
    None
}

// A client and the line of its call.
#[tactic(auto, unfolding(crate::specs::EventGrammar::client_and_call))]
pub(crate) fn client_and_line(text: &[u8]) -> Option<(u8, &[u8])>
    ensures some { IfSome result
        (λ p. client_and_call (words_of text.now) ≡ both (Some p.0) (unending_of (words_of p.1.now))) }
    ensures none { IfNone result (client_and_call (words_of text.now) ≡ None) }
{
    let (first, line) = split_word(text)?;
    Some((client(first)?, line))
}

#[tactic(auto, unfolding(crate::specs::EventGrammar::only_flight))]
pub(crate) fn only_flight(rest: Option<&[u8]>) -> Option<u64>
    ensures { result ≡ only_flight (rest_words rest.entry) }
{
    let (word, more) = cut(rest?);
    match more {
        Some(_) => None,
        None => flight(word),
    }
}
