//! What a line for a pair of volumes says.
ghost use Rattle.std.specs.Prelude.{◌≡◌, ◌≤◌, length};
ghost use Rattle.trace_io.specs.Grammar.{words_of};
ghost use Rattle.trace_io.specs.PairGrammar.{compared, copied, pair_closed, pair_item_of, pair_item_of_words};
ghost use Rattle.trace_io.specs.PairLines.{pair_line_at};
ghost use Rattle.trace_io.specs.Words.{rest_words};

use crate::fields::{nothing, only_id};
use crate::words::cut;
use pair_machine::PairCall;

/// The next line for a pair of volumes.
#[derive(Drop)]
pub enum PairLine {
    /// The call that the line says.
    Call(PairCall),
    /// The copying ends.
    Close,
    /// The line is no call.
    Bad,
    /// The source ended, with fewer bytes than the limit taken, and no byte stands after the last
    /// line.
    End,
    /// The source failed.
    ReadFault,
    /// As many bytes as the limit were taken, and a further one is needed.
    Long,
}

fn copy_in(rest: Option<&[u8]>) -> PairLine
    ensures { result ≡ pair_line_at (copied (rest_words rest.entry)) }
{
    match only_id(rest) {
        Some(id) => PairLine::Call(PairCall::Copy { id }),
        None => PairLine::Bad,
    }
}

fn compare_in(rest: Option<&[u8]>) -> PairLine
    ensures { result ≡ pair_line_at (compared (rest_words rest.entry)) }
{
    match only_id(rest) {
        Some(id) => PairLine::Call(PairCall::Compare { id }),
        None => PairLine::Bad,
    }
}

fn close_in(rest: Option<&[u8]>) -> PairLine
    ensures { result ≡ pair_line_at (pair_closed (rest_words rest.entry)) }
{
    match nothing(rest) {
        Some(()) => PairLine::Close,
        None => PairLine::Bad,
    }
}

// What the words of a line say.
#[tactic(auto, unfolding(crate::specs::PairGrammar::pair_item_of_words))]
fn pair_line_by_words(line: &[u8]) -> PairLine
    ensures { result ≡ pair_line_at (pair_item_of_words (words_of line.now)) }
{
    let (word, rest) = cut(line);
    if word == b"copy".as_slice() {
        return copy_in(rest);
    }
    if word == b"compare".as_slice() {
        return compare_in(rest);
    }
    if word == b"close".as_slice() {
        return close_in(rest);
    }
    PairLine::Bad
}

// What a line says that is not too long.
pub(crate) fn pair_line_in(line: &[u8]) -> PairLine
    requires { length line.now ≤ 255 }
    ensures { result ≡ pair_line_at (pair_item_of line.now) }
{
    pair_line_by_words(line)
}
