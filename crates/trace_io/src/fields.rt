//! The fields of a call, by the words after the first. The last field is read from all that is
//! left: where a space is in it, it is no field of any kind.
ghost use Rattle.std.specs.Prelude.{◌≡◌};
ghost use Rattle.trace_io.specs.Grammar.{only_id, only_number, number_and_type, id_and_number, two_numbers, number_and_mode, number_and_count, number_and_bytes, place, window, nothing};
ghost use Rattle.trace_io.specs.Words.{rest_words};

use crate::words::{bytes, count, cut, id, kind, mode, number, split_word};
use flat_machine::Piece;

#[tactic(auto, unfolding(crate::specs::Grammar::only_id), using(crate::proofs::LastFields::only_id_last))]
pub(crate) fn only_id(rest: Option<&[u8]>) -> Option<u64>
    ensures { result ≡ only_id (rest_words rest.entry) }
{
    id(rest?)
}

#[tactic(auto, unfolding(crate::specs::Grammar::only_number), using(crate::proofs::LastFields::only_number_last))]
pub(crate) fn only_number(rest: Option<&[u8]>) -> Option<u32>
    ensures { result ≡ only_number (rest_words rest.entry) }
{
    number(rest?)
}

#[tactic(auto, unfolding(crate::specs::Grammar::number_and_type))]
pub(crate) fn number_and_type(rest: Option<&[u8]>) -> Option<(u32, u16)>
    ensures { result ≡ number_and_type (rest_words rest.entry) }
{
    let (a, b) = split_word(rest?)?;
    Some((number(a)?, kind(b)?))
}

#[tactic(auto, unfolding(crate::specs::Grammar::id_and_number))]
pub(crate) fn id_and_number(rest: Option<&[u8]>) -> Option<(u64, u32)>
    ensures { result ≡ id_and_number (rest_words rest.entry) }
{
    let (a, b) = split_word(rest?)?;
    Some((id(a)?, number(b)?))
}

#[tactic(auto, unfolding(crate::specs::Grammar::two_numbers))]
pub(crate) fn two_numbers(rest: Option<&[u8]>) -> Option<(u32, u32)>
    ensures { result ≡ two_numbers (rest_words rest.entry) }
{
    let (a, b) = split_word(rest?)?;
    Some((number(a)?, number(b)?))
}

#[tactic(auto, unfolding(crate::specs::Grammar::number_and_mode))]
pub(crate) fn number_and_mode(rest: Option<&[u8]>) -> Option<(u32, bool)>
    ensures { result ≡ number_and_mode (rest_words rest.entry) }
{
    let (a, b) = split_word(rest?)?;
    Some((number(a)?, mode(b)?))
}

#[tactic(auto, unfolding(crate::specs::Grammar::number_and_count))]
pub(crate) fn number_and_count(rest: Option<&[u8]>) -> Option<(u32, u8)>
    ensures { result ≡ number_and_count (rest_words rest.entry) }
{
    let (a, b) = split_word(rest?)?;
    Some((number(a)?, count(b)?))
}

#[tactic(auto, unfolding(crate::specs::Grammar::number_and_bytes))]
pub(crate) fn number_and_bytes(rest: Option<&[u8]>) -> Option<(u32, Piece)>
    ensures { result ≡ number_and_bytes (rest_words rest.entry) }
{
    let (a, b) = split_word(rest?)?;
    Some((number(a)?, bytes(b)?))
}

#[tactic(auto, unfolding(crate::specs::Grammar::place))]
pub(crate) fn place(rest: Option<&[u8]>) -> Option<(u32, u32, Option<u32>)>
    ensures { result ≡ place (rest_words rest.entry) }
{
    let (parent, more) = split_word(rest?)?;
    let (pages, first) = cut(more);
    let parent = number(parent)?;
    let pages = number(pages)?;
    match first {
        Some(first) => Some((parent, pages, Some(number(first)?))),
        None => Some((parent, pages, None)),
    }
}

#[tactic(auto, unfolding(crate::specs::Grammar::window))]
pub(crate) fn window(rest: Option<&[u8]>) -> Option<(u32, u64, u32, bool)>
    ensures { result ≡ window (rest_words rest.entry) }
{
    let (space, rest) = split_word(rest?)?;
    let (file, rest) = split_word(rest)?;
    let (page, writable) = split_word(rest)?;
    Some((number(space)?, id(file)?, number(page)?, mode(writable)?))
}

#[tactic(auto, unfolding(crate::specs::Grammar::nothing), using(crate::proofs::WordLemmas::words_some))]
pub(crate) fn nothing(rest: Option<&[u8]>) -> Option<()>
    ensures { result ≡ nothing (rest_words rest.entry) }
{
    match rest {
        None => Some(()),
        Some(_) => None,
    }
}
