//! What a line says, by its words.
ghost use Rattle.std.specs.Prelude.{◌≡◌, if◌then◌else◌, Some, None};
ghost use Rattle.std.specs.Str.{bytes_eq};
ghost use Rattle.trace_io.specs.Grammar.{verb_of, with_fields, call_of};
ghost use Rattle.trace_io.specs.Groups.{IsOfFiles, IsOfSpaces, IsOfWindows};
ghost use Rattle.trace_io.specs.Lines.{line_of};
ghost use Rattle.trace_io.specs.Words.{rest_words};

use crate::Line;
use crate::fields::{
    id_and_number, nothing, number_and_bytes, number_and_count, number_and_mode, number_and_type,
    only_id, only_number, place, two_numbers, window,
};
use crate::words::cut;
use flat_machine::Call;

#[derive(Clone, Copy)]
pub(crate) enum Verb {
    Create,
    Delete,
    Attr,
    SetSize,
    Permanent,
    Immutable,
    Next,
    Volume,
    Space,
    Remove,
    Where,
    Units,
    Map,
    MapData,
    Unmap,
    Protect,
    Load,
    Store,
    Activate,
    Deactivate,
    Kill,
    Force,
    Close,
    Halt,
}

// The verb, where the word is its name.
fn named(word: &[u8], name: &[u8], verb: Verb) -> Option<Verb>
    ensures { result ≡ (if bytes_eq word.now name.now then Some verb else None) }
{
    if word.len() == name.len() && word == name {
        Some(verb)
    } else {
        None
    }
}

fn verb_of(word: &[u8]) -> Option<Verb>
    ensures { result ≡ verb_of word.now }
{
    match *word.first()? {
        b'c' => named(word, b"create", Verb::Create).or(named(word, b"close", Verb::Close)),
        b'd' => named(word, b"delete", Verb::Delete).or(named(
            word,
            b"deactivate",
            Verb::Deactivate,
        )),
        b'a' => named(word, b"attr", Verb::Attr).or(named(word, b"activate", Verb::Activate)),
        b's' => named(word, b"setsize", Verb::SetSize)
            .or(named(word, b"space", Verb::Space))
            .or(named(word, b"store", Verb::Store)),
        b'p' => named(word, b"permanent", Verb::Permanent).or(named(
            word,
            b"protect",
            Verb::Protect,
        )),
        b'i' => named(word, b"immutable", Verb::Immutable),
        b'n' => named(word, b"next", Verb::Next),
        b'v' => named(word, b"volume", Verb::Volume),
        b'r' => named(word, b"remove", Verb::Remove),
        b'w' => named(word, b"where", Verb::Where),
        b'u' => named(word, b"units", Verb::Units).or(named(word, b"unmap", Verb::Unmap)),
        b'm' => named(word, b"map", Verb::Map).or(named(word, b"mapdata", Verb::MapData)),
        b'l' => named(word, b"load", Verb::Load),
        b'k' => named(word, b"kill", Verb::Kill),
        b'f' => named(word, b"force", Verb::Force),
        b'h' => named(word, b"halt", Verb::Halt),
        _ => None,
    }
}

// The calls of files.
#[tactic(auto, unfolding(crate::specs::Grammar::with_fields))]
fn file_call(verb: Verb, rest: Option<&[u8]>) -> Option<Call>
    ensures { IsOfFiles verb → result ≡ with_fields verb (rest_words rest.entry) }
{
    match verb {
        Verb::Create => {
            let (pages, kind) = number_and_type(rest)?;
            Some(Call::Create { pages, kind })
        }
        Verb::Delete => {
            let id = only_id(rest)?;
            Some(Call::Delete { id })
        }
        Verb::Attr => {
            let id = only_id(rest)?;
            Some(Call::Attributes { id })
        }
        Verb::SetSize => {
            let (id, pages) = id_and_number(rest)?;
            Some(Call::SetSize { id, pages })
        }
        Verb::Permanent => {
            let id = only_id(rest)?;
            Some(Call::MakePermanent { id })
        }
        Verb::Immutable => {
            let id = only_id(rest)?;
            Some(Call::MakeImmutable { id })
        }
        Verb::Next => {
            let id = only_id(rest)?;
            Some(Call::Next { id })
        }
        Verb::Volume => {
            nothing(rest)?;
            Some(Call::Volume)
        }
        _ => None,
    }
}

// The calls of spaces.
#[tactic(auto, unfolding(crate::specs::Grammar::with_fields))]
fn space_call(verb: Verb, rest: Option<&[u8]>) -> Option<Call>
    ensures { IsOfSpaces verb → result ≡ with_fields verb (rest_words rest.entry) }
{
    match verb {
        Verb::Space => {
            let (parent, pages, first) = place(rest)?;
            Some(Call::MakeSpace {
                parent,
                pages,
                first,
            })
        }
        Verb::Remove => {
            let space = only_number(rest)?;
            Some(Call::RemoveSpace { space })
        }
        Verb::Where => {
            let page = only_number(rest)?;
            Some(Call::Place { page })
        }
        Verb::Units => {
            let (space, pages) = two_numbers(rest)?;
            Some(Call::Units { space, pages })
        }
        Verb::Activate => {
            let space = only_number(rest)?;
            Some(Call::Activate { space })
        }
        Verb::Deactivate => {
            let space = only_number(rest)?;
            Some(Call::Deactivate { space })
        }
        Verb::Kill => {
            let space = only_number(rest)?;
            Some(Call::Kill { space })
        }
        Verb::Force => {
            let space = only_number(rest)?;
            Some(Call::ForceOut { space })
        }
        _ => None,
    }
}

// The calls of windows and of their bytes.
#[tactic(auto, unfolding(crate::specs::Grammar::with_fields))]
fn window_call(verb: Verb, rest: Option<&[u8]>) -> Option<Call>
    ensures { IsOfWindows verb → result ≡ with_fields verb (rest_words rest.entry) }
{
    match verb {
        Verb::Map => {
            let (space, id, page, writable) = window(rest)?;
            Some(Call::Map {
                space,
                id,
                page,
                writable,
            })
        }
        Verb::MapData => {
            let space = only_number(rest)?;
            Some(Call::MapAnonymous { space })
        }
        Verb::Unmap => {
            let space = only_number(rest)?;
            Some(Call::Unmap { space })
        }
        Verb::Protect => {
            let (space, writable) = number_and_mode(rest)?;
            Some(Call::Protect { space, writable })
        }
        Verb::Load => {
            let (address, count) = number_and_count(rest)?;
            Some(Call::Load { address, count })
        }
        Verb::Store => {
            let (address, bytes) = number_and_bytes(rest)?;
            Some(Call::Store { address, bytes })
        }
        _ => None,
    }
}

// The call of a verb and the words after it.
#[tactic(auto, unfolding(crate::specs::Grammar::with_fields))]
fn with_fields(verb: Verb, rest: Option<&[u8]>) -> Option<Call>
    ensures { result ≡ with_fields verb (rest_words rest.entry) }
{
    match verb {
        Verb::Create
        | Verb::Delete
        | Verb::Attr
        | Verb::SetSize
        | Verb::Permanent
        | Verb::Immutable
        | Verb::Next
        | Verb::Volume => file_call(verb, rest),
        Verb::Space
        | Verb::Remove
        | Verb::Where
        | Verb::Units
        | Verb::Activate
        | Verb::Deactivate
        | Verb::Kill
        | Verb::Force => space_call(verb, rest),
        Verb::Map | Verb::MapData | Verb::Unmap | Verb::Protect | Verb::Load | Verb::Store =>
            window_call(verb, rest),
        Verb::Close => {
            nothing(rest)?;
            Some(Call::Close)
        }
        Verb::Halt => {
            nothing(rest)?;
            Some(Call::Halt)
        }
    }
}

/// The call of a line, if it is one.
#[tactic(auto, unfolding(crate::specs::Grammar::call_of_words))]
pub(crate) fn call_of(line: &[u8]) -> Option<Call>
    ensures { result ≡ call_of line.now }
{
    let (word, rest) = cut(line);
    with_fields(verb_of(word)?, rest)
}

/// What a line says.
pub(crate) fn line_of(line: &[u8]) -> Line
    ensures { result ≡ line_of (call_of line.now) }
{
    match call_of(line) {
        Some(call) => Line::Call(call),
        None => Line::Bad,
    }
}
