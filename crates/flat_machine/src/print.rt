//! The text of a call, as a client writes it: its word, and its fields in one order for all calls.

use crate::Call;
use labelled_disk::FileId;
use std::fmt::{self, Display, Formatter, Write};

fn word(call: &Call) -> &'static str {
    match call {
        Call::Create { .. } => "create",
        Call::Delete { .. } => "delete",
        Call::Attributes { .. } => "attr",
        Call::SetSize { .. } => "setsize",
        Call::MakePermanent { .. } => "permanent",
        Call::MakeImmutable { .. } => "immutable",
        Call::Next { .. } => "next",
        Call::Volume => "volume",
        Call::MakeSpace { .. } => "space",
        Call::RemoveSpace { .. } => "remove",
        Call::Place { .. } => "where",
        Call::Units { .. } => "units",
        Call::Map { .. } => "map",
        Call::MapAnonymous { .. } => "mapdata",
        Call::Unmap { .. } => "unmap",
        Call::Protect { .. } => "protect",
        Call::Load { .. } => "load",
        Call::Store { .. } => "store",
        Call::Activate { .. } => "activate",
        Call::Deactivate { .. } => "deactivate",
        Call::Kill { .. } => "kill",
        Call::ForceOut { .. } => "force",
        Call::Close => "close",
        Call::Halt => "halt",
    }
}

// The number right after the word.
fn number(call: &Call) -> Option<u32> {
    match call {
        Call::Create { pages: n, .. }
        | Call::MakeSpace { parent: n, .. }
        | Call::RemoveSpace { space: n }
        | Call::Place { page: n }
        | Call::Units { space: n, .. }
        | Call::Map { space: n, .. }
        | Call::MapAnonymous { space: n }
        | Call::Unmap { space: n }
        | Call::Protect { space: n, .. }
        | Call::Load { address: n, .. }
        | Call::Store { address: n, .. }
        | Call::Activate { space: n }
        | Call::Deactivate { space: n }
        | Call::Kill { space: n }
        | Call::ForceOut { space: n } => Some(*n),
        _ => None,
    }
}

fn id(call: &Call) -> Option<FileId> {
    match call {
        Call::Delete { id }
        | Call::Attributes { id }
        | Call::SetSize { id, .. }
        | Call::MakePermanent { id }
        | Call::MakeImmutable { id }
        | Call::Next { id }
        | Call::Map { id, .. } => Some(*id),
        _ => None,
    }
}

// The number after another field.
fn then_number(call: &Call) -> Option<u32> {
    match call {
        Call::Create { kind, .. } => Some(u32::from(*kind)),
        Call::SetSize { pages: n, .. }
        | Call::MakeSpace { pages: n, .. }
        | Call::Units { pages: n, .. }
        | Call::Map { page: n, .. } => Some(*n),
        Call::Load { count, .. } => Some(u32::from(*count)),
        _ => None,
    }
}

// The last field, where it is not a number that each call of its kind has.
fn put_last<W: Write>(f: &mut Formatter<W>, call: &Call) -> fmt::Result {
    match call {
        Call::MakeSpace {
            first: Some(first),
            ..
        } => write!(f, " {first}"),
        Call::Map { writable, .. } | Call::Protect { writable, .. } => {
            f.write_str(if *writable { " rw" } else { " ro" })
        }
        Call::Store { bytes, .. } => {
            f.write_str(" ")?;
            for byte in bytes.as_slice() {
                write!(f, "{byte:02x}")?;
            }
            Ok(())
        }
        _ => Ok(()),
    }
}

impl Display for Call {
    fn fmt<W: Write>(&self, f: &mut Formatter<W>) -> fmt::Result {
        f.write_str(word(self))?;
        if let Some(n) = number(self) {
            write!(f, " {n}")?;
        }
        if let Some(id) = id(self) {
            write!(f, " {id:016x}")?;
        }
        if let Some(n) = then_number(self) {
            write!(f, " {n}")?;
        }
        put_last(f, self)
    }
}
