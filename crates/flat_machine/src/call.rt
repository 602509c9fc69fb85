//! Calls of a client, and the answers to them.

use crate::Piece;
use labelled_disk::FileId;
use std::error::Error;
use std::fmt::{self, Display, Formatter, Write};

/// A call of a client. Spaces are named by their handles; a page without a file is one of the
/// virtual memory.
#[derive(Drop)]
pub enum Call {
    /// Makes a temporary file of so many zero pages.
    Create {
        pages: u32,
        kind: u16,
    },
    /// Removes a file.
    Delete {
        id: FileId,
    },
    /// Asks for the attributes of a file.
    Attributes {
        id: FileId,
    },
    /// Cuts a file, or appends zero pages to it.
    SetSize {
        id: FileId,
        pages: u32,
    },
    /// Lets a file outlast the session.
    MakePermanent {
        id: FileId,
    },
    /// Lets nobody write to a file again.
    MakeImmutable {
        id: FileId,
    },
    /// Asks for the file with the least identifier above this one.
    Next {
        id: FileId,
    },
    /// Asks for the capacity, and for what is free of it.
    Volume,
    /// Makes a space inside its parent, at a page or in the lowest gap that is long enough.
    MakeSpace {
        parent: u32,
        pages: u32,
        first: Option<u32>,
    },
    /// Removes a space.
    RemoveSpace {
        space: u32,
    },
    /// Asks for the innermost space at a page.
    Place {
        page: u32,
    },
    /// Sets the number of pages that are swapped together.
    Units {
        space: u32,
        pages: u32,
    },
    /// Shows a file in a space, from this page of the file on.
    Map {
        space: u32,
        id: FileId,
        page: u32,
        writable: bool,
    },
    /// Shows a new file that no other call can name.
    MapAnonymous {
        space: u32,
    },
    /// Takes the window of a space away.
    Unmap {
        space: u32,
    },
    /// Makes the window of a space writable or read-only.
    Protect {
        space: u32,
        writable: bool,
    },
    /// Asks for 1 to 64 bytes at an address.
    Load {
        address: u32,
        count: u8,
    },
    /// Sets 1 to 64 bytes at an address.
    Store {
        address: u32,
        bytes: Piece,
    },
    /// Advises that the pages of a space will be used soon.
    Activate {
        space: u32,
    },
    /// Advises that the pages of a space will not be used soon.
    Deactivate {
        space: u32,
    },
    /// Advises that the contents of a space will not be wanted.
    Kill {
        space: u32,
    },
    /// Makes the files hold what the space holds.
    ForceOut {
        space: u32,
    },
    /// Ends the session, and closes the volume.
    Close,
    /// Ends the session, and leaves the volume as it is.
    Halt,
}

/// The answer to a call.
#[derive(Drop)]
pub enum Reply {
    Done,
    File(FileId),
    /// There is no further file.
    Nothing,
    Attributes {
        pages: u32,
        kind: u16,
        permanent: bool,
        immutable: bool,
    },
    Volume {
        capacity: u32,
        free: u32,
    },
    Space {
        handle: u32,
        first: u32,
    },
    Place {
        handle: u32,
        first: u32,
        pages: u32,
    },
    Bytes(Piece),
    Refused(Refusal),
}

/// Why a call is refused. It is written as in a reply.
#[derive(Clone, Copy, Debug, PartialEq, Eq)]
pub enum Refusal {
    /// The line is no call.
    Syntax,
    /// There is no such space.
    Space,
    /// There is no such file.
    File,
    Size,
    /// The volume has no room for so many pages.
    Full,
    /// There are as many spaces as there may be.
    Spaces,
    /// No gap is long enough, or the pages are taken.
    Gap,
    Range,
    Children,
    /// This space is mapped.
    Mapped(u32),
    Window,
    Immutable,
    NotMapped,
    /// No space shows anything at this page.
    NoMap(u32),
    /// The window at this page is read-only.
    ReadOnly(u32),
    /// This space shows the file.
    FileMapped(u32),
    Root,
    /// All identifiers of the volume are given out.
    Ids,
}

impl Refusal {
    fn word(self) -> &'static str {
        match self {
            Refusal::Syntax => "syntax",
            Refusal::Space => "space",
            Refusal::File => "file",
            Refusal::Size => "size",
            Refusal::Full => "full",
            Refusal::Spaces => "spaces",
            Refusal::Gap => "gap",
            Refusal::Range => "range",
            Refusal::Children => "children",
            Refusal::Mapped(_) => "mapped",
            Refusal::Window => "window",
            Refusal::Immutable => "immutable",
            Refusal::NotMapped => "notmapped",
            Refusal::NoMap(_) => "nomap",
            Refusal::ReadOnly(_) => "readonly",
            Refusal::FileMapped(_) => "filemapped",
            Refusal::Root => "root",
            Refusal::Ids => "ids",
        }
    }

    // The space or the page that is named after the word.
    fn named(self) -> Option<u32> {
        match self {
            Refusal::Mapped(n)
            | Refusal::NoMap(n)
            | Refusal::ReadOnly(n)
            | Refusal::FileMapped(n) => Some(n),
            _ => None,
        }
    }
}

impl Display for Refusal {
    fn fmt<W: Write>(&self, f: &mut Formatter<W>) -> fmt::Result {
        f.write_str(self.word())?;
        match self.named() {
            Some(n) => write!(f, " {n}"),
            None => Ok(()),
        }
    }
}

impl Error for Refusal {}
