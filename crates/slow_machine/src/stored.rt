//! A file as the plain machine keeps it: its pages, cell by cell.

ghost use Rattle.std.specs.Prelude.{◌≡◌, ◌+◌, ◌<◌, IfOk, replicate, true, false, slice_index_or, Some, None, [], ◌==◌, if◌then◌else◌};
ghost use Rattle.flat_machine.specs.File.{zero_page as zeros, any_page as anything};

use crate::kill::kill_pages;
use flat_machine::Space;
use labelled_disk::{FileId, PAGE_BYTES};
use std::alloc::{AllocError, Allocator};
use std::marker::Model;

/// 512 cells. A cell without a byte may be any.
pub type CellPage = [Option<u8>; PAGE_BYTES];

fn zero_page() -> CellPage
    ensures { result ≡ zeros }
{
    [Some(0); PAGE_BYTES]
}

pub fn any_page() -> CellPage
    ensures { result ≡ anything }
{
    [None; PAGE_BYTES]
}

/// A file and its pages.
#[derive(Drop)]
pub struct StoredFile<A: Allocator> {
    id: FileId,
    kind: u16,
    permanent: bool,
    immutable: bool,
    pages: Vec<CellPage, A>,
}

impl<A: Allocator> Model for StoredFile<A> {
    ghost use Rattle.flat_machine.specs.File.{File};

    ghost Value = { File };

    ghost view = { λ f. record { id = f.id; kind = f.kind; permanent = f.permanent; immutable = f.immutable; pages = f.pages.items } };
}

impl<A: Allocator> StoredFile<A> {
    ghost use Rattle.flat_machine.specs.File.{zero_page, size, room_of};
    ghost use Rattle.flat_machine.specs.Next.{with_byte, resized, killed_file};

    /// A temporary file of zero pages, which may be changed.
    pub fn new(alloc: A, id: FileId, kind: u16, pages: u32) -> Result<StoredFile<A>, AllocError>
        ensures { IfOk result
            (λ f.
            f ≡ record
            { id = id; kind = kind; permanent = false; immutable = false; pages = replicate pages zero_page }) }
    {
        let mut made = Vec::new(alloc);
        made.resize(pages as usize, zero_page())?;
        Ok(StoredFile {
            id,
            kind,
            permanent: false,
            immutable: false,
            pages: made,
        })
    }

    pub fn id(&self) -> FileId
        ensures { result ≡ self.now.id }
    {
        self.id
    }

    pub fn kind(&self) -> u16
        ensures { result ≡ self.now.kind }
    {
        self.kind
    }

    pub fn is_permanent(&self) -> bool
        ensures { result ≡ self.now.permanent }
    {
        self.permanent
    }

    pub fn is_immutable(&self) -> bool
        ensures { result ≡ self.now.immutable }
    {
        self.immutable
    }

    /// In pages.
    pub fn size(&self) -> usize
        ensures { result ≡ size self.now }
    {
        self.pages.len()
    }

    /// The sectors that it takes: one a page, and its leader.
    pub fn room(&self) -> u64
        ensures { result ≡ room_of self.now }
    {
        self.pages.len() as u64 + 1
    }

    /// The cell at that offset of that page, or none past the end.
    pub fn cell(&self, page: u64, offset: u32) -> Option<u8>
        requires { offset < 512 }
        ensures { result ≡ slice_index_or (slice_index_or self.now.pages page []) offset None }
    {
        if page >= self.pages.len() as u64 {
            return None;
        }
        self.pages[page as usize][offset as usize]
    }

    /// Writes a byte at that offset of that page, where this is the file.
    pub fn write_at(&mut self, id: FileId, page: u64, offset: u32, byte: u8)
        requires { offset < 512 }
        ensures { self.new
            ≡ (if self.old.id == id then with_byte (record { file = id; page = page; offset = offset }) byte self.old
            else self.old) }
    {
        if self.id == id && page < self.pages.len() as u64 {
            self.pages[page as usize][offset as usize] = Some(byte);
        }
    }

    /// Marks it as permanent, where this is the file.
    pub fn make_permanent(&mut self, id: FileId)
        ensures { self.new ≡ (if self.old.id == id then record self.old { permanent = true } else self.old) }
    {
        if self.id == id {
            self.permanent = true;
        }
    }

    /// Marks it as immutable, where this is the file.
    pub fn make_immutable(&mut self, id: FileId)
        ensures { self.new ≡ (if self.old.id == id then record self.old { immutable = true } else self.old) }
    {
        if self.id == id {
            self.immutable = true;
        }
    }

    /// Kills the pages that a writable window shows in the range.
    pub fn kill(&mut self, spaces: &[Space], range: &Space)
        ensures { self.new ≡ killed_file spaces.now range.now self.old }
    {
        kill_pages(spaces, range, self.id, &mut self.pages);
    }

    /// A copy, which has so many pages where this is the file.
    pub fn resized(&self, alloc: A, id: FileId, pages: u32) -> Result<StoredFile<A>, AllocError>
        ensures { IfOk result (λ f. f ≡ (if self.now.id == id then resized pages self.now else self.now)) }
    {
        let mut copied = Vec::from_slice(alloc, &self.pages)?;
        if self.id == id {
            copied.resize(pages as usize, zero_page())?;
        }
        Ok(StoredFile {
            id: self.id,
            kind: self.kind,
            permanent: self.permanent,
            immutable: self.immutable,
            pages: copied,
        })
    }
}
