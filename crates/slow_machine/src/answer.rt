//! What a client learns by calls that change nothing.

use crate::stored::StoredFile;
use crate::{SlowMachine, look};
use flat_machine::{Piece, Reply};
use labelled_disk::{FileId, PAGE_BYTES};
use std::alloc::Allocator;

impl<A: Allocator + Clone> SlowMachine<A> {
    ghost use Rattle.std.specs.Prelude.{◌≡◌, ◌≤◌, ◌<◌, ◌^◌, option_copied, IfSome};
    ghost use Rattle.flat_machine.specs.declared.call.Call.TheVariants as call_of;
    ghost use Rattle.flat_machine.specs.At.{cell_at};
    ghost use Rattle.flat_machine.specs.File.{size};
    ghost use Rattle.flat_machine.specs.Machine.{used, nameable};
    ghost use Rattle.flat_machine.specs.Allows.{plain_reply, plain_bytes};

    /// The sectors of all files.
    pub(crate) fn used(&self) -> u32
        ensures is { result ≡ used self.now }
        ensures room { result ≤ self.now.capacity }
    {
        let _capacity = self.capacity;
        look::used(&self.files)
    }

    pub(crate) fn nameable(&self, id: FileId) -> Option<&StoredFile<A>>
        ensures is { option_copied result ≡ nameable self.now id }
        ensures bound { IfSome result (λ f. size f.now < 2 ^ 32) }
    {
        let _capacity = self.capacity;
        if look::is_anonymous(&self.spaces, id) {
            return None;
        }
        look::file_at(&self.files, id)
    }

    pub(crate) fn attributes(&self, id: FileId) -> Reply
        ensures { result ≡ plain_reply self.now (call_of.Attributes id) }
    {
        match self.nameable(id) {
            Some(file) => Reply::Attributes {
                pages: file.size() as u32,
                kind: file.kind(),
                permanent: file.is_permanent(),
                immutable: file.is_immutable(),
            },
            None => Reply::Nothing,
        }
    }

    /// The file with the least identifier above that one, of those that a call may name.
    pub(crate) fn next_file(&self, id: FileId) -> Reply
        ensures { result ≡ plain_reply self.now (call_of.Next id) }
    {
        match look::nameable_above(&self.files, &self.spaces, id) {
            Some(next) => Reply::File(next),
            None => Reply::Nothing,
        }
    }

    pub(crate) fn volume(&self) -> Reply
        ensures { result ≡ plain_reply self.now call_of.Volume }
    {
        Reply::Volume {
            capacity: self.capacity,
            free: self.capacity - self.used(),
        }
    }

    pub(crate) fn place(&self, page: u32) -> Reply
        ensures { result ≡ plain_reply self.now (call_of.Place page) }
    {
        match look::innermost(&self.spaces, page) {
            Some(space) => Reply::Place {
                handle: space.handle,
                first: space.first,
                pages: space.pages,
            },
            None => Reply::Nothing,
        }
    }

    /// The byte that an address shows, or none where it may be any.
    fn cell_at(&self, address: u64) -> Option<u8>
        requires { address < 2 ^ 33 }
        ensures { result ≡ cell_at self.now address }
    {
        let shown = look::shown_at(&self.spaces, (address / PAGE_BYTES as u64) as u32)?;
        let file = look::file_at(&self.files, shown.file)?;
        file.cell(shown.page, (address % PAGE_BYTES as u64) as u32)
    }

    /// The bytes at so many addresses, with 0 for any.
    pub(crate) fn bytes_at(&self, address: u32, count: u8) -> Piece
        requires { count ≤ 64 }
        ensures { result ≡ plain_bytes self.now address count }
    {
        let mut bytes = Piece::new();
        for k in 0..count {
            let cell = self.cell_at(u64::from(address) + u64::from(k));
            bytes.append(cell.unwrap_or(0));
        }
        bytes
    }
}
