//! The tests of a call, one function a test, and the rows of tests.

ghost use Rattle.std.specs.Prelude.{◌≡◌};
ghost use Rattle.flat_machine.specs.Refusal as of_call;

use crate::{SlowMachine, gap, look};
use flat_machine::{Piece, ROOT_PAGES, Refusal};
use labelled_disk::{FileId, PAGE_BYTES};
use std::alloc::Allocator;

/// The word of the first test that holds.
pub fn first_of(tests: &[Option<Refusal>]) -> Option<Refusal>
    ensures { result ≡ of_call.first_of tests.now }
{
    for test in tests {
        if test.is_some() {
            return *test;
        }
    }
    None
}

pub fn no_size(pages: u32) -> Option<Refusal>
    ensures { result ≡ of_call.no_size pages }
{
    if pages == 0 {
        return Some(Refusal::Size);
    }
    None
}

pub fn no_unit(pages: u32) -> Option<Refusal>
    ensures { result ≡ of_call.no_unit pages }
{
    if pages == 0 || pages > 16 {
        return Some(Refusal::Size);
    }
    None
}

pub fn is_root(space: u32) -> Option<Refusal>
    ensures { result ≡ of_call.is_root space }
{
    if space == 0 {
        return Some(Refusal::Root);
    }
    None
}

pub fn past_root(page: u32) -> Option<Refusal>
    ensures { result ≡ of_call.past_root page }
{
    if page >= ROOT_PAGES {
        return Some(Refusal::Range);
    }
    None
}

impl<A: Allocator + Clone> SlowMachine<A> {
    ghost use Rattle.std.specs.Prelude.{◌≡◌, ◌≤◌, ◌^◌, true};
    ghost use Rattle.flat_machine.specs.Refusal.{no_room, no_ids, no_file, is_immutable, no_room_as, file_mapped, cut_while_mapped, no_space, no_spaces, no_gap, out_of_range, no_place, has_children, self_mapped, path_mapped, not_mapped, past_end, shows_immutable, no_room_for_space, no_map, read_only};

    pub(crate) fn no_room(&self, wanted: u64) -> Option<Refusal>
        requires { wanted ≤ 2 ^ 32 }
        ensures { result ≡ no_room self.now wanted }
    {
        if u64::from(self.used()) + wanted > u64::from(self.capacity) {
            return Some(Refusal::Full);
        }
        None
    }

    pub(crate) fn no_ids(&self) -> Option<Refusal>
        ensures { result ≡ no_ids self.now }
    {
        if self.counter == u32::MAX {
            return Some(Refusal::Ids);
        }
        None
    }

    pub(crate) fn no_file(&self, id: FileId) -> Option<Refusal>
        ensures { result ≡ no_file self.now id }
    {
        match self.nameable(id) {
            None => Some(Refusal::File),
            Some(_file) => None,
        }
    }

    pub(crate) fn is_immutable(&self, id: FileId) -> Option<Refusal>
        ensures { result ≡ is_immutable self.now id }
    {
        let file = look::file_at(&self.files, id)?;
        if file.is_immutable() {
            return Some(Refusal::Immutable);
        }
        None
    }

    pub(crate) fn no_room_as(&self, id: FileId, pages: u32) -> Option<Refusal>
        ensures { result ≡ no_room_as self.now id pages }
    {
        let file = look::file_at(&self.files, id)?;
        let sectors = u64::from(self.used()) + u64::from(pages);
        if sectors.saturating_sub(file.size() as u64) > u64::from(self.capacity) {
            return Some(Refusal::Full);
        }
        None
    }

    pub(crate) fn file_mapped(&self, id: FileId) -> Option<Refusal>
        ensures { result ≡ file_mapped self.now id (λ w. true) }
    {
        let handle = look::lowest_window(&self.spaces, id)?;
        Some(Refusal::FileMapped(handle))
    }

    pub(crate) fn file_mapped_writable(&self, id: FileId) -> Option<Refusal>
        ensures { result ≡ file_mapped self.now id (λ w. w.writable) }
    {
        let handle = look::lowest_writable_window(&self.spaces, id)?;
        Some(Refusal::FileMapped(handle))
    }

    pub(crate) fn cut_while_mapped(&self, id: FileId, pages: u32) -> Option<Refusal>
        ensures { result ≡ cut_while_mapped self.now id pages }
    {
        let file = look::file_at(&self.files, id)?;
        if (pages as usize) < file.size() {
            return self.file_mapped(id);
        }
        None
    }

    pub(crate) fn no_space(&self, space: u32) -> Option<Refusal>
        ensures { result ≡ no_space self.now.spaces space }
    {
        match look::space_at(&self.spaces, space) {
            None => Some(Refusal::Space),
            Some(_space) => None,
        }
    }

    pub(crate) fn no_spaces(&self) -> Option<Refusal>
        ensures { result ≡ no_spaces self.now.spaces }
    {
        if self.spaces.len() > 511 {
            return Some(Refusal::Spaces);
        }
        None
    }

    fn no_gap(&self, parent: u32, pages: u32) -> Option<Refusal>
        ensures { result ≡ no_gap self.now.spaces parent pages }
    {
        let above = look::space_at(&self.spaces, parent)?;
        if gap::lowest_gap(&self.spaces, &above, pages).is_some() {
            return None;
        }
        Some(Refusal::Gap)
    }

    fn out_of_range(&self, parent: u32, pages: u32, first: u32) -> Option<Refusal>
        ensures { result ≡ out_of_range self.now.spaces parent pages first }
    {
        let above = look::space_at(&self.spaces, parent)?;
        if gap::fits(&self.spaces, &above, pages, first) {
            return None;
        }
        Some(Refusal::Range)
    }

    pub(crate) fn no_place(&self, parent: u32, pages: u32, first: Option<u32>) -> Option<Refusal>
        ensures { result ≡ no_place self.now.spaces parent pages first }
    {
        match first {
            None => self.no_gap(parent, pages),
            Some(first) => self.out_of_range(parent, pages, first),
        }
    }

    pub(crate) fn has_children(&self, space: u32) -> Option<Refusal>
        ensures { result ≡ has_children self.now.spaces space }
    {
        if look::has_children(&self.spaces, space) {
            return Some(Refusal::Children);
        }
        None
    }

    pub(crate) fn self_mapped(&self, space: u32) -> Option<Refusal>
        ensures { result ≡ self_mapped self.now.spaces space }
    {
        let found = look::space_at(&self.spaces, space)?;
        if found.window.is_some() {
            return Some(Refusal::Mapped(space));
        }
        None
    }

    pub(crate) fn path_mapped(&self, space: u32) -> Option<Refusal>
        ensures { result ≡ path_mapped self.now.spaces space }
    {
        let wanted = look::space_at(&self.spaces, space)?;
        let handle = look::lowest_mapped_over(&self.spaces, &wanted)?;
        Some(Refusal::Mapped(handle))
    }

    pub(crate) fn not_mapped(&self, space: u32) -> Option<Refusal>
        ensures { result ≡ not_mapped self.now.spaces space }
    {
        let found = look::space_at(&self.spaces, space)?;
        if found.window.is_some() {
            return None;
        }
        Some(Refusal::NotMapped)
    }

    pub(crate) fn past_end(&self, space: u32, id: FileId, page: u32) -> Option<Refusal>
        ensures { result ≡ past_end self.now space id page }
    {
        let wanted = look::space_at(&self.spaces, space)?;
        let file = look::file_at(&self.files, id)?;
        if u64::from(page) + u64::from(wanted.pages) > file.size() as u64 {
            return Some(Refusal::Window);
        }
        None
    }

    pub(crate) fn shows_immutable(&self, space: u32) -> Option<Refusal>
        ensures { result ≡ shows_immutable self.now space }
    {
        let found = look::space_at(&self.spaces, space)?;
        let window = found.window?;
        self.is_immutable(window.file)
    }

    pub(crate) fn no_room_for_space(&self, space: u32) -> Option<Refusal>
        ensures { result ≡ no_room_for_space self.now space }
    {
        let found = look::space_at(&self.spaces, space)?;
        self.no_room(u64::from(found.pages) + 1)
    }

    pub(crate) fn no_map(&self, address: u32, count: u8) -> Option<Refusal>
        requires { (1 ≤ count) × (count ≤ 64) }
        ensures { result ≡ no_map self.now address count }
    {
        let last = u64::from(address) + u64::from(count) - 1;
        let page = look::first_unmapped(
            &self.spaces,
            address / PAGE_BYTES as u32,
            (last / PAGE_BYTES as u64) as u32,
        )?;
        Some(Refusal::NoMap(page))
    }

    pub(crate) fn read_only(&self, address: u32, count: u8) -> Option<Refusal>
        requires { (1 ≤ count) × (count ≤ 64) }
        ensures { result ≡ read_only self.now address count }
    {
        let last = u64::from(address) + u64::from(count) - 1;
        let page = look::first_read_only(
            &self.spaces,
            address / PAGE_BYTES as u32,
            (last / PAGE_BYTES as u64) as u32,
        )?;
        Some(Refusal::ReadOnly(page))
    }
}
