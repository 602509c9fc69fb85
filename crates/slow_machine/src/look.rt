//! Look-ups in the lists of a machine.

ghost use Rattle.std.specs.Prelude.{◌≡◌, ◌^◌, ◌<◌, option_copied, is_some, is_none, find, true, not, nat_lt, None, option_map, if◌then◌else◌, ◌&&◌, ◌==◌};
ghost use Rattle.std.specs.List.{list_any};
ghost use Rattle.flat_machine.specs.File as of_file;
ghost use Rattle.flat_machine.specs.Space as of_space;
ghost use Rattle.flat_machine.specs.Machine as of_machine;
ghost use Rattle.flat_machine.specs.Refusal as of_call;
ghost use Rattle.flat_machine.specs.At as of_address;

use crate::stored::StoredFile;
use flat_machine::{FilePage, Space};
use labelled_disk::FileId;
use std::alloc::Allocator;

/// The sectors of all files, leaders among them.
pub fn used<A: Allocator>(files: &[StoredFile<A>]) -> u32
    requires { of_file.total_room files.now < 2 ^ 32 }
    ensures { result ≡ of_file.total_room files.now }
{
    let sectors: u64 = files.iter().map(|f| f.room()).sum();
    sectors as u32
}

pub fn holds(space: &Space, page: u64) -> bool
    ensures { result ≡ of_space.holds space.now page }
{
    u64::from(space.first) <= page && page < space.end()
}

pub fn is_child_of(parent: u32, space: &Space) -> bool
    ensures { result ≡ of_space.is_child_of parent space.now }
{
    space.handle != 0 && space.parent == parent
}

pub fn has_children(spaces: &[Space], parent: u32) -> bool
    ensures { result ≡ list_any (of_space.is_child_of parent) spaces.now }
{
    spaces.iter().any(|s| is_child_of(parent, s))
}

pub fn is_writable(space: &Space) -> bool
    ensures { result ≡ of_space.is_writable space.now }
{
    match space.window {
        Some(w) => w.writable,
        None => false,
    }
}

pub fn space_at(spaces: &[Space], handle: u32) -> Option<Space>
    ensures { result ≡ of_space.space_at spaces.now handle }
{
    spaces.iter().copied().find(|s| s.handle == handle)
}

/// The mapped space that holds the page.
pub fn mapped_at(spaces: &[Space], page: u32) -> Option<Space>
    ensures { result ≡ of_space.mapped_at spaces.now page }
{
    spaces
        .iter()
        .copied()
        .find(|s| s.window.is_some() && holds(s, u64::from(page)))
}

/// Whether the space has a child that holds the page.
fn has_child_over(spaces: &[Space], parent: u32, page: u32) -> bool
    ensures { result ≡ list_any (λ t. of_space.is_child_of parent t && of_space.holds t page) spaces.now }
{
    spaces
        .iter()
        .any(|t| is_child_of(parent, t) && holds(t, u64::from(page)))
}

/// Whether the space holds the page, and has no child that holds it.
fn is_innermost(spaces: &[Space], s: &Space, page: u32) -> bool
    ensures { result
        ≡ (of_space.holds s.now page && not
        (list_any (λ t. of_space.is_child_of s.now.handle t && of_space.holds t page) spaces.now)) }
{
    holds(s, u64::from(page)) && !has_child_over(spaces, s.handle, page)
}

/// The space that holds the page, and has no child that holds it.
pub fn innermost(spaces: &[Space], page: u32) -> Option<Space>
    ensures { result ≡ of_space.innermost spaces.now page }
{
    spaces
        .iter()
        .copied()
        .find(|s| is_innermost(spaces, s, page))
}

/// Whether an anonymous window shows the file.
pub fn is_anonymous(spaces: &[Space], id: FileId) -> bool
    ensures { result ≡ of_machine.is_anonymous spaces.now id }
{
    spaces.iter().any(|s| match s.window {
        Some(w) => w.anonymous && w.file == id,
        None => false,
    })
}

pub fn file_at<A: Allocator>(files: &[StoredFile<A>], id: FileId) -> Option<&StoredFile<A>>
    ensures { option_copied result ≡ of_file.file_at files.now id }
{
    files.iter().find(|f| f.id() == id)
}

/// Whether a call may name a file of that identifier.
fn is_nameable<A: Allocator>(files: &[StoredFile<A>], spaces: &[Space], id: FileId) -> bool
    ensures { result ≡ is_some (if of_machine.is_anonymous spaces.now id then None else of_file.file_at files.now id) }
{
    if is_anonymous(spaces, id) {
        return false;
    }
    file_at(files, id).is_some()
}

/// Whether the file has an identifier above that one, which a call may name.
fn is_above<A: Allocator>(
    files: &[StoredFile<A>],
    spaces: &[Space],
    id: FileId,
    file: &StoredFile<A>,
) -> bool
    ensures { result
        ≡ (nat_lt id file.now.id && is_some
        (if of_machine.is_anonymous spaces.now file.now.id then None else of_file.file_at files.now file.now.id)) }
{
    id < file.id() && is_nameable(files, spaces, file.id())
}

/// The least identifier above that one which a call may name.
pub fn nameable_above<A: Allocator>(
    files: &[StoredFile<A>],
    spaces: &[Space],
    id: FileId,
) -> Option<FileId>
    ensures { result ≡ option_map (λ f. f.id)
        (find
        (λ f.
        nat_lt id f.id && is_some
        (if of_machine.is_anonymous spaces.now f.id then None else of_file.file_at files.now f.id))
        files.now) }
{
    files
        .iter()
        .find(|f| is_above(files, spaces, id, f))
        .map(|f| f.id())
}

/// The lowest handle of a window on the file.
pub fn lowest_window(spaces: &[Space], id: FileId) -> Option<u32>
    ensures { result ≡ of_call.lowest_handle (of_space.has_window (λ w. w.file == id && true)) spaces.now }
{
    spaces
        .iter()
        .find(|s| match s.window {
            Some(w) => w.file == id,
            None => false,
        })
        .map(|s| s.handle)
}

/// The lowest handle of a writable window on the file.
pub fn lowest_writable_window(spaces: &[Space], id: FileId) -> Option<u32>
    ensures { result ≡ of_call.lowest_handle (of_space.has_window (λ w. w.file == id && w.writable)) spaces.now }
{
    spaces
        .iter()
        .find(|s| match s.window {
            Some(w) => w.file == id && w.writable,
            None => false,
        })
        .map(|s| s.handle)
}

/// The lowest handle of a mapped space that shares a page with the space.
pub fn lowest_mapped_over(spaces: &[Space], s: &Space) -> Option<u32>
    ensures { result ≡ of_call.lowest_handle (λ t. of_space.is_mapped t && of_space.overlap s.now t) spaces.now }
{
    spaces
        .iter()
        .find(|t| t.window.is_some() && s.overlaps(t))
        .map(|t| t.handle)
}

/// The file page that is shown at a page. It is below 2^33, since no test has bounded it yet.
pub fn shown_at(spaces: &[Space], page: u32) -> Option<FilePage>
    ensures { result ≡ of_address.shown_at spaces.now page }
{
    let shown = mapped_at(spaces, page)?;
    let window = shown.window?;
    Some(FilePage {
        file: window.file,
        page: u64::from(window.first) + u64::from(page.saturating_sub(shown.first)),
    })
}

/// The first of two pages that no window shows.
pub fn first_unmapped(spaces: &[Space], first: u32, last: u32) -> Option<u32>
    ensures { result ≡ find (λ p. is_none (of_space.mapped_at spaces.now p)) (of_address.one_or_two first last) }
{
    if mapped_at(spaces, first).is_none() {
        return Some(first);
    }
    if first != last && mapped_at(spaces, last).is_none() {
        return Some(last);
    }
    None
}

fn is_read_only(spaces: &[Space], page: u32) -> bool
    ensures { result ≡ of_call.is_read_only spaces.now page }
{
    match mapped_at(spaces, page) {
        Some(s) => !is_writable(&s),
        None => false,
    }
}

/// The first of two pages that a window shows read-only.
pub fn first_read_only(spaces: &[Space], first: u32, last: u32) -> Option<u32>
    ensures { result ≡ find (of_call.is_read_only spaces.now) (of_address.one_or_two first last) }
{
    if is_read_only(spaces, first) {
        return Some(first);
    }
    if first != last && is_read_only(spaces, last) {
        return Some(last);
    }
    None
}
