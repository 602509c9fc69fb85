//! Changes of the list of files.

ghost use Rattle.std.specs.Prelude.{◌≡◌, ◌≤◌, ◌<◌, ◌^◌, OnOk, OnErr, IfOk, nat_le, position, length, map, filter, true, false, slice_get, IsTrue, ◌==◌};
ghost use Rattle.std.specs.Option.{option_map_or};
ghost use Rattle.std.specs.List.{position_or_len};
ghost use Rattle.flat_machine.specs.Next as after;
ghost use Rattle.flat_machine.specs.File as of_file;

use crate::look;
use crate::stored::StoredFile;
use flat_machine::{Space, Window};
use labelled_disk::{FileId, PAGE_BYTES};
use std::alloc::{AllocError, Allocator};

/// The first file whose identifier is not below that one.
fn first_from<A: Allocator>(files: &[StoredFile<A>], id: FileId) -> Option<usize>
    ensures { result ≡ position (λ f. nat_le id f.id) files.now }
{
    files.iter().position(|f| id <= f.id())
}

/// Where a file of that identifier stands among the ascending identifiers.
#[tactic(auto, using(crate::proofs::PlaceLemmas::some_place))]
fn place_of<A: Allocator>(files: &[StoredFile<A>], id: FileId) -> usize
    ensures is { result ≡ position_or_len (λ f. nat_le id f.id) files.now }
    ensures bound { result ≤ length files.now }
{
    match first_from(files, id) {
        Some(place) => place,
        None => files.len(),
    }
}

/// Whether the file at that place has the identifier.
fn names<A: Allocator>(files: &[StoredFile<A>], place: usize, id: FileId) -> bool
    ensures is { result ≡ option_map_or (λ f. f.id == id) (slice_get files.now place) false }
    ensures bound { IsTrue result → place < length files.now }
{
    match files.get(place) {
        Some(file) => file.id() == id,
        None => false,
    }
}

/// Puts a file in its place among the ascending identifiers, or in that of one with its identifier.
pub fn put<A: Allocator>(
    files: &mut Vec<StoredFile<A>, A>,
    file: StoredFile<A>,
) -> Result<(), AllocError>
    ensures ok { OnOk result (files.new.items ≡ of_file.put_file file files.old.items) }
    ensures err { OnErr result (files.new.items ≡ files.old.items) }
{
    let id = file.id();
    let place = place_of(files, id);
    if names(files, place, id) {
        files[place] = file;
        return Ok(());
    }
    files.insert(place, file)?;
    Ok(())
}

pub fn remove<A: Allocator>(files: &mut Vec<StoredFile<A>, A>, id: FileId)
    ensures { files.new.items ≡ after.without_file id files.old.items }
{
    files.retain(|f| f.id() != id);
}

/// Removes the file of an anonymous window.
pub fn remove_anonymous<A: Allocator>(files: &mut Vec<StoredFile<A>, A>, window: Option<Window>)
    ensures { files.new.items ≡ option_map_or (λ w. after.without_anonymous w files.old.items) window files.old.items }
{
    if let Some(w) = window {
        if w.anonymous {
            remove(files, w.file);
        }
    }
}

pub fn keep_permanent<A: Allocator>(files: &mut Vec<StoredFile<A>, A>)
    ensures { files.new.items ≡ filter (λ f. f.permanent) files.old.items }
{
    files.retain(|f| f.is_permanent());
}

fn mark_permanent<A: Allocator>(files: &mut [StoredFile<A>], id: FileId)
    ensures { files.new ≡ after.change_file id (λ f. record f { permanent = true }) files.old }
{
    for f in files.iter_mut() {
        f.make_permanent(id);
    }
}

pub fn make_permanent<A: Allocator>(files: &mut Vec<StoredFile<A>, A>, id: FileId)
    ensures { files.new.items ≡ after.change_file id (λ f. record f { permanent = true }) files.old.items }
{
    mark_permanent(files, id);
}

fn mark_immutable<A: Allocator>(files: &mut [StoredFile<A>], id: FileId)
    ensures { files.new ≡ after.change_file id (λ f. record f { immutable = true }) files.old }
{
    for f in files.iter_mut() {
        f.make_immutable(id);
    }
}

pub fn make_immutable<A: Allocator>(files: &mut Vec<StoredFile<A>, A>, id: FileId)
    ensures { files.new.items ≡ after.change_file id (λ f. record f { immutable = true }) files.old.items }
{
    mark_immutable(files, id);
}

/// A copy of the files, in which one has so many pages.
pub fn resized<A: Allocator + Clone>(
    alloc: &A,
    files: &[StoredFile<A>],
    id: FileId,
    pages: u32,
) -> Result<Vec<StoredFile<A>, A>, AllocError>
    ensures { IfOk result (λ v. v.items ≡ after.change_file id (after.resized pages) files.now) }
{
    let mut made = Vec::new(alloc.clone()?);
    for f in files {
        made.push(f.resized(alloc.clone()?, id, pages)?)?;
    }
    Ok(made)
}

/// Writes a byte at a place of a file.
fn write_at<A: Allocator>(files: &mut [StoredFile<A>], id: FileId, page: u64, offset: u32, byte: u8)
    requires { offset < 512 }
    ensures { files.new ≡ after.change_file id
        (after.with_byte (record { file = id; page = page; offset = offset }) byte) files.old }
{
    for f in files.iter_mut() {
        f.write_at(id, page, offset, byte);
    }
}

/// Writes a byte at an address, where a window shows it.
fn store_byte<A: Allocator>(spaces: &[Space], address: u64, byte: u8, files: &mut [StoredFile<A>])
    requires { address < 2 ^ 33 }
    ensures { files.new ≡ after.store_byte spaces.now address byte files.old }
{
    if let Some(shown) = look::shown_at(spaces, (address / PAGE_BYTES as u64) as u32) {
        write_at(
            files,
            shown.file,
            shown.page,
            (address % PAGE_BYTES as u64) as u32,
            byte,
        );
    }
}

/// Writes bytes from an address on.
fn write_bytes<A: Allocator>(
    spaces: &[Space],
    address: u32,
    bytes: &[u8],
    files: &mut [StoredFile<A>],
)
    requires { length bytes.now ≤ 64 }
    ensures { files.new ≡ after.store_bytes spaces.now address bytes.now files.old }
{
    let mut at = u64::from(address);
    for byte in bytes {
        store_byte(spaces, at, *byte, files);
        at += 1;
    }
}

pub fn store_bytes<A: Allocator>(
    spaces: &[Space],
    address: u32,
    bytes: &[u8],
    files: &mut Vec<StoredFile<A>, A>,
)
    requires { length bytes.now ≤ 64 }
    ensures { files.new.items ≡ after.store_bytes spaces.now address bytes.now files.old.items }
{
    write_bytes(spaces, address, bytes, files);
}

/// Kills the pages that a writable window shows in the range.
fn kill_each<A: Allocator>(spaces: &[Space], range: &Space, files: &mut [StoredFile<A>])
    ensures { files.new ≡ map (after.killed_file spaces.now range.now) files.old }
{
    for f in files.iter_mut() {
        f.kill(spaces, range);
    }
}

pub fn kill<A: Allocator>(spaces: &[Space], range: &Space, files: &mut Vec<StoredFile<A>, A>)
    ensures { files.new.items ≡ map (after.killed_file spaces.now range.now) files.old.items }
{
    kill_each(spaces, range, files);
}
