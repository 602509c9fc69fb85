//! Changes of the list of spaces.

ghost use Rattle.std.specs.Prelude.{◌≡◌, ◌≤◌, ◌==◌, [], ◌∷◌, false, OnOk, OnErr, nat_lt, position, length, Some, option_map, if◌then◌else◌};
ghost use Rattle.std.specs.List.{position_or_len};
ghost use Rattle.flat_machine.specs.Next as after;
ghost use Rattle.flat_machine.specs.Space as of_space;

use flat_machine::{ROOT_PAGES, Space, Window};
use std::alloc::{AllocError, Allocator};

/// The space that every other lies in.
pub fn root() -> Space
    ensures { result ≡ of_space.root }
{
    Space {
        handle: 0,
        parent: 0,
        first: 0,
        pages: ROOT_PAGES,
        unit: 16,
        window: None,
    }
}

/// The first space with a handle above that one.
fn first_above(spaces: &[Space], handle: u32) -> Option<usize>
    ensures { result ≡ position (λ s. nat_lt handle s.handle) spaces.now }
{
    spaces.iter().position(|s| handle < s.handle)
}

/// Where a space of that handle stands among the ascending handles.
#[tactic(auto, using(crate::proofs::PlaceLemmas::some_place))]
fn place_of(spaces: &[Space], handle: u32) -> usize
    ensures is { result ≡ position_or_len (λ s. nat_lt handle s.handle) spaces.now }
    ensures bound { result ≤ length spaces.now }
{
    match first_above(spaces, handle) {
        Some(place) => place,
        None => spaces.len(),
    }
}

/// Puts a space in its place among the ascending handles.
pub fn put<A: Allocator>(spaces: &mut Vec<Space, A>, space: Space) -> Result<(), AllocError>
    ensures ok { OnOk result (spaces.new.items ≡ after.put_space space spaces.old.items) }
    ensures err { OnErr result (spaces.new.items ≡ spaces.old.items) }
{
    let place = place_of(spaces, space.handle);
    spaces.insert(place, space)?;
    Ok(())
}

pub fn remove<A: Allocator>(spaces: &mut Vec<Space, A>, handle: u32)
    ensures { spaces.new.items ≡ after.without_space handle spaces.old.items }
{
    spaces.retain(|s| s.handle != handle);
}

/// The space, with that unit size where it has the handle.
fn with_unit(space: Space, handle: u32, unit: u8) -> Space
    ensures { result ≡ (if space.handle == handle then record space { unit = unit } else space) }
{
    if space.handle == handle {
        return Space { unit, ..space };
    }
    space
}

fn write_unit(spaces: &mut [Space], handle: u32, unit: u8)
    ensures { spaces.new ≡ after.change_space handle (λ s. record s { unit = unit }) spaces.old }
{
    for s in spaces.iter_mut() {
        *s = with_unit(*s, handle, unit);
    }
}

pub fn set_unit<A: Allocator>(spaces: &mut Vec<Space, A>, handle: u32, unit: u8)
    ensures { spaces.new.items ≡ after.change_space handle (λ s. record s { unit = unit }) spaces.old.items }
{
    write_unit(spaces, handle, unit);
}

/// The space, with that window or none where it has the handle.
fn with_window(space: Space, handle: u32, window: Option<Window>) -> Space
    ensures { result ≡ (if space.handle == handle then record space { window = window } else space) }
{
    if space.handle == handle {
        return Space { window, ..space };
    }
    space
}

fn write_window(spaces: &mut [Space], handle: u32, window: Option<Window>)
    ensures { spaces.new ≡ after.set_window handle window spaces.old }
{
    for s in spaces.iter_mut() {
        *s = with_window(*s, handle, window);
    }
}

pub fn set_window<A: Allocator>(spaces: &mut Vec<Space, A>, handle: u32, window: Option<Window>)
    ensures { spaces.new.items ≡ after.set_window handle window spaces.old.items }
{
    write_window(spaces, handle, window);
}

/// The space, with its window in that mode where it has the handle.
fn with_mode(space: Space, handle: u32, writable: bool) -> Space
    ensures { result
        ≡ (if space.handle == handle then record space { window = option_map (after.with_mode writable) space.window }
        else space) }
{
    if space.handle == handle {
        return Space {
            window: space.window.map(|w| Window { writable, ..w }),
            ..space
        };
    }
    space
}

fn write_mode(spaces: &mut [Space], handle: u32, writable: bool)
    ensures { spaces.new ≡ after.set_mode handle writable spaces.old }
{
    for s in spaces.iter_mut() {
        *s = with_mode(*s, handle, writable);
    }
}

pub fn set_mode<A: Allocator>(spaces: &mut Vec<Space, A>, handle: u32, writable: bool)
    ensures { spaces.new.items ≡ after.set_mode handle writable spaces.old.items }
{
    write_mode(spaces, handle, writable);
}

/// All spaces go but the root.
pub fn keep_root<A: Allocator>(spaces: &mut Vec<Space, A>)
    requires { after.is_unused spaces.old.items 0 ≡ false }
    ensures { spaces.new.items ≡ of_space.root ∷ [] }
{
    spaces[0] = root();
    spaces.truncate(1);
}
