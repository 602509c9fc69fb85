//! Where a new space may stand, and the handle that it gets.

ghost use Rattle.std.specs.Prelude.{◌≡◌, ◌≤◌, length, map, false, nat_lt, if◌then◌else◌};
ghost use Rattle.std.specs.List.{AllByRecursion};
ghost use Rattle.std.specs.Option.{option_map_or};
ghost use Rattle.flat_machine.specs.Machine.{IsAscending};
ghost use Rattle.flat_machine.specs.Space as of_space;
ghost use Rattle.flat_machine.specs.Refusal as of_call;
ghost use Rattle.flat_machine.specs.Next as after;
ghost use Rattle.slow_machine.specs.Lists.{gap_with};

use crate::look::is_child_of;
use flat_machine::Space;

/// Whether so many pages from that one on are over no child of the parent.
fn is_clear(spaces: &[Space], parent: &Space, pages: u32, first: u32) -> bool
    ensures { result ≡ of_call.is_clear spaces.now parent.now pages first }
{
    let place = Space {
        first,
        pages,
        ..*parent
    };
    spaces
        .iter()
        .all(|s| !(is_child_of(parent.handle, s) && s.overlaps(&place)))
}

/// Whether so many pages from that one on lie inside the parent, and over none of its children.
pub fn fits(spaces: &[Space], parent: &Space, pages: u32, first: u32) -> bool
    ensures { result ≡ of_call.fits spaces.now parent.now pages first }
{
    let after = u64::from(first) + u64::from(pages);
    let clear = is_clear(spaces, parent, pages, first);
    parent.first <= first && after <= parent.end() && clear
}

/// The lowest gap so far, or the one after this space.
fn with_gap_after(
    spaces: &[Space],
    parent: &Space,
    pages: u32,
    lowest: Option<u32>,
    s: &Space,
) -> Option<u32>
    requires { of_space.end s.now ≤ of_space.root_pages }
    ensures { result ≡ gap_with spaces.now parent.now pages lowest s.now }
{
    let after = s.end() as u32;
    if is_child_of(parent.handle, s) && fits(spaces, parent, pages, after) {
        return Some(lower(lowest, after));
    }
    lowest
}

fn lower(lowest: Option<u32>, after: u32) -> u32
    ensures { result ≡ option_map_or (λ k. if nat_lt after k then after else k) lowest after }
{
    match lowest {
        Some(gap) => { if after < gap { after } else { gap } }
        None => after,
    }
}

/// The start of the lowest gap of the parent that has so many pages.
pub fn lowest_gap(spaces: &[Space], parent: &Space, pages: u32) -> Option<u32>
    requires { AllByRecursion (λ s. of_space.end s ≤ of_space.root_pages) spaces.now }
    ensures { result ≡ of_call.lowest_gap spaces.now parent.now pages }
{
    let mut lowest = None;
    if fits(spaces, parent, pages, parent.first) {
        lowest = Some(parent.first);
    }
    for s in spaces {
        lowest = with_gap_after(spaces, parent, pages, lowest, s);
    }
    lowest
}

/// The lowest unused handle, where the handles rise.
pub fn lowest_unused(spaces: &[Space]) -> u32
    requires rise { IsAscending (map (λ s. s.handle) spaces.now) }
    requires root_there { after.is_unused spaces.now 0 ≡ false }
    requires few { length spaces.now ≤ 512 }
    ensures { result ≡ after.lowest_unused spaces.now }
{
    let mut low: u32 = 0;
    for s in spaces {
        if s.handle != low {
            return low;
        }
        low += 1;
    }
    low
}
