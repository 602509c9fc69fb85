//! The sectors of one page of the map, a bit each, the highest bit of a byte first.
ghost use Rattle.std.specs.Prelude.{◌≡◌, ◌+◌, ◌-◌, ◌%◌, ◌^◌, ◌≤◌, ◌<◌, true, false, not};
ghost use Rattle.alloc_map.specs.Bits.{is_used as is_used_in, AreAll, IsMarked, free_in};

use flat_mem::{PAGE_BYTES, Page};

/// Whether a sector is used.
pub fn is_used(page: &Page, sector: u32) -> bool
    requires { sector < 4096 }
    ensures { result ≡ is_used_in page.now sector }
{
    (page[(sector / 8) as usize] >> (7 - sector % 8)) & 1 == 1
}

// The 64 sectors from this one on, the first of them in the highest bit.
fn word_at(page: &Page, sector: u32) -> u64
    requires whole { sector % 64 ≡ 0 }
    requires inside { sector < 4096 }
    ensures used { result ≡ 2 ^ 64 - 1 → AreAll true page.now sector (sector + 64) }
    ensures free { result ≡ 0 → AreAll false page.now sector (sector + 64) }
{
    let first = (sector / 8) as usize;
    u64::from_be_bytes([
        page[first],
        page[first + 1],
        page[first + 2],
        page[first + 3],
        page[first + 4],
        page[first + 5],
        page[first + 6],
        page[first + 7],
    ])
}

// Whether none of 64 sectors is used, or none is free.
fn is_passed(word: u64, used: bool) -> bool
    ensures free { used ≡ true → result ≡ true → word ≡ 0 }
    ensures used { used ≡ false → result ≡ true → word ≡ 2 ^ 64 - 1 }
{
    word == if used { 0 } else { u64::MAX }
}

// Passes words of whose sectors none is used, or none is free, up to an end, or less than a word past it.
fn past_words(page: &Page, from: u32, end: u32, used: bool) -> u32
    requires whole { from % 64 ≡ 0 }
    requires inside { end ≤ 4096 }
    ensures order { from ≤ result }
    ensures passed { AreAll (not used) page.now from result }
{
    let mut at = from;
    'passing: while at < end {
        if !is_passed(word_at(page, at), used) {
            return at;
        }
        at += 64;
    }
    at
}

/// The first sector from `from` on that is used, or is free, or `end` where there is none below it.
pub fn find(page: &Page, from: u32, end: u32, used: bool) -> u32
    requires order { from ≤ end }
    requires inside { end ≤ 4096 }
    ensures range { (from ≤ result) × (result ≤ end) }
    ensures before { AreAll (not used) page.now from result }
    ensures found { result < end → is_used_in page.now result ≡ used }
{
    let passed = if used { 0 } else { 255 };
    let mut at = from;
    'search: while at < end {
        if at % 64 == 0 && is_passed(word_at(page, at), used) {
            at = past_words(page, at + 64, end, used);
        } else if page[(at / 8) as usize] == passed {
            at = at - at % 8 + 8;
        } else if is_used(page, at) == used {
            return at;
        } else {
            at += 1;
        }
    }
    end
}

/// How many of these sectors are free.
pub fn count_free(page: &Page, from: u32, end: u32) -> u32
    requires order { from ≤ end }
    requires inside { end ≤ 4096 }
    ensures { result ≡ free_in page.now from (end - from) }
{
    let mut count = 0;
    let mut at = from;
    'counting: while at < end {
        if at % 64 == 0 && at + 64 <= end && word_at(page, at) == 0 {
            count += 64;
            at += 64;
        } else if at % 64 == 0 && word_at(page, at) == u64::MAX {
            at = end.min(at + 64);
        } else if page[(at / 8) as usize] == 255 {
            at = end.min(at - at % 8 + 8);
        } else {
            if !is_used(page, at) {
                count += 1;
            }
            at += 1;
        }
    }
    count
}

// Marks one sector used or free.
fn set(page: &mut Page, sector: u32, used: bool)
    requires { sector < 4096 }
    ensures { IsMarked used page.old page.new sector (sector + 1) }
{
    let bit = 1u8 << (7 - sector % 8);
    let byte = (sector / 8) as usize;
    if used {
        page[byte] |= bit;
    } else {
        page[byte] &= !bit;
    }
}

/// Marks these sectors used or free.
pub fn set_range(page: &mut Page, from: u32, end: u32, used: bool)
    requires order { from ≤ end }
    requires inside { end ≤ 4096 }
    ensures { IsMarked used page.old page.new from end }
{
    let mut at = from;
    'marking: while at < end {
        set(page, at, used);
        at += 1;
    }
}
