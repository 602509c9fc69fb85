//! Drawn labels of old volumes, converted, beside what a plain search says of them.

use super::{FILE, command, old_volume, put};
use labelled_disk::{Label, MemoryDisk};
use pilot_top::Status;
use std::alloc::Global;
use std::test::Fail;

// The first data sector of 256.
const FIRST: u32 = 36;

// Identifiers of files, ascending, of which three have the volume's serial.
const FILES: [u64; 5] = [
    0x0000_0006_0000_0007,
    FILE,
    FILE + 4,
    0x0000_0007_4000_0000,
    0x0000_0009_0000_0001,
];

// A number below the limit, which is not 0, and the next one to draw from.
fn draw(from: u64, limit: u64) -> (u64, u64) {
    let next = from
        .wrapping_mul(6_364_136_223_846_793_005)
        .wrapping_add(1_442_695_040_888_963_407);
    ((next >> 33).checked_rem(limit).unwrap_or(0), next)
}

// A drawn label: of a file, of no file, or free; one of six pages, or what a leader has.
fn drawn_label(from: u64) -> (Label, u64) {
    let (id, next) = draw(from, 9);
    let (page, next) = draw(next, 9);
    let (flags, next) = draw(next, 6);
    let (last, next) = draw(next, 20);
    let none = [0, 3, 15, 0x0000_0007_ffff_ffff];
    let other = none.get(id as usize % 4).copied().unwrap_or(0);
    let label = Label {
        id: FILES.get(id as usize).copied().unwrap_or(other),
        page: match page {
            0..6 => page as u32,
            6 => 0xffff_ffff,
            _ => 0,
        },
        kind: (id % 9) as u16,
        flags: if flags < 5 { flags as u8 } else { 1 },
        last: u8::from(last == 0),
    };
    (label, next)
}

// The labels of the data sectors of 256, of which 80 were drawn.
fn drawn_labels(alloc: Global, seed: u64) -> Result<Vec<Label>, Fail> {
    let mut labels = Vec::new(alloc);
    for _ in 0u32..220 {
        labels.push(Label::FREE)?;
    }
    let mut from = seed;
    for _ in 0u32..80 {
        let (place, next) = draw(from, 220);
        let (label, next) = drawn_label(next);
        from = next;
        if let Some(old) = labels.get_mut(place as usize) {
            *old = label;
        }
    }
    Ok(labels)
}

// Each of these sectors gets its label, and a page that begins with its number.
fn put_labels(disk: &mut MemoryDisk<Global>, labels: &[Label]) -> Result<(), Fail> {
    let mut sector = FIRST;
    for label in labels {
        let mut page = [0; 512];
        page[..4].copy_from_slice(&sector.to_be_bytes());
        put(disk, sector, label, &page)?;
        sector = sector.wrapping_add(1);
    }
    Ok(())
}

// The lowest sector of a page of a file, page 0 being one with the permanent bit.
fn lowest(labels: &[Label], id: u64, page: u32) -> Option<u32> {
    let mut sector = FIRST;
    for label in labels {
        let is_it = label.id == id && label.page == page && label.flags < 4 && label.last == 0;
        if is_it && (page != 0 || label.flags % 2 == 1) {
            return Some(sector);
        }
        sector = sector.wrapping_add(1);
    }
    None
}

// How many pages the permanent file of this identifier has: 0 where there is none.
fn size(labels: &[Label], id: u64) -> u32 {
    for page in 0u32..6 {
        if lowest(labels, id, page).is_none() {
            return page;
        }
    }
    6
}

// Whether the label of this sector is one that its file needs.
fn is_needed(labels: &[Label], sector: u32, label: &Label) -> bool {
    FILES.contains(&label.id)
        && label.page < size(labels, label.id)
        && lowest(labels, label.id, label.page) == Some(sector)
}

// The line of a conversion.
fn report(alloc: Global, labels: &[Label]) -> Result<String, Fail> {
    let (mut freed, mut sector) = (0u32, FIRST);
    for label in labels {
        if label.id != 0 && !is_needed(labels, sector, label) {
            freed = freed.wrapping_add(1);
        }
        sector = sector.wrapping_add(1);
    }
    let (mut files, mut pages) = (0u32, 0u32);
    for id in FILES {
        files = files.wrapping_add(u32::from(size(labels, id) > 0));
        pages = pages.wrapping_add(size(labels, id));
    }
    Ok(format!(in alloc; "converted {files} {pages} {freed}\n")?)
}

// What a run is asked of a file, and what it answers: its attributes, and the first bytes of each
// page, which a space of its own shows, eight pages after that of the file before.
fn file_lines(
    alloc: Global,
    labels: &[Label],
    place: u32,
    handle: u32,
    id: u64,
) -> Result<(String, String), Fail> {
    let mut trace = format!(in alloc; "attr {id:016x}\n")?;
    let Some(head) = lowest(labels, id, 0) else {
        return Ok((trace, String::from_str(alloc, "error file\n")?));
    };
    let pages = size(labels, id);
    let at = head.wrapping_sub(FIRST) as usize;
    let label = labels.get(at).copied().unwrap_or(Label::FREE);
    let kind = label.kind;
    let marks = if label.flags < 2 {
        "mutable"
    } else {
        "immutable"
    };
    let first = place.wrapping_mul(8);
    let mut out = format!(in alloc;
        "attr {pages} {kind} perm {marks}\nspace {handle} {first}\nok\n"
    )?;
    trace.push_str(&format!(in alloc; "space 0 {pages} {first}\nmap {handle} {id:016x} 0 ro\n")?)?;
    for page in 0..pages {
        let address = first.wrapping_add(page).wrapping_mul(512);
        let sector = lowest(labels, id, page).unwrap_or(0);
        trace.push_str(&format!(in alloc; "load {address} 4\n")?)?;
        out.push_str(&format!(in alloc; "bytes {sector:08x}\n")?)?;
    }
    Ok((trace, out))
}

// The same of all files, and then of a new one, whose identifier is above those of the serial.
fn all_lines(alloc: Global, labels: &[Label]) -> Result<(String, String), Fail> {
    let mut trace = String::new(alloc);
    let mut out = String::new(alloc);
    let (mut place, mut handle, mut counter) = (0u32, 1u32, 2u64);
    for id in FILES {
        let (lines, replies) = file_lines(alloc, labels, place, handle, id)?;
        trace.push_str(&lines)?;
        out.push_str(&replies)?;
        place = place.wrapping_add(1);
        if size(labels, id) > 0 {
            handle = handle.wrapping_add(1);
            if id >> 32 == 7 {
                counter = (id & 0xffff_ffff).wrapping_add(1);
            }
        }
    }
    trace.push_str("create 0 0\n")?;
    out.push_str(&format!(in alloc; "file 00000007{counter:08x}\n")?)?;
    Ok((trace, out))
}

#[test]
fn sixty_disks_of_drawn_labels_are_converted(rt: HostRuntime) -> Result<(), Fail> {
    for seed in 0u64..60 {
        let labels = drawn_labels(rt.alloc(), seed)?;
        let mut disk = old_volume(rt.alloc(), 1 + (seed % 2) as u8, &[])?;
        put_labels(&mut disk, &labels)?;
        let outcome = command(rt.alloc(), "convert", &mut disk, b"")?;
        let text = report(rt.alloc(), &labels)?;
        assert_eq!(rt; outcome.status, Status::Done, "disk {seed}");
        assert_eq!(rt; outcome.out.as_slice(), text.as_bytes(), "disk {seed}");
        let (trace, out) = all_lines(rt.alloc(), &labels)?;
        let outcome = command(rt.alloc(), "run", &mut disk, trace.as_bytes())?;
        assert_eq!(rt; outcome.out.as_slice(), out.as_bytes(), "disk {seed}");
    }
    Ok(())
}
