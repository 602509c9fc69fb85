//! A conversion in which each transfer fails in turn, and which is then begun again.

use super::{FILE, FIRST_PAGE, MADE, command, old_volume, own, page, put};
use labelled_disk::{Label, MemoryDisk};
use pilot_top::Status;
use std::alloc::Global;
use std::test::Fail;

// Page 0 of a second file, immutable, and of one that is not permanent.
const SECOND: Label = Label {
    id: FILE + 4,
    kind: 3,
    flags: 3,
    ..FIRST_PAGE
};

const TEMPORARY: Label = Label {
    id: FILE + 9,
    flags: 0,
    ..FIRST_PAGE
};

// An old volume with two files of two pages; with a page after a hole, page 0 without its mark in
// prefix of the one that has it and after it, a temporary file, a leader that a stopped conversion
// left, and a page of no file; and with a wrong label in two sectors of the maps. Each page is filled
// with the number of its sector.
fn mixed(alloc: Global, fails: &[u64]) -> Result<MemoryDisk<Global>, Fail> {
    let later = Label {
        page: 1,
        flags: 0,
        ..SECOND
    };
    let labels: [(u8, Label); 12] = [
        (1, Label::FREE),
        (3, TEMPORARY),
        (36, SECOND),
        (37, later),
        (38, TEMPORARY),
        (39, own(3, 5)),
        (40, page(0)),
        (41, page(0xffff_ffff)),
        (200, FIRST_PAGE),
        (201, page(1)),
        (202, page(3)),
        (203, page(0)),
    ];
    let mut disk = old_volume(alloc, 1, fails)?;
    for (sector, label) in labels {
        put(&mut disk, u32::from(sector), &label, &[sector; 512])?;
    }
    Ok(disk)
}

const TRACE: &[u8] = b"volume
next 0000000000000000
next 0000000700000001
next 0000000700000005
attr 0000000700000001
attr 0000000700000005
space 0 2
space 0 2
map 1 0000000700000001 0 ro
map 2 0000000700000005 0 ro
load 0 1
load 512 1
load 1024 1
load 1536 1
create 0 0
";

const REPLIES: &[u8] = b"volume 124 118
file 0000000700000001
file 0000000700000005
none
attr 2 9 perm mutable
attr 2 3 perm immutable
space 1 0
space 2 2
ok
ok
bytes c8
bytes c9
bytes 24
bytes 25
file 0000000700000006
";

// One for the root, one for each data sector, one for each of six freed sectors, one for each of two
// leaders, one for each sector of the maps, and one for the root.
const TRANSFERS: u64 = 1 + 220 + 6 + 2 + 35 + 1;

#[test]
fn a_conversion_that_a_failing_disk_stopped_is_begun_again(rt: HostRuntime) -> Result<(), Fail> {
    let start = MADE + 12;
    for at in 1..=TRANSFERS {
        let mut disk = mixed(rt.alloc(), &[start.wrapping_add(at)])?;
        let outcome = command(rt.alloc(), "convert", &mut disk, b"")?;
        assert_eq!(rt; outcome.status, Status::DiskFault, "transfer {at}");
        assert_eq!(rt; outcome.out.as_slice(), b"stopped disk\n".as_slice());
        let outcome = command(rt.alloc(), "convert", &mut disk, b"")?;
        assert!(rt; outcome.out.starts_with(b"converted 2 4 "), "transfer {at}");
        let outcome = command(rt.alloc(), "run", &mut disk, TRACE)?;
        assert_eq!(rt; outcome.out.as_slice(), REPLIES, "transfer {at}");
    }
    let mut disk = mixed(rt.alloc(), &[start.wrapping_add(TRANSFERS).wrapping_add(1)])?;
    let outcome = command(rt.alloc(), "convert", &mut disk, b"")?;
    assert_eq!(rt; outcome.out.as_slice(), b"converted 2 4 6\n".as_slice());
    Ok(())
}
