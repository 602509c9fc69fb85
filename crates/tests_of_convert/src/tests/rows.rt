//! Old volumes that were written by hand, converted, and run.

use super::{FIRST_PAGE, command, old_volume, page, put, sector_at};
use labelled_disk::Label;
use pilot_top::Status;
use std::test::Fail;

const LEADER: Label = Label {
    page: 0xffff_ffff,
    ..FIRST_PAGE
};

const TRACE: &[u8] = b"volume
attr 0000000700000001
space 0 1
map 1 0000000700000001 0 ro
load 0 4
create 1 0
";

const REPLIES: &[u8] = b"volume 124 122
attr 1 9 perm mutable
space 1 0
ok
bytes 41424300
file 0000000700000002
";

// One file of one page is there afterwards, with a leader in the lowest data sector.
#[test]
fn volumes_of_both_old_versions_are_converted(rt: HostRuntime) -> Result<(), Fail> {
    let refusals: [(u8, &[u8]); 2] = [(1, b"stopped version 1\n"), (2, b"stopped version 2\n")];
    for (version, refusal) in refusals {
        let mut disk = old_volume(rt.alloc(), version, &[])?;
        let mut bytes = [0; 512];
        bytes[..3].copy_from_slice(b"ABC");
        put(&mut disk, 132, &FIRST_PAGE, &bytes)?;
        let steps: [(&str, Status, &[u8]); 4] = [
            ("run", Status::NotOpened, refusal),
            ("scavenge", Status::NotOpened, refusal),
            ("convert", Status::Done, b"converted 1 1 0\n"),
            ("convert", Status::NotOpened, b"stopped version 3\n"),
        ];
        for (word, status, text) in steps {
            let outcome = command(rt.alloc(), word, &mut disk, b"")?;
            assert_eq!(rt; outcome.status, status, "{word} of version {version}");
            assert_eq!(rt; outcome.out.as_slice(), text, "{word} of version {version}");
        }
        assert_eq!(rt; sector_at(&mut disk, 36)?, Some((LEADER, [0; 512])));
        let outcome = command(rt.alloc(), "run", &mut disk, TRACE)?;
        assert_eq!(rt; outcome.out.as_slice(), REPLIES);
    }
    Ok(())
}

// Of 124 sectors for files, 123 pages and a leader take all; one page more is left as it is.
#[test]
fn a_file_that_has_room_is_converted_and_one_that_has_none_is_not(
    rt: HostRuntime,
) -> Result<(), Fail> {
    let rows: [(u32, Status, &[u8]); 2] = [
        (123, Status::Done, b"converted 1 123 0\n"),
        (124, Status::Unfit, b"stopped unfit 125 124\n"),
    ];
    for (pages, status, text) in rows {
        let mut disk = old_volume(rt.alloc(), 2, &[])?;
        put(&mut disk, 132, &FIRST_PAGE, &[0; 512])?;
        for number in 1..pages {
            put(
                &mut disk,
                number.wrapping_add(132),
                &page(number),
                &[0; 512],
            )?;
        }
        let before = disk.written().len();
        let outcome = command(rt.alloc(), "convert", &mut disk, b"")?;
        assert_eq!(rt; outcome.status, status);
        assert_eq!(rt; outcome.out.as_slice(), text);
        let untouched = disk.written().len() == before;
        assert_eq!(rt; untouched, status == Status::Unfit);
    }
    Ok(())
}
