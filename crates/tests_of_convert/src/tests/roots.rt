//! Disks that have no old volume, or one that was not closed.

use super::{FIRST_PAGE, command, old_volume, own, put, root_page};
use labelled_disk::{Label, MemoryDisk};
use pilot_top::Status;
use std::test::Fail;

// The label and one byte of the root of an old volume. Whether it was closed is not asked.
#[test]
fn each_part_of_an_old_root_is_tested(rt: HostRuntime) -> Result<(), Fail> {
    let root = own(4, 0);
    let rows: [(Label, usize, u8, &[u8]); 13] = [
        (Label::FREE, 11, 1, b"stopped notvolume label\n"),
        (FIRST_PAGE, 11, 1, b"stopped notvolume label\n"),
        (root, 7, 0, b"stopped notvolume magic\n"),
        (root, 9, 0, b"stopped version 0\n"),
        (root, 9, 3, b"stopped version 3\n"),
        (root, 9, 4, b"stopped version 4\n"),
        (root, 8, 1, b"stopped version 258\n"),
        (root, 15, 1, b"stopped notvolume count\n"),
        (root, 19, 0, b"stopped notvolume serial\n"),
        (root, 23, 0, b"stopped notvolume counter\n"),
        (root, 10, 1, b"stopped notvolume flag\n"),
        (root, 24, 1, b"stopped notvolume rest\n"),
        (root, 11, 0, b"converted 0 0 0\n"),
    ];
    for (label, at, byte, text) in rows {
        let mut disk = old_volume(rt.alloc(), 2, &[])?;
        let mut page = root_page(2);
        if let Some(place) = page.get_mut(at) {
            *place = byte;
        }
        put(&mut disk, 0, &label, &page)?;
        let before = disk.written().len();
        let outcome = command(rt.alloc(), "convert", &mut disk, b"")?;
        assert_eq!(rt; outcome.out.as_slice(), text, "byte {at}");
        let refused = outcome.status == Status::NotOpened;
        let untouched = disk.written().len() == before;
        assert_eq!(rt; untouched, refused, "byte {at}");
    }
    Ok(())
}

#[test]
fn a_disk_of_a_number_of_sectors_that_no_old_volume_has_is_refused(
    rt: HostRuntime,
) -> Result<(), Fail> {
    let rows: [(u32, &[u8]); 3] = [
        (0, b"stopped count 0\n"),
        (255, b"stopped count 255\n"),
        (65_537, b"stopped count 65537\n"),
    ];
    for (sectors, text) in rows {
        let mut disk = MemoryDisk::new(rt.alloc(), sectors)?;
        put(&mut disk, 0, &own(4, 0), &root_page(2))?;
        let outcome = command(rt.alloc(), "convert", &mut disk, b"")?;
        assert_eq!(rt; outcome.status, Status::NotOpened);
        assert_eq!(rt; outcome.out.as_slice(), text);
    }
    Ok(())
}
