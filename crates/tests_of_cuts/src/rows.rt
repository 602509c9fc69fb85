//! A volume with a file that is made anew, and one that is restored.

use crate::parts::{Cut, LAGS, SECTORS, There};
use labelled_disk::{Disk, DiskWrite, LEADER, Label, MemoryDisk};
use scavenger::{Report, scavenge};
use std::alloc::{Allocator, Global};
use std::test::Fail;
use volume_root::{Root, RootFault, format, read_root, write_root};

// The identifier of a file that the root's counter has not come to.
const FILE: u64 = 0x7_0000_0009;

// A volume with a file of one page, and a temporary one, as a run leaves it that was halted or closed.
fn volume<A: Allocator + Clone>(alloc: A, clean: bool) -> Result<MemoryDisk<A>, Fail> {
    let mut disk = MemoryDisk::failing(alloc, SECTORS, &[], 700)?;
    format(&mut disk, 7, 1)?;
    if disk.sectors() == SECTORS {
        let mut leader = Label::of_page(FILE, 0, LEADER);
        leader.flags = 1;
        disk.write(100, &leader, &[0; 512])?;
        disk.write(101, &Label::of_page(FILE, 0, 0), &[5; 512])?;
        disk.write(102, &Label::of_page(FILE + 1, 0, LEADER), &[0; 512])?;
        let root = Root {
            version: 3,
            clean,
            sectors: SECTORS,
            serial: 7,
            counter: 1,
        };
        write_root(&mut disk, &root)?;
    }
    disk.sync()?;
    Ok(disk)
}

// How many writes had been made at each of the last three syncs.
fn syncs_of<A: Allocator>(disk: &MemoryDisk<A>) -> Option<(u64, u64, u64)> {
    let [.., first, second, third] = disk.syncs() else {
        return None;
    };
    Some((*first, *second, *third))
}

// A new disk with these writes, of which the one with this number is there so.
fn cut<A: Allocator + Clone>(
    alloc: A,
    writes: &[DiskWrite],
    number: usize,
    there: There,
) -> Result<MemoryDisk<A>, Fail> {
    let cut = Cut {
        settled: 0,
        number,
        there,
        others: There::Whole,
    };
    let (disk, _) = cut.disk(alloc, writes)?;
    Ok(disk)
}

// Whether no root is accepted, or that of serial 9.
fn is_none_or_new(
    alloc: Global,
    writes: &[DiskWrite],
    at: usize,
    part: There,
) -> Result<bool, Fail> {
    let mut disk = cut(alloc, writes, at, part)?;
    Ok(read_root(&mut disk, false).map_or(true, |root| root.serial == 9))
}

#[test]
fn an_old_root_is_gone_before_the_new_one(rt: HostRuntime) -> Result<(), Fail> {
    let mut disk = volume(rt.alloc(), true)?;
    format(&mut disk, 9, 1)?;
    let Some((first, second, third)) = syncs_of(&disk) else {
        return Err(Fail::from("there were no three syncs"));
    };
    assert_eq!(rt; third, disk.written().len() as u64);
    assert_eq!(rt; second.checked_sub(first), Some(255));
    assert_eq!(rt; third.checked_sub(second), Some(1));
    for made in first..third {
        let Some(writes) = disk.written().get(..made as usize + 1) else {
            return Err(Fail::from("there were fewer writes"));
        };
        for part in LAGS {
            assert!(rt;
                is_none_or_new(rt.alloc(), writes, writes.len() - 1, part)?,
                "{made}"
            );
        }
    }
    Ok(())
}

// Whether both disks hold the same.
fn are_same<D: Disk>(one: &mut D, other: &mut D) -> Result<bool, Fail> {
    for sector in 0..SECTORS {
        if sector >= one.sectors() || sector >= other.sectors() {
            return Ok(false);
        }
        let (mut page, mut other_page) = ([0; 512], [0; 512]);
        let label = one.read(sector, &mut page)?;
        if other.read(sector, &mut other_page)? != label || page != other_page {
            return Ok(false);
        }
    }
    Ok(true)
}

// Files and pages that are found when the disk is restored.
fn restored<D: Disk>(alloc: Global, disk: &mut D) -> Result<(u32, u32), Fail> {
    let mut report = Report::with_room(alloc, SECTORS)?;
    match scavenge(alloc, disk, &mut report) {
        Ok(()) => Ok((report.files, report.pages)),
        Err(_) => Err(Fail::from("the volume is not restored")),
    }
}

// Whether the volume is not clean or as it is in the end, and has the one file.
fn is_open_or_whole<D: Disk>(alloc: Global, disk: &mut D, end: &mut D) -> Result<bool, Fail> {
    let stands = match read_root(disk, true) {
        Ok(_) => are_same(disk, end)?,
        Err(why) => why == RootFault::Unclean,
    };
    Ok(stands && restored(alloc, disk)? == (1, 1))
}

#[test]
fn a_volume_is_clean_once_it_is_restored(rt: HostRuntime) -> Result<(), Fail> {
    for clean in [false, true] {
        let mut disk = volume(rt.alloc(), clean)?;
        assert_eq!(rt; restored(rt.alloc(), &mut disk)?, (1, 1));
        let Some((first, second, third)) = syncs_of(&disk) else {
            return Err(Fail::from("there were no three syncs"));
        };
        assert_eq!(rt; third, disk.written().len() as u64);
        assert!(rt; first < second && third.checked_sub(second) == Some(1));
        let mut end = cut(rt.alloc(), disk.written(), 0, There::Whole)?;
        for made in first..third {
            let Some(writes) = disk.written().get(..made as usize + 1) else {
                return Err(Fail::from("there were fewer writes"));
            };
            for part in LAGS {
                let mut left = cut(rt.alloc(), writes, writes.len() - 1, part)?;
                assert!(rt;
                    is_open_or_whole(rt.alloc(), &mut left, &mut end)?,
                    "{made}"
                );
            }
        }
    }
    Ok(())
}
