//! Calls in a fixed pseudo-random order over a queue, beside the same calls over a plain disk.

use crate::disks::{SECTORS, label, labelled, wanted};
use labelled_disk::{Disk, DiskError, Label, NoMemory, Page};
use std::alloc::Allocator;
use std::test::Fail;
use write_queue::QueueOver;

// The next number of a fixed row.
fn next(seed: u32) -> u32 {
    seed.wrapping_mul(1_103_515_245).wrapping_add(12_345)
}

// The answer of a call that the number gives, and the page that was read. One label of eight names another page.
fn answer<D: Disk>(disk: &mut D, number: u32) -> (Result<Label, DiskError>, Page) {
    let sector = number / 0x1_0000 % SECTORS;
    let page = [(number / 256 % 251) as u8; 512];
    let other = number / 0x80_0000 % 8 == 0;
    let mut found = [0; 512];
    if sector >= disk.sectors() {
        return (Err(DiskError::Failed), found);
    }
    let label = if other { Label::FREE } else { label(sector) };
    let done = match number / 0x400_0000 {
        0..=27 => disk.write_data(sector, wanted(sector), &page),
        28..=55 => {
            let answer = disk.read(sector, &mut found);
            return (answer, found);
        }
        56..=58 => disk.write_label(sector, &label),
        59..=60 => disk.write(sector, &label, &page),
        _ => disk.sync(),
    };
    (done.map(|_| label), found)
}

// The first of 20,000 turns at which a queue over the disk answers other than the plain one, or None. The queue is settled.
fn first_difference<D: Disk, E: Disk, A: Allocator + Clone>(
    alloc: A,
    disk: &mut D,
    plain: &mut E,
) -> Result<Option<u32>, NoMemory> {
    let mut queue = QueueOver::with_room(alloc, disk, 8)?;
    let mut difference = None;
    let mut number = 7;
    for turn in 0..20_000u32 {
        number = next(number);
        if answer(&mut queue, number) != answer(plain, number) && difference.is_none() {
            difference = Some(turn);
        }
    }
    if queue.sync().is_err() || queue.waiting() > 0 {
        difference = Some(20_000);
    }
    let _ = queue.into_disk();
    Ok(difference)
}

#[test]
fn a_queue_answers_as_the_disk_beneath(rt: HostRuntime) -> Result<(), Fail> {
    let mut plain = labelled(rt.alloc(), &[], 40_000)?;
    let mut disk = labelled(rt.alloc(), &[], 40_000)?;
    assert_eq!(rt; first_difference(rt.alloc(), &mut disk, &mut plain)?, None);
    assert!(rt; disk.written().len() < plain.written().len());
    for sector in 0..SECTORS {
        let read = 28 * 0x400_0000 + sector * 0x1_0000;
        assert_eq!(rt;
            answer(&mut disk, read),
            answer(&mut plain, read),
            "sector {sector}"
        );
    }
    Ok(())
}
