//! Pages that are let wait and written out, step by step, over a disk that records and may fail.

use crate::disks::{label, labelled, wanted};
use labelled_disk::{Disk, DiskError, DiskWrite};
use std::alloc::Allocator;
use std::test::Fail;
use write_queue::QueueOver;

// A call of a queue, with what it has to come to.
#[derive(Clone, Copy)]
enum Step {
    /// A page of this byte is stored in the sector.
    Store(u32, u8),
    /// A store into the sector fails.
    StoreFails(u32),
    /// The sector's page is of this byte.
    Read(u32, u8),
    /// The sector's label is written.
    Label(u32),
    /// So many pages wait.
    Waiting(u32),
    Sync,
    SyncFails,
}

use Step::*;

// The room of a queue, the calls at which the disk beneath fails, the steps, and the sectors that were
// written beneath, in their order.
type Row = (u32, &'static [u64], &'static [Step], &'static [u32]);

static ROWS: [Row; 5] = [
    // Two sweeps; the second begins at the sector that was written out last.
    (
        4,
        &[],
        &[
            Store(40, 7),
            Store(36, 7),
            Store(50, 7),
            Waiting(3),
            Sync,
            Store(60, 9),
            Store(37, 9),
            Store(45, 9),
            Read(60, 9),
            Sync,
            Waiting(0),
        ],
        &[36, 40, 50, 60, 37, 45],
    ),
    // A full queue writes the first page of the sweep out, and a label is written after what waits.
    (
        2,
        &[],
        &[
            Store(40, 7),
            Store(36, 7),
            Store(50, 7),
            Waiting(2),
            Sync,
            Store(52, 8),
            Label(53),
        ],
        &[36, 40, 50, 52, 53],
    ),
    // A page that is stored again costs no second write.
    (
        2,
        &[],
        &[Store(9, 1), Store(9, 2), Store(9, 3), Read(9, 3), Sync],
        &[9],
    ),
    // The disk fails in the middle of a sweep, and then works.
    (
        4,
        &[69],
        &[
            Store(40, 7),
            Store(36, 7),
            Store(50, 7),
            SyncFails,
            Waiting(2),
            Read(40, 7),
            Sync,
            Waiting(0),
        ],
        &[36, 40, 50],
    ),
    // The disk fails where a full queue makes room, and then works.
    (
        2,
        &[68],
        &[
            Store(40, 7),
            Store(36, 7),
            StoreFails(50),
            Waiting(2),
            Store(50, 7),
            Sync,
        ],
        &[36, 40, 50],
    ),
];

// Whether a step comes to what it has to.
fn comes_true<D: Disk, A: Allocator>(queue: &mut QueueOver<D, A>, step: Step) -> bool {
    let sectors = queue.sectors();
    match step {
        Store(sector, byte) if sector < sectors => {
            queue
                .write_data(sector, wanted(sector), &[byte; 512])
                .is_ok()
        }
        StoreFails(sector) if sector < sectors => {
            queue.write_data(sector, wanted(sector), &[0; 512]) == Err(DiskError::Failed)
        }
        Read(sector, byte) if sector < sectors => {
            let mut page = [0; 512];
            queue.read(sector, &mut page) == Ok(label(sector)) && page == [byte; 512]
        }
        Label(sector) if sector < sectors => queue.write_label(sector, &label(sector)).is_ok(),
        Waiting(count) => queue.waiting() == count,
        Sync => queue.sync().is_ok(),
        SyncFails => queue.sync() == Err(DiskError::Failed),
        _ => false,
    }
}

// The sector of a write.
fn place(write: &DiskWrite) -> u32 {
    match write {
        DiskWrite::Whole { sector, .. }
        | DiskWrite::LabelOnly { sector, .. }
        | DiskWrite::Page { sector, .. } => *sector,
    }
}

#[test]
fn the_steps_of_each_row(rt: HostRuntime) -> Result<(), Fail> {
    for (number, (room, failing, steps, written)) in ROWS.iter().enumerate() {
        let disk = labelled(rt.alloc(), failing, 128)?;
        assert!(rt; 1 <= *room && *room <= 256);
        let Ok(mut queue) = QueueOver::over(rt.alloc(), disk, *room) else {
            return Err(Fail::from("no memory"));
        };
        for (count, step) in steps.iter().enumerate() {
            assert!(rt; comes_true(&mut queue, *step), "row {number}, step {count}");
        }
        let disk = queue.into_disk();
        let places = disk.written().iter().skip(64).map(place);
        assert!(rt; places.eq(written.iter().copied()), "row {number}");
    }
    Ok(())
}
