//! Pages in a queue before a disk in memory.
ghost use Rattle.std.specs.Prelude.{◌≤◌};

use labelled_disk::{Disk, FileId, Label, MemoryDisk, NoMemory, Wanted};
use std::alloc::Global;
use write_queue::QueueOver;

const FILE: FileId = 0x7_0000_0001;

pub const SECTORS: u32 = 4096;

/// A queue over a disk in memory.
pub type Waiting = QueueOver<MemoryDisk<Global>, Global>;

// Stores the page of a sector.
fn store(queue: &mut Waiting, sector: u32) -> bool {
    let wanted = Wanted {
        id: FILE,
        page: sector,
    };
    sector < queue.sectors() && queue.write_data(sector, wanted, &[7; 512]).is_ok()
}

/// A queue in which as many pages wait as there is room for, of the first sectors.
pub fn filled(alloc: Global, room: u32) -> Result<Waiting, NoMemory>
    requires least { 1 ≤ room }
    requires most { room ≤ 256 }
{
    let mut disk = MemoryDisk::new(alloc, SECTORS)?;
    for sector in 0..SECTORS {
        if sector < disk.sectors() {
            let _ = disk.write_label(sector, &Label::of_page(FILE, 0, sector));
        }
    }
    match QueueOver::over(alloc, disk, room) {
        Ok(mut queue) => {
            for sector in 0..room {
                let _ = store(&mut queue, sector);
            }
            Ok(queue)
        }
        Err((none, _)) => Err(none),
    }
}

/// How many of so many reads of the pages that wait, one after the other, were answered.
pub fn read(queue: &mut Waiting, room: u32, times: u32) -> u32
    requires { 1 ≤ room }
{
    let mut page = [0; 512];
    let mut answered = 0u32;
    for turn in 0..times {
        let sector = turn % room;
        if sector < queue.sectors() && queue.read(sector, &mut page).is_ok() {
            answered = answered.saturating_add(1);
        }
    }
    answered
}

/// How many of so many stores, each in the sector after the one before, were answered. For each the
/// first page of the sweep is written out.
pub fn store_round(queue: &mut Waiting, times: u32) -> u32 {
    let mut answered = 0u32;
    for turn in 0..times {
        if store(queue, (turn % SECTORS + 256) % SECTORS) {
            answered = answered.saturating_add(1);
        }
    }
    answered
}
