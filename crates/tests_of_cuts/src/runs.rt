//! Runs on a volume of which each cut is looked at.

use crate::parts::{AHEAD, Cut, LAGS, SECTORS, There, squeezed};
use crate::traces::{LOOK, ROWS, Row, SPACES};
use labelled_disk::{Disk, DiskWrite, Label, MemoryDisk};
use pilot_top::{Status, pilot};
use scavenger::{Report, scavenge};
use std::alloc::Global;
use std::str::from_utf8;
use std::test::Fail;
use trace_io::{MemorySink, MemorySource};
use volume_root::format;
use volume_view::{Condition, look};

// What `run` answers to a trace.
fn answers(alloc: Global, disk: &mut MemoryDisk<Global>, trace: &str) -> Result<String, Fail> {
    let mut words = Vec::new(alloc);
    words.push(String::from_str(alloc, "run")?)?;
    let mut other = MemoryDisk::new(alloc, 0)?;
    let mut source = MemorySource::new(alloc, trace.as_bytes(), &[])?;
    let mut sink = MemorySink::new(alloc, 1000, &[])?;
    let status = pilot(
        alloc,
        alloc,
        &words,
        disk,
        &mut other,
        &mut source,
        &mut sink,
    );
    let text = from_utf8(sink.taken()).unwrap_or("no text");
    if status == Status::Done {
        Ok(String::from_str(alloc, text)?)
    } else {
        Err(Fail::from("the run did not end well"))
    }
}

// A volume without a file. The sectors that files will get, after those of the space tables, have old bytes.
fn volume(alloc: Global) -> Result<MemoryDisk<Global>, Fail> {
    let mut disk = MemoryDisk::failing(alloc, SECTORS, &[], 3000)?;
    format(&mut disk, 7, 1)?;
    for sector in 132..148 {
        if sector < disk.sectors() {
            disk.write(sector, &Label::FREE, &[0xee; 512])?;
        }
    }
    disk.sync()?;
    Ok(disk)
}

// What is found of both files once the volume is restored. Where it says that it was closed it is sound.
fn found(alloc: Global, disk: &mut MemoryDisk<Global>) -> Result<String, Fail> {
    let stands = match look(alloc, disk) {
        Ok(view) => view.condition(),
        Err(_) => Condition::Refused,
    };
    if stands != Condition::Sound && stands != Condition::NotClosed {
        return Ok(String::from_str(alloc, "not sound")?);
    }
    let mut report = Report::with_room(alloc, SECTORS)?;
    if scavenge(alloc, disk, &mut report).is_err() {
        return Ok(String::from_str(alloc, "not restored")?);
    }
    answers(alloc, disk, LOOK)
}

// The cuts of a run, and how often each text was found that may be.
#[derive(Drop)]
struct Looks<'a> {
    alloc: Global,
    row: &'a Row,
    counts: Vec<u32>,
}

impl Looks<'_> {
    fn of(alloc: Global, row: &Row) -> Result<Looks<'_>, Fail> {
        let mut counts = Vec::new(alloc);
        for _ in row.found {
            counts.push(0)?;
        }
        Ok(Looks { alloc, row, counts })
    }

    // Counts a text, and answers whether it may be found.
    fn count(&mut self, text: &str) -> bool {
        let Some(text) = text.strip_prefix(SPACES) else {
            return false;
        };
        for (at, (first, second)) in self.row.found.iter().enumerate() {
            if text.strip_prefix(*first) == Some(*second) {
                if let Some(count) = self.counts.get_mut(at) {
                    *count = count.saturating_add(1);
                    return true;
                }
            }
        }
        false
    }

    // Looks at a cut. One that has a part of a write is looked at only where whole writes do not leave it.
    fn at(&mut self, writes: &[DiskWrite], cut: Cut) -> Result<(), Fail> {
        let (mut disk, in_part) = cut.disk(self.alloc, writes)?;
        if !in_part && !matches!(cut.there, There::Whole | There::Nothing) {
            return Ok(());
        }
        let text = found(self.alloc, &mut disk)?;
        if self.count(&text) {
            return Ok(());
        }
        let (name, made) = (self.row.name, writes.len());
        let why = format!(in self.alloc; "{name}: {made} writes, {cut:?}: {text}")?;
        Err(Fail::from(why.as_str()))
    }

    // Looks at the cuts in which each of the writes since a sync is there so, and the others are.
    fn at_each(
        &mut self,
        writes: &[DiskWrite],
        settled: usize,
        parts: [There; 4],
        others: There,
    ) -> Result<(), Fail> {
        for number in settled..writes.len() {
            for there in parts {
                let cut = Cut {
                    settled,
                    number,
                    there,
                    others,
                };
                self.at(writes, cut)?;
            }
        }
        Ok(())
    }

    // Looks at the cuts between a sync and the next one: after each of the first and the last eight writes since, and
    // each eighth between.
    fn between(&mut self, earlier: &[DiskWrite], since: &[DiskWrite]) -> Result<(), Fail> {
        let mut writes = squeezed(self.alloc, earlier)?;
        let settled = writes.len();
        for (at, write) in since.iter().enumerate() {
            writes.push(*write)?;
            if at < 8 || at % 8 == 0 || since.len().saturating_sub(at) <= 8 {
                self.at_each(&writes, settled, LAGS, There::Whole)?;
            }
        }
        self.at_each(&writes, settled, AHEAD, There::Nothing)
    }
}

// The writes before the sync with this number, and those between it and the next one.
fn around(disk: &MemoryDisk<Global>, at: usize) -> Result<(&[DiskWrite], &[DiskWrite]), Fail> {
    let writes = disk.written();
    let from = disk.syncs().get(at).map_or(0, |sync| *sync as usize);
    let to = disk
        .syncs()
        .get(at.saturating_add(1))
        .map_or(writes.len(), |sync| *sync as usize);
    match (writes.get(..from), writes.get(from..to)) {
        (Some(earlier), Some(since)) => Ok((earlier, since)),
        _ => Err(Fail::from("there were fewer writes")),
    }
}

// How often each text was found that may be.
fn looked(alloc: Global, row: &Row) -> Result<Vec<u32>, Fail> {
    let mut disk = volume(alloc)?;
    if !row.before.is_empty() {
        let _ = answers(alloc, &mut disk, row.before)?;
    }
    let begun = disk.syncs().len();
    if answers(alloc, &mut disk, row.trace)?.contains("error") {
        return Err(Fail::from("a call was refused"));
    }
    let mut looks = Looks::of(alloc, row)?;
    for at in begun.saturating_add(row.syncs)..disk.syncs().len() {
        let (earlier, since) = around(&disk, at)?;
        looks.between(earlier, since)?;
    }
    Ok(looks.counts)
}

#[test]
fn files_stay_whole_where_the_power_goes_in_a_run(rt: HostRuntime) -> Result<(), Fail> {
    for row in ROWS {
        for count in looked(rt.alloc(), &row)? {
            assert!(rt; 0 < count, "{}", row.name);
        }
    }
    Ok(())
}
