//! A file that moves few bytes a call and fails at one call, and a disk over it.

use crate::files::calls;
use anyhow::{Context, Result};
use image_disk::{ImageDisk, LABELS, Trouble, new_image};
use labelled_disk::{Disk, Label, Wanted};
use std::cell::Cell;
use std::fs::{File, Metadata, OpenFile, OpenOptions};
use std::os::unix::fs::FileExt;
use std::{fs, io};

/// The file beneath.
const NAME: &str = "halting";

/// The leader of the file `0000000700000001`, of type 9, permanent and mutable.
const LEADER: Label = Label {
    id: 0x0000_0007_0000_0001,
    page: 0xffff_ffff,
    kind: 9,
    flags: 1,
    last: 0,
};

const WANTED: Wanted = Wanted {
    id: 0x0000_0007_0000_0001,
    page: 0xffff_ffff,
};

#[derive(Drop)]
struct Halting<'a> {
    file: &'a File,
    calls: &'a Cell<u32>,
    failing: u32,
    most: usize,
}

impl Halting<'_> {
    fn turn(&self) -> io::Result<()> {
        let call = self.calls.get().saturating_add(1);
        self.calls.set(call);
        if call == self.failing {
            return Err(io::ErrorKind::Other.into());
        }
        Ok(())
    }
}

impl FileExt for Halting<'_> {
    fn read_at(&self, buf: &mut [u8], offset: u64) -> io::Result<usize> {
        self.turn()?;
        let count = buf.len().min(self.most);
        self.file.read_at(&mut buf[..count], offset)
    }

    fn write_at(&self, buf: &[u8], offset: u64) -> io::Result<usize> {
        self.turn()?;
        let count = buf.len().min(self.most);
        self.file.write_at(&buf[..count], offset)
    }
}

impl OpenFile for Halting<'_> {
    fn metadata(&self) -> io::Result<Metadata> {
        self.file.metadata()
    }

    fn set_len(&self, size: u64) -> io::Result<()> {
        self.file.set_len(size)
    }

    fn sync_all(&self) -> io::Result<()> {
        self.turn()
    }

    fn sync_data(&self) -> io::Result<()> {
        self.turn()
    }
}

fn mark<T: Drop, E: Drop>(done: Result<T, E>) -> char {
    if done.is_ok() { '+' } else { '!' }
}

/// What becomes of a write, a read, a write of a label, one of a page and a syncing over three sectors: a mark for each, and how many
/// faults, transfers and calls there were.
fn marks<F: FileExt + OpenFile>(rt: &HostRuntime, disk: &mut ImageDisk<F>) -> Result<String> {
    let mut text = String::new(rt.alloc());
    if disk.sectors() == 3 {
        let mut page = [65; 512];
        text.push(mark(disk.write(2, &LEADER, &page)))?;
        text.push(mark(disk.read(0, &mut page)))?;
        text.push(mark(disk.write_label(2, &LEADER)))?;
        text.push(mark(disk.write_data(1, WANTED, &page)))?;
        text.push(mark(disk.sync()))?;
    }
    let (faults, transfers) = (disk.faults(), disk.transfers());
    text.push_str(&format!(in rt.alloc(); " {faults} {transfers}")?)?;
    Ok(text)
}

/// Where the last call that failed did so.
fn place<F: FileExt + OpenFile>(rt: &HostRuntime, disk: &ImageDisk<F>) -> Result<String> {
    Ok(match disk.trouble() {
        Some(Trouble::Sector { sector, .. }) => format!(in rt.alloc(); "sector {sector}")?,
        Some(Trouble::Syncing(_)) => String::from_str(rt.alloc(), "settling")?,
        None => String::from_str(rt.alloc(), "nowhere")?,
    })
}

/// The same of a new file, of which one call fails, none being 0. Its sector 1 has the label of the leader.
pub(crate) fn answer(rt: &HostRuntime, failing: u32) -> Result<String> {
    let _ = fs::remove_file(rt, NAME);
    let mut made = new_image(rt, 3, NAME)?;
    if made.sectors() == 3 {
        made.write_label(1, &LEADER)?;
    }
    drop(made);
    let file = OpenOptions::new().read(true).write(true).open(rt, NAME)?;
    let calls = Cell::new(0);
    let mut disk = ImageDisk::over(Halting {
        file: &file,
        calls: &calls,
        failing,
        most: 100,
    });
    let text = marks(rt, &mut disk)?;
    let place = place(rt, &disk)?;
    Ok(format!(in rt.alloc(); "{text} {} {place}", calls.get())?)
}

/// What calls on a new image of 1,200 sectors answer that remembers what it read or wrote last, and how many calls of the system they
/// make. One of these fails, none being 0.
pub(crate) fn counted(rt: &HostRuntime, words: &str) -> Result<String> {
    let (failing, words) = words.split_once(' ').context("no calls")?;
    let _ = fs::remove_file(rt, NAME);
    drop(new_image(rt, 1200, NAME)?);
    let file = OpenOptions::new().read(true).write(true).open(rt, NAME)?;
    let made = Cell::new(0);
    let mut disk = ImageDisk::over(Halting {
        file: &file,
        calls: &made,
        failing: failing.parse()?,
        most: 1_000_000,
    });
    disk.remember(rt.alloc(), LABELS);
    let text = calls(rt, &mut disk, words)?;
    Ok(format!(in rt.alloc(); "{text}{}", made.get())?)
}
