//! An engine over an image file.
ghost use Rattle.std.specs.Prelude.{◌≡◌, None};
ghost use Rattle.embedded.specs.Begun.{Opens};
ghost use Rattle.embedded.specs.Closed.{Abandons};
ghost use Rattle.embedded.specs.Engine.{IsClosed, disk_of};
ghost use Rattle.embedded.specs.Made.{Scavenges};
ghost use Rattle.embedded.specs.Taking.{IsNew, free_disk};

use crate::held::Held;
use crate::{Code, Engine};
use image_disk::{ImageDisk, LABELS};
use scavenger::Report;
use std::alloc::Global;
use std::fs::File;
use std::mem::replace;

/// An engine over an image file that was opened, with memory of the process.
#[derive(Drop)]
pub struct ImageEngine {
    pub engine: Engine<ImageDisk<File>, Global>,
}

impl ImageEngine {
    /// No session yet, over a file.
    pub fn over(file: File) -> ImageEngine
        ensures { IsNew result.engine }
    {
        ImageEngine {
            engine: Engine::over(ImageDisk::over(file)),
        }
    }

    /// As `open` of the engine, over a disk that remembers what it read or wrote last, the labels of as many
    /// sectors as there are frames, and joins pages that are written one after the other, where there is memory
    /// for that.
    pub fn open(&mut self, alloc: Global, frames: u32) -> Result<(), Code>
        ensures { Opens frames self.old.engine result self.new.engine }
    {
        if !(24..=4096).contains(&frames) {
            return Err(Code::Argument);
        }
        self.engine.remember(alloc, LABELS.max(frames as usize));
        self.engine.open(alloc, frames)
    }

    /// As `scavenge` of the engine, over such a disk.
    pub fn scavenge(&mut self, alloc: Global) -> Result<Report<Global>, Code>
        ensures { Scavenges self.old.engine result self.new.engine }
    {
        self.engine.remember(alloc, LABELS);
        self.engine.scavenge(alloc)
    }

    /// As `abandon` of the engine; pages that were written and wait for others are put into the file.
    pub fn abandon(&mut self) -> Result<(), Code>
        ensures { Abandons self.old.engine result self.new.engine }
    {
        match self.engine.abandon() {
            Ok(()) => (),
            Err(code) => return Err(code),
        }
        self.engine.write_out();
        Ok(())
    }
}

impl Engine<ImageDisk<File>, Global> {
    // From now on the disk remembers what it read or wrote last, and so many labels, and joins pages, if there is
    // no session.
    fn remember(&mut self, alloc: Global, labels: usize)
        ensures same { free_disk self.old ≡ None → self.new ≡ self.old }
        ensures free { free_disk self.new ≡ free_disk self.old }
        ensures halt { self.new.halt ≡ self.old.halt }
    {
        self.held = match replace(&mut self.held, Held::Nothing) {
            Held::Disk(mut disk) => {
                disk.remember(alloc, labels);
                disk.join_pages(alloc);
                Held::Disk(disk)
            }
            held => held,
        };
    }

    // Puts what waits into the file, if there is no session. Where that fails, what was to be on the medium is
    // there all the same.
    fn write_out(&mut self)
        ensures closed { IsClosed self.old → IsClosed self.new }
        ensures disk { disk_of self.new ≡ disk_of self.old }
        ensures halt { self.new.halt ≡ self.old.halt }
    {
        self.held = match replace(&mut self.held, Held::Nothing) {
            Held::Disk(mut disk) => {
                let _ = disk.write_out();
                Held::Disk(disk)
            }
            held => held,
        };
    }
}
