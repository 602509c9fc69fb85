//! Volumes are made and restored, while there is no session.
ghost use Rattle.std.specs.Prelude.{◌≡◌};
ghost use Rattle.embedded.specs.Made.{Formats, Restores, Scavenges};
ghost use Rattle.embedded.specs.Opened.{restoration_code};

use crate::held::Held;
use crate::{Code, Engine};
use labelled_disk::{Disk, Halt};
use scavenger::{Report, ScavengeFault, scavenge};
use std::alloc::Allocator;
use volume_root::format;

fn restoration_code(why: ScavengeFault) -> Code
    ensures { result ≡ restoration_code why }
{
    match why {
        ScavengeFault::Root(why) => Code::Root(why),
        ScavengeFault::Disk => Code::Halted(Halt::Disk),
        ScavengeFault::NoMemory => Code::NoMemory,
    }
}

impl<D: Disk + Drop, A: Allocator> Engine<D, A> {
    /// Makes a volume of all sectors of the disk, without a file.
    pub fn format(&mut self, serial: u32, counter: u32) -> Result<(), Code>
        ensures { Formats serial counter self.old result self.new }
    {
        if serial == 0 || counter == 0 {
            return Err(Code::Argument);
        }
        let mut disk = match self.take_disk() {
            Ok(disk) => disk,
            Err(code) => return Err(code),
        };
        let made = format(&mut disk, serial, counter);
        self.held = Held::Disk(disk);
        match made {
            Ok(_) => Ok(()),
            Err(why) => Err(Code::Root(why)),
        }
    }
}

impl<D: Disk + Drop, A: Allocator + Clone> Engine<D, A> {
    /// Restores the volume of the disk from its labels, and says what was found.
    pub fn scavenge(&mut self, alloc: A) -> Result<Report<A>, Code>
        ensures { Scavenges self.old result self.new }
    {
        let mut disk = match self.take_disk() {
            Ok(disk) => disk,
            Err(code) => return Err(code),
        };
        let restored = restored(alloc, &mut disk);
        self.held = Held::Disk(disk);
        match restored {
            Ok(report) => Ok(report),
            Err(why) => Err(restoration_code(why)),
        }
    }
}

// Restores the volume of a disk, and gives what was found.
fn restored<A: Allocator + Clone, D: Disk>(
    alloc: A,
    disk: &mut D,
) -> Result<Report<A>, ScavengeFault>
    ensures { Restores (D.state disk.old) result (D.state disk.new) }
{
    let Ok(own) = alloc.clone() else {
        return Err(ScavengeFault::NoMemory);
    };
    let Ok(mut report) = Report::with_room(own, disk.sectors()) else {
        return Err(ScavengeFault::NoMemory);
    };
    match scavenge(alloc, disk, &mut report) {
        Ok(()) => (),
        Err(why) => return Err(why),
    }
    Ok(report)
}
