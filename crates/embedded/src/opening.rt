//! A session begins and ends.
ghost use Rattle.std.specs.Prelude.{◌≡◌, true, OnOk, OnErr, IfOk, IfErr, IfSome, MatchOption};
ghost use Rattle.embedded.specs.Begun.{Opens, halt_of};
ghost use Rattle.embedded.specs.Closed.{Closes};
ghost use Rattle.embedded.specs.Engine.{IsClosed};
ghost use Rattle.embedded.specs.Opened.{code_of};
ghost use Rattle.embedded.specs.Taking.{MissesFree};

use crate::held::Held;
use crate::live::Live;
use crate::{Code, Engine};
use labelled_disk::{Disk, Halt};
use pilot_engine::{Session, StartFault};
use std::alloc::Allocator;
use std::mem::replace;

fn code_of(why: StartFault) -> Code
    ensures { result ≡ code_of why }
{
    match why {
        StartFault::Root(why) => Code::Root(why),
        StartFault::NoMemory => Code::NoMemory,
        StartFault::Halt(halt) => Code::Halted(halt),
    }
}

// The halt that kept a session from starting, if one did.
fn halt_of(why: StartFault) -> Option<Halt>
    ensures { result ≡ halt_of why }
{
    match why {
        StartFault::Root(_) => None,
        StartFault::NoMemory => None,
        StartFault::Halt(halt) => Some(halt),
    }
}

impl<D: Disk + Drop, A: Allocator> Engine<D, A> {
    // Takes the disk out of an engine without a session.
    pub(crate) fn take_disk(&mut self) -> Result<D, Code>
        ensures disk { IfOk result (λ disk. self.old.held ≡ Held.Disk disk) }
        ensures taken { OnOk result (self.new ≡ record self.old { held = Held.Nothing }) }
        ensures why { IfErr result (MissesFree self.old.held) }
        ensures same { OnErr result (self.new ≡ self.old) }
    {
        match replace(&mut self.held, Held::Nothing) {
            Held::Nothing => Err(Code::Closed),
            Held::Disk(disk) => Ok(disk),
            Held::Session(live) => {
                self.held = Held::Session(live);
                Err(Code::Open)
            }
        }
    }

    // Takes a session that carries out calls out of the engine.
    fn take_session(&mut self) -> Option<Live<D, A>>
        ensures session { IfSome result (λ live. (self.old.held ≡ Held.Session live) × (live.session.running ≡ true)) }
        ensures halt { self.new.halt ≡ self.old.halt }
        ensures none { MatchOption result (IsClosed self.old × (self.new ≡ self.old))
            (λ live. self.new.held ≡ Held.Nothing) }
    {
        if !self.is_open() {
            return None;
        }
        match replace(&mut self.held, Held::Nothing) {
            Held::Session(live) => Some(live),
            held => {
                self.held = held;
                None
            }
        }
    }

    /// Starts a session on the volume of the disk, with 24 to 4,096 frames. This takes all memory that it ever has.
    pub fn open(&mut self, alloc: A, frames: u32) -> Result<(), Code>
        ensures { Opens frames self.old result self.new }
    {
        if !(24..=4096).contains(&frames) {
            return Err(Code::Argument);
        }
        let disk = match self.take_disk() {
            Ok(disk) => disk,
            Err(code) => return Err(code),
        };
        match Session::over(alloc, disk, frames) {
            Ok(session) => {
                self.held = Held::Session(Live::of(session));
                self.halt = None;
                Ok(())
            }
            Err((why, disk)) => {
                self.held = Held::Disk(disk);
                self.halt = halt_of(why);
                Err(code_of(why))
            }
        }
    }

    /// Ends the session: its temporary files go, and the volume is closed, on the medium.
    pub fn close(&mut self) -> Result<(), Code>
        ensures { Closes self.old result self.new }
    {
        let Some(live) = self.take_session() else {
            return Err(Code::Closed);
        };
        let (closed, disk) = live.into_session().finish();
        self.held = Held::Disk(disk);
        match closed {
            Ok(()) => Ok(()),
            Err(halt) => {
                self.halt = Some(halt);
                Err(Code::Halted(halt))
            }
        }
    }
}
