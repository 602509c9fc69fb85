//! A session, or none, over a disk.
ghost use Rattle.std.specs.Prelude.{◌≡◌};

use crate::Code;
use crate::held::Held;
use labelled_disk::{Disk, Halt};
use std::alloc::Allocator;
use std::mem::replace;

/// A session, or none, over a disk, and why the last one stopped.
#[derive(Drop)]
pub struct Engine<D: Disk, A: Allocator> {
    pub(crate) held: Held<D, A>,
    pub(crate) halt: Option<Halt>,
}

impl<D: Disk + Drop, A: Allocator> Engine<D, A> {
    ghost use Rattle.embedded.specs.Closed.{Abandons};
    ghost use Rattle.embedded.specs.Engine.{IsClosed, disk_of, is_open};
    ghost use Rattle.embedded.specs.Taking.{IsFresh, LetsGo};

    /// No session yet, over a disk.
    pub fn over(disk: D) -> Engine<D, A>
        ensures { IsFresh (D.state disk) result }
    {
        Engine {
            held: Held::Disk(disk),
            halt: None,
        }
    }

    /// What stopped the last session, if something did, or kept it from starting.
    pub fn evidence(&self) -> Option<Halt>
        ensures { result ≡ self.now.halt }
    {
        self.halt
    }

    /// Whether there is a session whose calls may be carried out.
    pub fn is_open(&self) -> bool
        ensures { result ≡ is_open self.now }
    {
        match &self.held {
            Held::Session(live) => live.running(),
            _ => false,
        }
    }

    // Lets go of the session, if there is one: its disk stays as it is.
    pub(crate) fn drop_session(&mut self)
        ensures closed { IsClosed self.new }
        ensures disk { disk_of self.new ≡ disk_of self.old }
        ensures halt { self.new.halt ≡ self.old.halt }
    {
        self.held = match replace(&mut self.held, Held::Nothing) {
            Held::Session(live) => Held::Disk(live.into_session().into_disk()),
            held => held,
        };
    }

    /// Lets the session go: what was not forced may be lost, and the volume is left open.
    pub fn abandon(&mut self) -> Result<(), Code>
        ensures { Abandons self.old result self.new }
    {
        if !self.is_open() {
            return Err(Code::Closed);
        }
        self.drop_session();
        Ok(())
    }

    /// Lets the disk go, and with it a session, if there is one.
    pub fn release(&mut self)
        ensures { LetsGo self.old self.new }
    {
        self.held = Held::Nothing;
    }
}
