//! A session as a machine that is stepped, by clients that wait for their pages.
ghost use Rattle.pilot_engine.specs.Leading.{Leads};
ghost use Rattle.pilot_engine.specs.Referring.{TakesCalls};
ghost use Rattle.pilot_engine.specs.Trying.{HasResident, IsAccounted, StandsAs};

use crate::Session;
use flat_machine::{Call, Reply};
use flight_core::{Stepped, Tried};
use labelled_disk::{Disk, Halt};
use std::alloc::Allocator;

impl<D: Disk, A: Allocator> Stepped for Session<D, A> {
    ghost stands = { λ s m. StandsAs s m };

    ghost runs = { λ s. TakesCalls s };

    ghost resident = { λ s m page. HasResident s m page };

    ghost accounted = { λ before after e. IsAccounted before after e };

    ghost led = { λ old one new. Leads old one new };

    fn try_step(&mut self, call: &Call) -> Result<Tried, Halt> {
        Session::try_step(self, call)
    }

    fn step(&mut self, call: &Call) -> Result<Reply, Halt> {
        Session::step(self, call)
    }
}
