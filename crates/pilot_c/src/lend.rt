//! The engine of a handle is lent.
ghost use Rattle.std.specs.Prelude.{◌≡◌};
ghost use Rattle.std.specs.Borrow.{sem};
ghost use Rattle.pilot_c.specs.Lends.{lends};

use crate::Pilot;
use embedded::ImageEngine;

impl Pilot {
    pub(crate) fn engine(&mut self) -> &mut ImageEngine
        ensures* writes_back { sem 𝓛 (lends self.entry result) }
        ensures value { result.now ≡ self.old.value }
    {
        unsafe { &mut *(self.ptr as *mut ImageEngine) }
    }
}
