//! One call in a session that has what the call requires.
ghost use Rattle.std.specs.Prelude.{◌≡◌, true, false};
ghost use Rattle.flat_machine.specs.After.{ends_trace};
ghost use Rattle.flat_machine.specs.Form.{IsInForm};
ghost use Rattle.embedded.specs.Stepped.{Stepped};

use crate::live::Live;
use flat_machine::{Call, Reply};
use labelled_disk::{Disk, Halt};
use std::alloc::Allocator;

impl<D: Disk, A: Allocator> Live<D, A> {
    /// Whether no call has stopped it.
    pub(crate) fn running(&self) -> bool
        ensures { result ≡ self.now.session.running }
    {
        self.session.running()
    }

    /// Carries out a call that does not end the session.
    pub(crate) fn step(&mut self, call: &Call) -> Result<Reply, Halt>
        requires more { ends_trace call.now ≡ false }
        requires in_form { IsInForm call.now }
        requires running { self.old.session.running ≡ true }
        ensures { Stepped call.now self.old.session result self.new.session }
    {
        self.session.step(call)
    }
}
