//! A call of a client is carried out, or answered by why it is not.
ghost use Rattle.std.specs.Prelude.{◌≡◌, false, Some};
ghost use Rattle.flat_machine.specs.After.{ends_trace};
ghost use Rattle.flat_machine.specs.Form.{IsInForm};
ghost use Rattle.embedded.specs.Answers.{answer_to};
ghost use Rattle.embedded.specs.Called.{Called};
ghost use Rattle.embedded.specs.Engine.{IsClosed, disk_of};

use crate::held::Held;
use crate::{Code, Engine};
use flat_machine::{Call, Reply};
use labelled_disk::{Disk, Halt};
use std::alloc::Allocator;

// What the client gets for a reply of the machine.
fn answer_to(reply: Reply) -> Result<Reply, Code>
    ensures { result ≡ answer_to reply }
{
    match reply {
        Reply::Refused(why) => Err(Code::Refused(why)),
        Reply::Nothing => Err(Code::NoFile),
        other => Ok(other),
    }
}

impl<D: Disk + Drop, A: Allocator> Engine<D, A> {
    // Lets go of the session, which this stopped.
    pub(crate) fn stop(&mut self, halt: Halt) -> Code
        ensures code { result ≡ Code.Halted halt }
        ensures closed { IsClosed self.new }
        ensures disk { disk_of self.new ≡ disk_of self.old }
        ensures kept { self.new.halt ≡ Some halt }
    {
        self.halt = Some(halt);
        self.drop_session();
        Code::Halted(halt)
    }

    /// Carries out a call that does not end the session.
    pub(crate) fn call(&mut self, call: &Call) -> Result<Reply, Code>
        requires more { ends_trace call.now ≡ false }
        requires in_form { IsInForm call.now }
        ensures { Called call.now self.old result self.new }
    {
        let Held::Session(live) = &mut self.held else {
            return Err(Code::Closed);
        };
        if !live.running() {
            return Err(Code::Closed);
        }
        match live.step(call) {
            Ok(reply) => answer_to(reply),
            Err(halt) => Err(self.stop(halt)),
        }
    }
}
