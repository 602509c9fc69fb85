//! A machine that is stepped, and can say that a page has to be brought in first.
ghost use Rattle.std.specs.Prelude.{◌≡◌, ℕ, false, IfOk, IfErr, OnOk};
ghost use Rattle.labelled_disk.specs.declared.evidence.Halt.{Halt};
ghost use Rattle.labelled_disk.specs.declared.evidence.Halt.TheVariants as halt;
ghost use Rattle.flat_machine.specs.After.{ends_trace};
ghost use Rattle.flat_machine.specs.Form.{IsInForm};
ghost use Rattle.flat_machine.specs.Machine.{Machine};
ghost use Rattle.flight_core.specs.Carrying.{Carried, Tries, Steps};
ghost use Rattle.flight_core.specs.Tried.{IsAnswered, IsTried, MayBeTried, ComesBy, after_tried};

use flat_machine::{Call, Reply};
use labelled_disk::Halt;

/// What comes of a call that brings in no page of a client.
#[derive(Drop)]
pub enum Tried {
    Reply(Reply),
    /// The call is a load or a store that is not refused, and this is its first page that is not
    /// resident. Nothing was done.
    Absent(u32),
}

/// What stands for a machine, and carries out its calls.
pub trait Stepped {
    /// It stands for the machine.
    ghost stands: { Self → Machine → Type 0 };

    /// It goes on: no call has halted it.
    ghost runs: { Self → Type 0 };

    /// A page of the virtual memory of this machine is resident.
    ghost resident: { Self → Machine → ℕ → Type 0 };

    /// This halt is accounted for between two states.
    ghost accounted: { Self → Self → Halt → Type 0 };

    /// This call, tried or carried out, may lead from the first state to the second, whether or not it halts.
    ghost led: { Self → Carried → Self → Type 0 };

    /// Carries out a call, unless a page has to be brought in for it first.
    fn try_step(&mut self, call: &Call) -> Result<Tried, Halt>
        requires runs { runs self.old }
        requires more { ends_trace call.now ≡ false }
        requires in_form { IsInForm call.now }
        ensures tried { (m : Machine) → stands self.old m
            → IfOk result (λ t. IsTried m call.now t (stands self.new) (resident self.new)) }
        ensures absent { IfOk result (MayBeTried call.now) }
        ensures quiet { (m : Machine) → stands self.old m
            → IfOk result (λ t. ComesBy m call.now (resident self.old m)
            (resident self.new (after_tried m call.now t))) }
        ensures sound { (m : Machine) → stands self.old m → IfErr result (λ e. e ≡ halt.Disk) }
        ensures cause { IfErr result (accounted self.old self.new) }
        ensures later { (s : Self) (e : Halt) → OnOk result (accounted self.new s e → accounted self.old s e) }
        ensures goes_on { OnOk result (runs self.new) }
        ensures led { led self.old (Tries call.now) self.new };

    /// Carries out a call, and brings in what it needs.
    fn step(&mut self, call: &Call) -> Result<Reply, Halt>
        requires runs { runs self.old }
        requires more { ends_trace call.now ≡ false }
        requires in_form { IsInForm call.now }
        ensures carried { (m : Machine) → stands self.old m
            → IfOk result (λ r. IsAnswered m call.now r (stands self.new)) }
        ensures sound { (m : Machine) → stands self.old m → IfErr result (λ e. e ≡ halt.Disk) }
        ensures cause { IfErr result (accounted self.old self.new) }
        ensures later { (s : Self) (e : Halt) → OnOk result (accounted self.new s e → accounted self.old s e) }
        ensures goes_on { OnOk result (runs self.new) }
        ensures led { led self.old (Steps call.now) self.new };
}
