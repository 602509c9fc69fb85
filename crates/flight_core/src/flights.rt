//! Clients that ask, and flights that are done.
ghost use Rattle.std.specs.Prelude.{◌≡◌, ◌<◌, ◌≤◌, ◌+◌, ◌^◌, [], ◌∷◌, false, IfOk, Ok, None, Some, IsSome};
ghost use Rattle.flat_machine.specs.After.{ends_trace};
ghost use Rattle.flat_machine.specs.Form.{IsInForm};
ghost use Rattle.flat_machine.specs.Machine.{Machine};
ghost use Rattle.flight_core.specs.declared.answers.Revealed.TheVariants as revealed;
ghost use Rattle.flight_core.specs.declared.answers.Landed.TheVariants as landed;
ghost use Rattle.flight_core.specs.Pending.{AreInOrder, IsClient, IsKept, times};
ghost use Rattle.flight_core.specs.Crowd.{alone, flight_for, begun_for, with_waiting, of_flight, Gets, Asks, Completes};
ghost use Rattle.flight_core.specs.Carrying.{Tries, LedByFirst};
ghost use Rattle.flight_core.specs.LandingCalls.{landing_calls};
ghost use Rattle.flight_core.specs.Tried.{ComesBy};

use crate::pending::{self, Pending, entry_for, entry_of, reference};
use crate::{Answer, Landed, Revealed, Stepped, Tried};
use arrayvec::ArrayVec;
use flat_machine::Call;
use labelled_disk::Halt;

/// A stepped machine, and the clients that wait, the earliest first.
#[derive(Drop)]
pub struct Flights<S: Stepped> {
    pub(crate) stepped: S,
    pub(crate) waiting: ArrayVec<Pending, 16>,
    pub(crate) begun: u64,
    ghost in_order: { AreInOrder begun waiting.items },
}

impl<S: Stepped> Flights<S> {
    ghost use Rattle.flight_core.specs.Halting.{Ends};
    ghost use Rattle.flight_core.specs.Flights.{crowd_of, flight_of, page_of, LeadsTo, IsIdle, WaitsRightly, NeverBlames, after_revealed};

    /// Nobody waits.
    pub fn new(stepped: S) -> Flights<S>
        requires runs { S.runs stepped }
        ensures stepped { result.stepped ≡ stepped }
        ensures alone { (m : Machine) → crowd_of m result ≡ alone m }
    {
        Flights {
            stepped,
            waiting: ArrayVec::new(),
            begun: 0,
        }
    }

    /// The number of the flight that the client waits for.
    pub fn waiting(&self, client: u8) -> Option<u64>
        requires { IsClient client }
        ensures { result ≡ flight_of self.now.waiting.items client }
    {
        entry_of(&self.waiting, client).map(|p| p.flight)
    }

    /// How many flights have begun.
    pub fn begun(&self) -> u64
        ensures { result ≡ self.now.begun }
    {
        self.begun
    }

    /// The stepped machine. Who waits is forgotten.
    pub fn into_inner(self) -> S
        ensures { result ≡ self.stepped }
    {
        let Flights {
            stepped,
            waiting: _,
            begun: _,
        } = self;
        stepped
    }

    /// Carries out a call of a client that does not wait, or lets it wait for a page.
    pub fn ask(&mut self, client: u8, call: &Call) -> Result<Revealed, Halt>
        requires client { IsClient client }
        requires more { ends_trace call.now ≡ false }
        requires in_form { IsInForm call.now }
        requires runs { S.runs self.old.stepped }
        requires few { self.old.begun < 2 ^ 63 }
        ensures asked { (m : Machine) → S.stands self.old.stepped m → IfOk result
            (λ t. LeadsTo (λ n. crowd_of n self.new) (S.stands self.new.stepped)
            (Asks (crowd_of m self.old) client call.now t)) }
        ensures busy { IsIdle (result ≡ Ok revealed.Busy) (IsSome (flight_of self.old.waiting.items client))
            (self.new ≡ self.old) }
        ensures waits { (m : Machine) → S.stands self.old.stepped m → IfOk result
            (WaitsRightly m call.now (S.resident self.new.stepped) (page_of self.new.waiting.items client)) }
        ensures quiet { (m : Machine) → S.stands self.old.stepped m → IfOk result
            (λ t. ComesBy m call.now (S.resident self.old.stepped m)
            (S.resident self.new.stepped (after_revealed m call.now t))) }
        ensures ends { Ends self.old self.new result }
        ensures few { self.new.begun ≤ self.old.begun + 1 }
        ensures led { LedByFirst S.led self.old.stepped (Tries call.now ∷ []) self.new.stepped }
    {
        if self.waiting(client).is_some() {
            return Ok(Revealed::Busy);
        }
        self.attempt(client, call)
    }

    /// Carries out the reference of the owner of a flight, and then tries those of the others that
    /// wait for it, in ascending numbers. One whose page is absent waits again.
    pub fn complete(&mut self, flight: u64) -> Result<Landed, Halt>
        requires runs { S.runs self.old.stepped }
        requires few { self.old.begun < 2 ^ 63 }
        ensures completed { (m : Machine) → S.stands self.old.stepped m → IfOk result
            (λ l. LeadsTo (λ n. crowd_of n self.new) (S.stands self.new.stepped)
            (Completes (crowd_of m self.old) flight l)) }
        ensures none { IsIdle (result ≡ Ok landed.NoFlight) (of_flight self.old.waiting.items flight ≡ [])
            (self.new ≡ self.old) }
        ensures ends { Ends self.old self.new result }
        ensures few { self.new.begun ≤ self.old.begun + 16 }
        ensures led { LedByFirst S.led self.old.stepped (landing_calls (of_flight self.old.waiting.items flight))
            self.new.stepped }
    {
        let landing = pending::of_flight(&self.waiting, flight);
        let Some((owner, others)) = landing.split_first() else {
            return Ok(Landed::NoFlight);
        };
        self.waiting.retain(|p| p.flight != flight);
        let reply = self.stepped.step(&owner.call)?;
        let answer = Answer {
            client: owner.client,
            reply,
        };
        Ok(Landed::Answered(self.try_others(answer, others)?))
    }

    /// Carries out a call, or lets the client wait for the page that is absent.
    pub(crate) fn attempt(&mut self, client: u8, call: &Call) -> Result<Revealed, Halt>
        requires client { IsClient client }
        requires more { ends_trace call.now ≡ false }
        requires in_form { IsInForm call.now }
        requires runs { S.runs self.old.stepped }
        requires few { self.old.begun + 1 < 2 ^ 64 }
        requires free { times self.old.waiting.items client ≡ 0 }
        ensures gets { (m : Machine) → S.stands self.old.stepped m → IfOk result
            (λ t. LeadsTo (λ n. crowd_of n self.new) (S.stands self.new.stepped)
            (Gets (crowd_of m self.old) client call.now t)) }
        ensures waits { (m : Machine) → S.stands self.old.stepped m → IfOk result
            (WaitsRightly m call.now (S.resident self.new.stepped) (page_of self.new.waiting.items client)) }
        ensures quiet { (m : Machine) → S.stands self.old.stepped m → IfOk result
            (λ t. ComesBy m call.now (S.resident self.old.stepped m)
            (S.resident self.new.stepped (after_revealed m call.now t))) }
        ensures ends { Ends self.old self.new result }
        ensures never_blames { ¬ (result ≡ Ok revealed.Busy)
            × NeverBlames client self.old.begun self.old.waiting.items self.new.begun self.new.waiting.items }
        ensures led { S.led self.old.stepped (Tries call.now) self.new.stepped }
    {
        let page = match self.stepped.try_step(call) {
            Ok(Tried::Reply(reply)) => return Ok(Revealed::Answered(reply)),
            Ok(Tried::Absent(page)) => page,
            Err(halt) => return Err(halt),
        };
        Ok(Revealed::Waits(self.join(client, call, page)))
    }

    // Lets a client wait for a page, in the flight that is in the air for it or in a new one.
    fn join(&mut self, client: u8, call: &Call, page: u32) -> u64
        requires client { IsClient client }
        requires kept { IsKept call.now }
        requires few { self.old.begun + 1 < 2 ^ 64 }
        requires free { times self.old.waiting.items client ≡ 0 }
        ensures flight { result ≡ flight_for self.old.begun self.old.waiting.items page }
        ensures begun { self.new.begun ≡ begun_for self.old.begun self.old.waiting.items page }
        ensures waiting { self.new.waiting.items
            ≡ with_waiting self.old.begun self.old.waiting.items client call.now page }
        ensures stepped { self.new.stepped ≡ self.old.stepped }
    {
        let flight = self.flight_for(page);
        self.waiting.push(Pending {
            client,
            call: reference(call),
            page,
            flight,
        });
        self.begun = self.begun.max(flight);
        flight
    }

    // The flight that is in the air for the page, or else the next one.
    fn flight_for(&self, page: u32) -> u64
        requires { self.now.begun + 1 < 2 ^ 64 }
        ensures { result ≡ flight_for self.now.begun self.now.waiting.items page }
    {
        match entry_for(&self.waiting, page) {
            Some(pending) => pending.flight,
            None => self.begun + 1,
        }
    }
}
