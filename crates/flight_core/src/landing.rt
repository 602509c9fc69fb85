//! The others of a flight that lands.
ghost use Rattle.std.specs.Prelude.{◌≡◌, ◌<◌, ◌≤◌, ◌+◌, ◌^◌, ◌++◌, ℕ, IfOk, None, IsSome, length};
ghost use Rattle.std.specs.List.{All};
ghost use Rattle.flat_machine.specs.Machine.{Machine};
ghost use Rattle.flight_core.specs.Pending.{IsClient, IsKept};
ghost use Rattle.flight_core.specs.Crowd.{entry_of, by_client, of_client, TriesEach};
ghost use Rattle.flight_core.specs.Carrying.{LedByFirst, LedInARow};
ghost use Rattle.flight_core.specs.LandingCalls.{tries_of};
ghost use Rattle.flight_core.specs.Landing.{IsFree, HasTried, answer_of, reply_of};

use crate::pending::{Pending, entry_of};
use crate::{Answer, Answers, Flights, Revealed, Stepped};
use flat_machine::Reply;
use labelled_disk::Halt;

impl<S: Stepped> Flights<S> {
    ghost use Rattle.flight_core.specs.Halting.{Ends};
    ghost use Rattle.flight_core.specs.Flights.{crowd_of, LeadsTo, NeverBlames};

    // Tries the others, in ascending clients, after the owner's answer.
    pub(crate) fn try_others(&mut self, owner: Answer, others: &[Pending]) -> Result<Answers, Halt>
        requires runs { S.runs self.old.stepped }
        requires few { self.old.begun < 2 ^ 63 + 16 }
        requires owner { IsClient owner.client × (entry_of others.now owner.client ≡ None) }
        requires kept { All (λ p. IsKept p.call) others.now }
        requires free { (client : ℕ) → IsFree self.old.waiting.items others.now client }
        ensures tried { (m : Machine) → S.stands self.old.stepped m → IfOk result
            (λ a. LeadsTo (λ n. crowd_of n self.new) (S.stands self.new.stepped)
            (HasTried (crowd_of m self.old) (by_client others.now) owner a.items)) }
        ensures ends { Ends self.old self.new result }
        ensures few { self.new.begun ≤ self.old.begun + 16 }
        ensures led { LedByFirst S.led self.old.stepped (tries_of (by_client others.now)) self.new.stepped }
    {
        let mut answers = Answers::new();
        answers.push(owner);
        for client in 1..17 {
            let reply = self.try_client(client, others)?;
            add(&mut answers, client, reply);
        }
        Ok(answers)
    }

    // Tries the reference of a client that is one of them. It has no answer where it is none, or
    // waits again.
    fn try_client(&mut self, client: u8, others: &[Pending]) -> Result<Option<Reply>, Halt>
        requires client { IsClient client }
        requires runs { S.runs self.old.stepped }
        requires few { self.old.begun + 1 < 2 ^ 64 }
        requires kept { All (λ p. IsKept p.call) others.now }
        requires free { IsFree self.old.waiting.items others.now client }
        ensures tried { (m : Machine) → S.stands self.old.stepped m → IfOk result
            (λ r. LeadsTo (λ n. crowd_of n self.new) (S.stands self.new.stepped)
            (TriesEach (crowd_of m self.old) (of_client others.now client) (answer_of client r))) }
        ensures one { IfOk result (λ r. IsSome r → IsSome (entry_of others.now client)) }
        ensures ends { Ends self.old self.new result }
        ensures never_blames { NeverBlames client self.old.begun self.old.waiting.items self.new.begun
            self.new.waiting.items }
        ensures led { LedInARow S.led self.old.stepped (tries_of (of_client others.now client)) self.new.stepped }
    {
        let Some(pending) = entry_of(others, client) else {
            return Ok(None);
        };
        Ok(reply_of(self.attempt(client, &pending.call)?))
    }
}

// The reply that a client is revealed, if it has one.
fn reply_of(revealed: Revealed) -> Option<Reply>
    ensures { result ≡ reply_of revealed }
{
    match revealed {
        Revealed::Answered(reply) => Some(reply),
        Revealed::Waits(_) | Revealed::Busy => None,
    }
}

// Adds the answer of a client, if it has one.
fn add(answers: &mut Answers, client: u8, reply: Option<Reply>)
    requires { IsSome reply → length answers.old.items < 16 }
    ensures { answers.new.items ≡ answers.old.items ++ answer_of client reply }
{
    if let Some(reply) = reply {
        answers.push(Answer { client, reply });
    }
}
