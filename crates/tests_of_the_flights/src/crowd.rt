//! A plain crowd, beside which clients are answered.

use crate::frames::Frames;
use crate::happen::{Event, Outcome, is_in_form};
use anyhow::Result;
use flat_machine::{Call, Reply};
use flight_core::{Answer, Flights, Landed, Revealed, Stepped};
use slow_machine::SlowMachine;
use std::alloc::Global;
use std::mem;
use trace_io::{MemorySink, write_reply};

/// A client that waits with a reference for a flight.
#[derive(Drop)]
struct Waiting {
    client: u8,
    call: Call,
    flight: u64,
}

/// A plain machine, how many flights have begun, and who waits, the earliest first; and what is known of frames.
#[derive(Drop)]
pub(crate) struct PlainCrowd {
    alloc: Global,
    machine: SlowMachine<Global>,
    pub(crate) begun: u64,
    waiting: Vec<Waiting>,
    frames: Frames,
}

// A reply as it is written.
fn text(alloc: Global, reply: &Reply) -> Result<Vec<u8>> {
    let mut sink = MemorySink::new(alloc, 192, &[])?;
    let _ = write_reply(&mut sink, reply);
    Ok(Vec::from_slice(alloc, sink.taken())?)
}

impl PlainCrowd {
    /// Nobody waits.
    pub(crate) fn new(alloc: Global, machine: SlowMachine<Global>, frames: Frames) -> PlainCrowd {
        PlainCrowd {
            alloc,
            machine,
            begun: 0,
            waiting: Vec::new(alloc),
            frames,
        }
    }

    /// The flight that a client waits for.
    pub(crate) fn flight_of(&self, client: u8) -> Option<u64> {
        let found = self.waiting.iter().find(|w| w.client == client);
        found.map(|w| w.flight)
    }

    // Whether the machine gives the call this reply.
    fn replies(&mut self, call: &Call, reply: &Reply) -> Result<bool> {
        if !is_in_form(call) {
            return Ok(false);
        }
        let own = self.machine.step(call)?;
        self.frames.answer(call, reply)?;
        Ok(text(self.alloc, &own)? == text(self.alloc, reply)?)
    }

    // Whether the machine does not refuse the load or the store, and a page of it may be in no frame.
    fn may_wait(&self, call: &Call) -> bool {
        if !is_in_form(call) || !matches!(call, Call::Load { .. } | Call::Store { .. }) {
            return false;
        }
        self.machine.refusal(call).is_none() && self.frames.may_lack(call)
    }

    // Whether a client may wait for a flight that is in the air or begins.
    fn waits(&mut self, waiting: Waiting) -> Result<bool> {
        let in_the_air = self.waiting.iter().any(|w| w.flight == waiting.flight);
        let begins = waiting.flight == self.begun.saturating_add(1);
        let may = self.may_wait(&waiting.call) && (in_the_air || begins);
        if begins {
            self.begun = waiting.flight;
        }
        self.waiting.push(waiting)?;
        Ok(may)
    }

    // Whether a client that asks may be revealed this.
    fn asks(&mut self, client: u8, call: Call, revealed: &Revealed) -> Result<bool> {
        let is_busy = self.flight_of(client).is_some();
        match revealed {
            Revealed::Busy => Ok(is_busy),
            Revealed::Answered(reply) => Ok(!is_busy && self.replies(&call, reply)?),
            Revealed::Waits(flight) => {
                let waiting = Waiting {
                    client,
                    call,
                    flight: *flight,
                };
                Ok(!is_busy && self.waits(waiting)?)
            }
        }
    }

    // Takes those out who wait for the flight.
    fn take_out(&mut self, flight: u64) -> Result<Vec<Waiting>> {
        let mut landing = Vec::new(self.alloc);
        let mut left = Vec::new(self.alloc);
        for waiting in mem::replace(&mut self.waiting, Vec::new(self.alloc)) {
            if waiting.flight == flight {
                landing.push(waiting)?;
            } else {
                left.push(waiting)?;
            }
        }
        self.waiting = left;
        Ok(landing)
    }

    // Whether a flight may come to these answers. The others are asked for their flights.
    fn lands<S: Stepped>(
        &mut self,
        flight: u64,
        answers: &[Answer],
        flights: &Flights<S>,
    ) -> Result<bool> {
        let mut landing = self.take_out(flight)?;
        if landing.is_empty() {
            return Ok(answers.is_empty());
        }
        let owner = landing.remove(0);
        let Some((first, mut answers)) = answers.split_first() else {
            return Ok(false);
        };
        let mut may = first.client == owner.client && self.replies(&owner.call, &first.reply)?;
        for client in 1..17 {
            let Some(place) = landing.iter().position(|w| w.client == client) else {
                continue;
            };
            let Waiting { call, .. } = landing.swap_remove(place);
            if let Some((answer, rest)) = answers.split_first() {
                if answer.client == client {
                    may = may && self.replies(&call, &answer.reply)?;
                    answers = rest;
                    continue;
                }
            }
            let flight = flights.waiting(client).unwrap_or(0);
            let waiting = Waiting {
                client,
                call,
                flight,
            };
            may = may && self.waits(waiting)?;
        }
        Ok(may && answers.is_empty())
    }

    /// Whether an event may come to this.
    pub(crate) fn may_come<S: Stepped>(
        &mut self,
        event: Event,
        outcome: &Outcome,
        flights: &Flights<S>,
    ) -> Result<bool> {
        match event {
            Event::Ask { client, call } => match outcome {
                Outcome::Revealed(revealed) => self.asks(client, call, revealed),
                Outcome::Landed(_) => Ok(false),
            },
            Event::Done(flight) => match outcome {
                Outcome::Landed(Landed::NoFlight) => self.lands(flight, &[], flights),
                Outcome::Landed(Landed::Answered(answers)) => {
                    Ok(!answers.is_empty() && self.lands(flight, answers, flights)?)
                }
                Outcome::Revealed(_) => Ok(false),
            },
        }
    }

    /// Whether the same clients wait for the same flights, and as many have begun.
    pub(crate) fn agrees<S: Stepped>(&self, flights: &Flights<S>) -> bool {
        for client in 1..17 {
            if flights.waiting(client) != self.flight_of(client) {
                return false;
            }
        }
        flights.begun() == self.begun
    }
}
