//! Drawn events, beside a plain crowd.
ghost use Rattle.std.specs.Prelude.{OnOk};

use crate::crowd::PlainCrowd;
use crate::frames::Frames;
use crate::happen::{Event, happen, happen_in_a_row, may_happen};
use crate::rows::events_of;
use anyhow::{Result, bail};
use flight_core::{Flights, Stepped};
use slow_machine::SlowMachine;
use std::alloc::Global;
use trace_maker::TraceMaker;

// Four spaces of 16 pages, each of which shows a file of its own.
const BEGIN: &str = "on 1 create 16 0
on 1 create 16 0
on 1 create 16 0
on 1 create 16 0
on 1 space 0 16
on 1 space 0 16
on 1 space 0 16
on 1 space 0 16
on 1 map 1 0000000700000001 0 rw
on 1 map 2 0000000700000002 0 rw
on 1 map 3 0000000700000003 0 rw
on 1 map 4 0000000700000004 0 rw
";

// Carries out the first events in a row, and says how many come to what they may not.
fn begin<S: Stepped>(alloc: Global, flights: &mut Flights<S>, plain: &mut PlainCrowd) -> Result<u32>
    requires runs { S.runs flights.old.stepped }
    ensures goes_on { OnOk result (S.runs flights.new.stepped) }
{
    let events = events_of(alloc, BEGIN)?;
    let mut outcomes = Vec::new(alloc);
    if flights.begun() > 0 || events.len() > 10_000 {
        return Ok(1);
    }
    if happen_in_a_row(flights, &events, &mut outcomes).is_err() {
        bail!("the first events halt");
    }
    let mut wrong = 0u32;
    for (event, outcome) in events.into_iter().zip(outcomes) {
        if !plain.may_come(event, &outcome, flights)? {
            wrong = wrong.saturating_add(1);
        }
    }
    Ok(wrong)
}

// Whether an event comes to what it may.
fn turn<S: Stepped>(flights: &mut Flights<S>, plain: &mut PlainCrowd, event: Event) -> Result<bool>
    requires runs { S.runs flights.old.stepped }
    ensures goes_on { OnOk result (S.runs flights.new.stepped) }
{
    if !may_happen(&event) || flights.begun() > 1_000_000 {
        return Ok(false);
    }
    let outcome = happen(flights, &event)?;
    let may = plain.may_come(event, &outcome, flights)?;
    Ok(may && plain.agrees(flights))
}

// The next number of a fixed row.
fn next(seed: u32) -> u32 {
    seed.wrapping_mul(1_103_515_245).wrapping_add(12_345)
}

// The event that a number gives: one of four is that a drawn client's flight is done, or where it waits
// for none, the one that began last.
fn event_by(number: u32, maker: &mut TraceMaker, plain: &PlainCrowd) -> Event {
    let client = 1 + (number / 0x1_0000 % 16) as u8;
    if number / 0x4000_0000 == 0 {
        return Event::Done(plain.flight_of(client).unwrap_or(plain.begun));
    }
    Event::Ask {
        client,
        call: maker.next_call(),
    }
}

/// Whether the first events and 20,000 drawn ones come to what they may, over what stands for a machine of serial 7, counter 1
/// and 124 pages, and begin a thousand flights.
pub(crate) fn report<S: Stepped + Drop>(
    alloc: Global,
    stepped: S,
    frames: Frames,
    title: &str,
) -> Result<String>
    requires runs { S.runs stepped }
{
    let machine = SlowMachine::new(alloc, 7, 1, 124)?;
    let mut plain = PlainCrowd::new(alloc, machine, frames);
    let mut flights = Flights::new(stepped);
    let mut wrong = begin(alloc, &mut flights, &mut plain)?;
    let mut maker = TraceMaker::new(7);
    let mut number = 7;
    for _ in 0..20_000 {
        number = next(number);
        let event = event_by(number, &mut maker, &plain);
        if !turn(&mut flights, &mut plain, event)? {
            wrong = wrong.saturating_add(1);
        }
    }
    let begun = flights.begun();
    if wrong > 0 || begun < 1_000 {
        return Ok(format!(in alloc; "20000 drawn events {title}: {wrong} wrong, {begun} flights")?);
    }
    Ok(format!(in alloc; "20000 drawn events {title}: as they may")?)
}
