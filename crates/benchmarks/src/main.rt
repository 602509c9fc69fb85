//! Times of pieces of work: `benchmarks frames`, `benchmarks queue`, `benchmarks convert`. Without
//! such a word it prints nothing.
#![tactic(auto)]

mod conversions;
mod frames;
mod queue;

ghost use Rattle.std.specs.Prelude.{◌≤◌};

use std::time::Instant;
use std::{env, io};

/// How many look-ups are timed.
const TIMES: u32 = 10_000_000;

/// Prints how long the look-ups take in a pool of so many frames, in microseconds.
fn report(rt: &HostRuntime, frames: u32) -> io::Result<()>
    requires least { 24 ≤ frames }
    requires most { frames ≤ 4096 }
{
    let Ok(pool) = frames::filled(rt.alloc(), frames) else {
        return println!(rt; "no memory");
    };
    let start = Instant::now(rt)?;
    let sum = frames::look_up(&pool, frames, TIMES);
    let micros = Instant::now(rt)?
        .saturating_duration_since(start)
        .as_micros();
    println!(rt; "{frames} frames, {TIMES} look-ups: {micros} us ({sum})")
}

/// How many calls of a queue are timed.
const CALLS: u32 = 1_000_000;

/// Prints how long reads of waiting pages and stores in a full queue of so many pages take, in microseconds.
fn report_queue(rt: &HostRuntime, room: u32) -> io::Result<()>
    requires least { 1 ≤ room }
    requires most { room ≤ 256 }
{
    let Ok(mut waiting) = queue::filled(rt.alloc(), room) else {
        return println!(rt; "no memory");
    };
    let start = Instant::now(rt)?;
    let answered = queue::read(&mut waiting, room, CALLS);
    let middle = Instant::now(rt)?;
    let stored = queue::store_round(&mut waiting, CALLS);
    let end = Instant::now(rt)?;
    let reads = middle.saturating_duration_since(start).as_micros();
    let stores = end.saturating_duration_since(middle).as_micros();
    println!(rt;
        "{room} pages wait, {CALLS} calls each: reads {reads} us ({answered}), stores {stores} us ({stored})"
    )
}

fn main(rt: HostRuntime) -> io::Result<()> {
    for word in env::args(&rt)?.skip(1) {
        if word.as_str() == "frames" {
            for frames in [24u32, 4096] {
                report(&rt, frames)?;
            }
        }
        if word.as_str() == "convert" {
            conversions::report(&rt)?;
        }
        if word.as_str() == "queue" {
            for room in [1u32, 256] {
                report_queue(&rt, room)?;
            }
        }
    }
    Ok(())
}
