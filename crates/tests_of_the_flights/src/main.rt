//! Events of clients that share a plain machine, beside the lines that they get.
#![tactic(auto)]

mod answered;
mod crowd;
mod drawn;
mod frames;
mod happen;
mod paged;
mod rows;
mod sessions;

use crate::frames::Frames;
use crate::paged::PagedMachine;
use anyhow::{Context, Result};
use slow_machine::SlowMachine;
use std::alloc::Global;
use std::{env, fs};

// Drawn events over the plain machine, and in sessions.
fn drawn_reports(alloc: Global) -> Result<[String; 3]> {
    let paged = PagedMachine::over(SlowMachine::new(alloc, 7, 1, 124)?);
    Ok([
        drawn::report(
            alloc,
            paged,
            Frames::new(alloc, false),
            "over the plain machine",
        )?,
        sessions::report(alloc, 24)?,
        sessions::report(alloc, 4_096)?,
    ])
}

fn main(rt: HostRuntime) -> Result<()> {
    for name in env::args(&rt)?.skip(1) {
        let text = fs::read_to_string(&rt, &name)?;
        for section in text.split("# ").skip(1) {
            let (head, rows) = section.split_once("\n\n").context("no rows")?;
            let report = rows::report(rt.alloc(), head, rows.trim_end_matches('\n'))?;
            println!(rt; "{report}")?;
        }
    }
    for report in drawn_reports(rt.alloc())? {
        println!(rt; "{report}")?;
    }
    Ok(())
}
