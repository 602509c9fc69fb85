//! Rows of what is done with documents over a disk in memory, and of what comes of it.
#![tactic(auto)]

mod bytes;
mod failing;
mod heads;
mod rounds;
mod steps;
mod volume;

use crate::volume::opened;
use anyhow::{Context, Result};
use std::alloc::Global;
use std::{env, fs};

/// The first row of a section whose answer is another one, with that answer; no text where none is.
fn wrong(alloc: Global, section: &str) -> Result<String> {
    let (sectors, rows) = section.split_once('\n').context("no rows")?;
    let mut volume = opened(alloc, sectors.parse()?)?;
    for row in rows.lines() {
        let (line, wanted) = row.split_once('|').context("a row has no bar")?;
        let found = steps::answer(alloc, &mut volume, line)?;
        if found.as_str() != wanted {
            return Ok(format!(in alloc; "{row} and not {found}\n")?);
        }
    }
    Ok(String::new(alloc))
}

fn main(rt: HostRuntime) -> Result<()> {
    for name in env::args(&rt)?.skip(1) {
        let text = fs::read_to_string(&rt, &name)?;
        for section in text.split("# ").skip(1) {
            let wrong = wrong(rt.alloc(), section)?;
            print!(rt; "{wrong}")?;
        }
    }
    Ok(())
}
