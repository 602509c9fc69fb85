//! Lines of traces beside what they say, and traces beside the replies of the plain machine.
#![tactic(auto)]

mod events;
mod lines;
mod machine;
mod pairs;
mod streams;

use crate::lines::Grammar;
use anyhow::{Context, Result};
use std::alloc::Global;
use std::{env, fs};

/// What a section says: `lines TITLE`, `events TITLE`, `pairs TITLE` or `SERIAL COUNTER CAPACITY TITLE`, and rows. It gives the title, and what is wrong, if anything.
fn section(alloc: Global, text: &str) -> Result<String> {
    let (head, rows) = text.split_once("\n\n").context("no rows")?;
    let rows = rows.trim_end_matches('\n');
    if let Some(title) = head.strip_prefix("lines ") {
        return lines::report(alloc, Grammar::Calls, title, rows);
    }
    if let Some(title) = head.strip_prefix("events ") {
        return lines::report(alloc, Grammar::Events, title, rows);
    }
    match head.strip_prefix("pairs ") {
        Some(title) => lines::report(alloc, Grammar::Pairs, title, rows),
        None => machine::report(alloc, head, rows),
    }
}

fn main(rt: HostRuntime) -> Result<()> {
    for name in env::args(&rt)?.skip(1) {
        let text = fs::read_to_string(&rt, &name)?;
        for text in text.split("# ").skip(1) {
            let report = section(rt.alloc(), text)?;
            println!(rt; "{report}")?;
        }
    }
    let report = events::report(rt.alloc())?;
    print!(rt; "{report}")?;
    let report = pairs::report(rt.alloc())?;
    print!(rt; "{report}")?;
    let report = streams::report(rt.alloc())?;
    print!(rt; "{report}")?;
    Ok(())
}
