//! Rows of what a client does with an engine over a disk in memory, and of what comes of it.
#![tactic(auto)]

mod client;
mod memory;
mod section;
mod steps;

use anyhow::Result;
use std::{env, fs};

fn main(rt: HostRuntime) -> Result<()> {
    for name in env::args(&rt)?.skip(1) {
        let text = fs::read_to_string(&rt, &name)?;
        for text in text.split("# ").skip(1) {
            let report = section::report(rt.alloc(), text)?;
            println!(rt; "{report}")?;
        }
    }
    Ok(())
}
