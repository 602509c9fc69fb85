//! Looks at volumes that are written sector by sector, and writes what it sees.
#![tactic(auto)]

mod sectors;
mod texts;

use anyhow::{Context, Result};
use labelled_disk::MemoryDisk;
use std::{env, fs};

/// A volume, and what is asked of it. Between these stands an empty line.
fn volume(rt: &HostRuntime, text: &str) -> Result<()> {
    let (lines, questions) = text.split_once("\n\n").context("nothing is asked")?;
    let mut disk = MemoryDisk::new(rt.alloc(), 256)?;
    for line in lines.lines().skip(1) {
        sectors::put(&mut disk, line)?;
    }
    for question in questions.lines() {
        let answer = texts::answer(rt.alloc(), &mut disk, question)?;
        println!(rt; "# {question}\n{answer}")?;
    }
    Ok(())
}

fn main(rt: HostRuntime) -> Result<()> {
    for name in env::args(&rt)?.skip(1) {
        let text = fs::read_to_string(&rt, &name)?;
        for text in text.split("# ").skip(1) {
            volume(&rt, text.trim_end())?;
        }
    }
    Ok(())
}
