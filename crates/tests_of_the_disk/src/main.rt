//! Rows of what is done to image files, and of what words, labels, layouts and errors are.
#![tactic(auto)]

mod drawn;
mod files;
mod halting;
mod values;

use anyhow::{Context, Result};
use std::{env, fs};

/// What a row's command answers.
fn answer(rt: &HostRuntime, command: &str) -> Result<String> {
    let (verb, rest) = command.split_once(' ').context("no words")?;
    match verb {
        "word" | "layout" | "label" | "text" => values::answer(rt.alloc(), verb, rest),
        "halts" => halting::answer(rt, rest.parse()?),
        "counts" => halting::counted(rt, rest),
        _ => files::answer(rt, verb, rest),
    }
}

fn main(rt: HostRuntime) -> Result<()> {
    for name in env::args(&rt)?.skip(1) {
        let text = fs::read_to_string(&rt, &name)?;
        for row in text.lines() {
            match row.split_once('|') {
                Some((command, wanted)) => {
                    let found = answer(&rt, command)?;
                    if found.as_str() != wanted {
                        println!(rt; "{row} and not {found}")?;
                    }
                }
                None => println!(rt; "{row}")?,
            }
        }
    }
    Ok(())
}
