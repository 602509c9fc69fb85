//! Rows of two volumes and of what is asked of both, beside what comes of it.
#![tactic(auto)]

mod asked;
mod damage;
mod drawn;
mod draws;
mod labels;
mod plain;
mod rows;
mod stops;
mod volume;

use anyhow::{Context, Result, bail};
use std::alloc::Global;
use std::{env, fs};

/// What a row's command answers.
fn answer(alloc: Global, command: &str) -> Result<String> {
    let (verb, rest) = command.split_once(' ').context("no words")?;
    match verb {
        "pair" => rows::replied(alloc, rest),
        "first" => stops::each(alloc, rest, true),
        "second" => stops::each(alloc, rest, false),
        "damaged" => damage::each(alloc, rest),
        "drawn" => drawn::all(alloc, rest),
        _ => bail!("no row"),
    }
}

fn main(rt: HostRuntime) -> Result<()> {
    for name in env::args(&rt)?.skip(1) {
        let text = fs::read_to_string(&rt, &name)?;
        for row in text.lines() {
            match row.split_once('|') {
                Some((command, wanted)) => {
                    let found = answer(rt.alloc(), command)?;
                    if found.as_str() != wanted {
                        println!(rt; "{row} and not {found}")?;
                    }
                }
                None => println!(rt; "{row}")?,
            }
        }
    }
    Ok(())
}
