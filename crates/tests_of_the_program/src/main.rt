//! Carries out scripts over volumes, and writes for each of their sections whether all was as it says.
#![tactic(auto)]

mod fickle;
mod part;
mod rows;
mod sector;
mod stops;

use crate::rows::Disks;
use crate::sector::numbers_of;
use anyhow::{Context, Result};
use std::{env, fs};

/// Carries out the blocks of a section. The error says what is not as it says.
fn carry_out(rt: &HostRuntime, disks: Disks, blocks: &str) -> Result<()> {
    if let Some((steps, look)) = blocks.split_once("\n\n?$") {
        return stops::everywhere(rt.alloc(), disks, steps, look);
    }
    if let Some((steps, order)) = blocks.split_once("\n\n!") {
        return rows::in_order(rt.alloc(), disks.sectors, steps, order);
    }
    rows::everywhere(rt, disks, blocks)
}

/// A section, `SECTORS OTHERS: TITLE`, an empty line and blocks: how many sectors its disk and the second one have, and what it shows.
fn section(rt: &HostRuntime, text: &str) -> Result<()> {
    let (head, blocks) = text.split_once("\n\n").context("no blocks")?;
    let (numbers, title) = head.split_once(": ").context("no title")?;
    let [sectors, others]: [u32; 2] = numbers_of(numbers)?;
    match carry_out(rt, Disks { sectors, others }, blocks.trim_end()) {
        Ok(()) => println!(rt; "{title}: as it says")?,
        Err(why) => println!(rt; "{title}: {why}")?,
    }
    Ok(())
}

/// Carries out the sections of a script. Each begins with `# `.
fn script(rt: &HostRuntime, name: &str) -> Result<()> {
    let text = fs::read_to_string(rt, name)?;
    for text in text.split("# ").skip(1) {
        section(rt, text)?;
    }
    Ok(())
}

fn main(rt: HostRuntime) -> Result<()> {
    for name in env::args(&rt)?.skip(1) {
        script(&rt, &name)?;
    }
    Ok(())
}
