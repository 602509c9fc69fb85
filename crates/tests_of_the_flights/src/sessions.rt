//! Drawn events of clients that share a session.
ghost use Rattle.std.specs.Prelude.{◌≤◌};

use crate::drawn;
use crate::frames::Frames;
use anyhow::{Context, Result};
use labelled_disk::MemoryDisk;
use pilot_engine::Session;
use std::alloc::Global;
use volume_root::format;

/// Whether drawn events come to what they may in a session with so many frames, on a new volume of 256 sectors. Its files have 64
/// pages in all.
pub(crate) fn report(alloc: Global, frames: u32) -> Result<String>
    requires least { 24 ≤ frames }
    requires most { frames ≤ 4096 }
{
    let mut disk = MemoryDisk::new(alloc, 256)?;
    format(&mut disk, 7, 1).ok().context("no volume")?;
    let known = Frames::new(alloc, frames == 4096);
    let title = format!(in alloc; "in a session with {frames} frames")?;
    match Session::over(alloc, disk, frames) {
        Ok(session) => drawn::report(alloc, session, known, &title),
        Err(_) => Ok(format!(in alloc; "no session with {frames} frames")?),
    }
}
