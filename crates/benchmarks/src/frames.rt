//! Look-ups in a pool of frames.
ghost use Rattle.std.specs.Prelude.{◌≤◌};

use frame_pool::{FramePool, Home};
use labelled_disk::{FileId, NoMemory};
use std::alloc::Global;

const FILE: FileId = 0x7_0000_0001;

/// A pool that has as many pages of one file as it has frames.
pub fn filled(alloc: Global, frames: u32) -> Result<FramePool<Global>, NoMemory>
    requires least { 24 ≤ frames }
    requires most { frames ≤ 4096 }
{
    let mut pool = FramePool::with_frames(alloc, frames)?;
    for page in 0..frames {
        if pool.frames() > 0 {
            let slot = pool.victim(0, 0, 0);
            pool.clear(slot);
            if let None = pool.find(FILE, page) {
                let home = Home {
                    sector: page,
                    id: FILE,
                    page,
                };
                pool.put(slot, home, &[0; 512]);
            }
        }
    }
    Ok(pool)
}

/// The sum of the slots that so many look-ups find, each for the page after the one before.
pub fn look_up(pool: &FramePool<Global>, frames: u32, times: u32) -> u64
    requires { 24 ≤ frames }
{
    let mut sum = 0u64;
    for turn in 0..times {
        if let Some(slot) = pool.find(FILE, turn % frames) {
            sum = sum.wrapping_add(u64::from(slot));
        }
    }
    sum
}
