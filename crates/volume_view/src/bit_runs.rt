//! Sectors in a row of which a map says the opposite of what is right.
ghost use Rattle.std.specs.Prelude.{◌≡◌, ◌+◌, ◌<◌, ◌^◌, ℕ, Bool, true, false, OnOk};
ghost use Rattle.volume_view.specs.BitRuns.{AreCompared, IsWrong};

use std::alloc::{AllocError, Allocator};

/// Sectors in a row of which the allocation map says one thing, and root, maps and labels the opposite.
#[derive(Clone, Copy, Debug, PartialEq, Eq)]
pub struct BitRun {
    pub first: u32,
    pub sectors: u32,
    /// The map has them as used; by root, maps and labels they aren't. Else it is the other way round.
    pub used: bool,
}

// Whether the sector is the one after the run, and the map says the same of it.
fn goes_on(run: &BitRun, sector: u32, used: bool) -> bool
    ensures yes { result ≡ true
        → (run.now.first + run.now.sectors ≡ sector) × (run.now.used ≡ used) }
    ensures no { result ≡ false
        → run.now.first + run.now.sectors ≡ sector → ¬ (run.now.used ≡ used) }
{
    u64::from(run.first) + u64::from(run.sectors) == u64::from(sector) && run.used == used
}

/// Adds a sector after those of the runs: to the last run where it goes that on, or as a run of its own.
pub(crate) fn add_sector<A: Allocator>(
    runs: &mut Vec<BitRun, A>,
    sector: u32,
    used: bool,
) -> Result<(), AllocError>
    requires { sector + 1 < 2 ^ 32 }
    ensures { OnOk result ((says right : ℕ → Bool)
        → AreCompared says right sector runs.old.items → IsWrong says right used sector
        → AreCompared says right (sector + 1) runs.new.items) }
{
    let one = BitRun {
        first: sector,
        sectors: 1,
        used,
    };
    let Some(last) = runs.pop() else {
        runs.push(one)?;
        return Ok(());
    };
    if goes_on(&last, sector, used) {
        let sectors = last.sectors + 1;
        runs.push(BitRun { sectors, ..last })?;
        return Ok(());
    }
    runs.push(last)?;
    runs.push(one)?;
    Ok(())
}
