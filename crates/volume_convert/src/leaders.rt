//! The leaders are written.
ghost use Rattle.std.specs.Prelude.{◌+◌, ◌≤◌, length};
ghost use Rattle.label_survey.specs.Survey.{places_by};
ghost use Rattle.scavenger.specs.Carries.{Carries};
ghost use Rattle.convert_laws.specs.Orders.{leader_writes};
ghost use Rattle.volume_convert.specs.Heads.{leaders_by};
ghost use Rattle.volume_convert.specs.Settled.{is_spare};

use crate::heads::Head;
use label_survey::SectorState;
use labelled_disk::{Disk, DiskError, PAGE_BYTES};

/// Writes each leader, with a page of zeros, to the lowest sector that is not kept and has none
/// yet; the first of them all is sector `first`.
pub(crate) fn write_leaders<D: Disk>(
    disk: &mut D,
    first: u32,
    sector_states: &[SectorState],
    heads: &[Head],
) -> Result<(), DiskError>
    requires { first + length sector_states.now ≤ (D.state disk.old).sectors }
    ensures { Carries (leader_writes (places_by is_spare first sector_states.now) (leaders_by heads.now))
        (D.state disk.old) result (D.state disk.new) }
{
    let mut placed = 0;
    for i in 0..sector_states.len() {
        if !sector_states[i].is_kept() && placed < heads.len() {
            disk.write(first + i as u32, &heads[placed].leader(), &[0; PAGE_BYTES])?;
            placed += 1;
        }
    }
    Ok(())
}
