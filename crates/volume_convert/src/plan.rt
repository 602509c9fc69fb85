//! What is to be written, made in memory before the first write.
ghost use Rattle.std.specs.Prelude.{◌≡◌, ◌⊎◌, ◌+◌, ◌*◌, ◌-◌, ◌≤◌, ◌<◌, ◌^◌, ℕ, List, Err, length, IfOk, IfErr};
ghost use Rattle.labelled_disk.specs.File.{total_room};
ghost use Rattle.labelled_disk.specs.Layout.{layout_of, first_data, capacity};
ghost use Rattle.labelled_disk.specs.Root.{root_page};
ghost use Rattle.labelled_disk.specs.Sectors.{Sector, AreSectors};
ghost use Rattle.volume_root.specs.OldRoot.{IsOldCount, IsValidOldRoot};
ghost use Rattle.volume_root.specs.RootPage.{root_in};
ghost use Rattle.label_survey.specs.SectorStates.{AreSectorStates};
ghost use Rattle.scavenger.specs.Carries.{Carries};
ghost use Rattle.scavenger.specs.Stays.{HasLabels};
ghost use Rattle.convert_laws.specs.Converted.{today};
ghost use Rattle.old_files.specs.OldFiles.{files_old};
ghost use Rattle.old_files.specs.Reread.{all_reread};
ghost use Rattle.volume_convert.specs.Leaves.{IsRevealed};

use crate::ConvertFault;
use crate::arranging::{arrange_labels, settled_sector_states};
use crate::converting::Converted;
use crate::heads::{Head, heads_of};
use crate::leaders::write_leaders;
use crate::reread::find_old_sector_states;
use label_survey::{SectorState, tally_sectors};
use labelled_disk::{Disk, DiskError, Label, Layout, NoMemory};
use scavenger::{Plan, free_sectors};
use std::alloc::Allocator;
use volume_root::Root;

/// What is to be written, beside the root that was read.
#[derive(Drop)]
pub(crate) struct Conversion<A: Allocator> {
    /// What each data sector is, page 0 of a file being reported as its leader.
    sector_states: Vec<SectorState, A>,
    heads: Vec<Head, A>,
    /// Both maps and the counter of the volume once it has leaders.
    maps: Plan<A>,
    pub revealed: Converted,
}

// The root of today, not yet closed.
fn today(root: &Root) -> Root
    ensures { result ≡ today root.now }
{
    Root {
        version: 3,
        clean: false,
        ..*root
    }
}

// What is revealed of a volume whose data sectors are these: page 0 of a file is a page too.
fn revealed_of(sector_states: &[SectorState]) -> Converted
    requires few { length sector_states.now < 2 ^ 20 }
    ensures revealed { (d : List Sector) → length d ≤ 65536 → AreSectorStates (all_reread d) sector_states.now
        → IsRevealed d result }
    ensures files { result.files ≤ length sector_states.now }
    ensures pages { result.pages ≤ length sector_states.now }
{
    let tally = tally_sectors(sector_states);
    Converted {
        files: tally.files,
        pages: tally.files + tally.pages,
        freed: tally.freed,
    }
}

// Whether files and pages have room.
fn judge_room(revealed: Converted, capacity: u32) -> Result<(), ConvertFault>
    requires fit { revealed.files + revealed.pages < 2 ^ 32 }
    ensures fits { IfOk result (λ x. revealed.files + revealed.pages ≤ capacity) }
    ensures unfit { IfErr result (λ why. (why ≡ ConvertFault.Unfit (revealed.files + revealed.pages) capacity)
        × (capacity < revealed.files + revealed.pages)) }
{
    let wanted = revealed.files + revealed.pages;
    if wanted > capacity {
        return Err(ConvertFault::Unfit { wanted, capacity });
    }
    Ok(())
}

impl<A: Allocator + Clone> Conversion<A> {
    ghost use Rattle.volume_convert.specs.Planned.{all_writes, IsFit, IsPlannedFor};

    // The conversion of a disk with these labels, of which files and pages have room.
    fn make(
        alloc: A,
        layout: &Layout,
        root: &Root,
        labels: Vec<Label, A>,
        sector_states: Vec<SectorState, A>,
        revealed: Converted,
    ) -> Result<Conversion<A>, NoMemory>
        requires counted { IsOldCount layout.now.sectors }
        requires layout { layout.now ≡ layout_of layout.now.sectors }
        requires valid { IsValidOldRoot layout.now.sectors root.now }
        requires all { length labels.items ≡ layout.now.sectors - first_data layout.now.sectors }
        requires same_length { length sector_states.items ≡ length labels.items }
        requires sector_states { (d : List Sector) → HasLabels d layout.now.sectors labels.items
            → AreSectorStates (all_reread d) sector_states.items }
        requires revealed { (d : List Sector) → HasLabels d layout.now.sectors labels.items
            → IsRevealed d revealed }
        requires room { revealed.files + revealed.pages ≤ capacity layout.now.sectors }
        ensures fit { IfOk result (IsFit layout.now.sectors root.now) }
        ensures planned { IfOk result (λ conversion. (d : List Sector)
            → HasLabels d layout.now.sectors labels.items → AreSectors d
            → root.now ≡ root_in (root_page d)
            → IsPlannedFor d root.now layout.now.first conversion) }
    {
        let heads = heads_of(
            alloc.clone()?,
            &labels,
            &sector_states,
            revealed.files as usize,
        )?;
        let settled = settled_sector_states(alloc.clone()?, &sector_states, heads.len())?;
        let mut labels = labels;
        arrange_labels(&mut labels, &sector_states, &heads);
        let maps = Plan::of(alloc, layout, &today(root), labels, settled)?;
        Ok(Conversion {
            sector_states,
            heads,
            maps,
            revealed,
        })
    }

    /// The conversion of a disk with these labels and this root.
    pub(crate) fn of(
        alloc: A,
        layout: &Layout,
        root: &Root,
        labels: Vec<Label, A>,
    ) -> Result<Conversion<A>, ConvertFault>
        requires counted { IsOldCount layout.now.sectors }
        requires layout { layout.now ≡ layout_of layout.now.sectors }
        requires valid { IsValidOldRoot layout.now.sectors root.now }
        requires all { length labels.items ≡ layout.now.sectors - first_data layout.now.sectors }
        ensures fit { IfOk result (IsFit layout.now.sectors root.now) }
        ensures planned { IfOk result (λ conversion. (d : List Sector)
            → HasLabels d layout.now.sectors labels.items → AreSectors d
            → root.now ≡ root_in (root_page d)
            → IsPlannedFor d root.now layout.now.first conversion) }
        ensures room { IfOk result (λ conversion. (d : List Sector)
            → HasLabels d layout.now.sectors labels.items
            → total_room (files_old d) ≤ capacity layout.now.sectors) }
        ensures unfit { (wanted room : ℕ) → result ≡ Err (ConvertFault.Unfit wanted room)
            → (room ≡ capacity layout.now.sectors) × (room < wanted)
            × ((d : List Sector) → HasLabels d layout.now.sectors labels.items
            → wanted ≡ total_room (files_old d)) }
        ensures err { IfErr result (λ why. (why ≡ ConvertFault.NoMemory)
            ⊎ ((wanted room : ℕ) × (why ≡ ConvertFault.Unfit wanted room))) }
    {
        let Ok(own) = alloc.clone() else {
            return Err(ConvertFault::NoMemory);
        };
        let Ok(sector_states) = find_old_sector_states(own, &labels) else {
            return Err(ConvertFault::NoMemory);
        };
        let revealed = revealed_of(&sector_states);
        judge_room(revealed, layout.capacity)?;
        match Conversion::make(alloc, layout, root, labels, sector_states, revealed) {
            Ok(conversion) => Ok(conversion),
            Err(_) => Err(ConvertFault::NoMemory),
        }
    }

    /// Makes all its writes on a volume with this root.
    pub(crate) fn carry_out<D: Disk>(
        self,
        disk: &mut D,
        layout: &Layout,
        root: &Root,
    ) -> Result<(), DiskError>
        requires layout { layout.now ≡ layout_of (D.state disk.old).sectors }
        requires valid { IsValidOldRoot (D.state disk.old).sectors root.now }
        requires fit { IsFit (D.state disk.old).sectors root.now self }
        ensures { Carries (all_writes root.now layout.now.first self)
            (D.state disk.old) result (D.state disk.new) }
    {
        let Conversion {
            sector_states,
            heads,
            maps,
            ..
        } = self;
        free_sectors(disk, layout.first, &sector_states)?;
        write_leaders(disk, layout.first, &sector_states, &heads)?;
        drop(sector_states);
        drop(heads);
        maps.carry_out(disk, layout, &today(root))
    }
}
