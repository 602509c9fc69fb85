//! What is to be written, made in memory before the first write.
ghost use Rattle.std.specs.Prelude.{◌≡◌, ◌-◌, ◌≤◌, List, length, true, IfOk, OnOk};
ghost use Rattle.labelled_disk.specs.Layout.{IsCount, layout_of, first_data};
ghost use Rattle.labelled_disk.specs.Root.{root_page};
ghost use Rattle.labelled_disk.specs.Sectors.{Sector};
ghost use Rattle.volume_root.specs.RootPage.{IsValidRoot, root_in};
ghost use Rattle.volume_root.specs.declared.root.Root.{Root};
ghost use Rattle.label_survey.specs.SectorStates.{AreSectorStates};
ghost use Rattle.scavenger.specs.Carries.{Carries, MakesWithBarriers};
ghost use Rattle.scavenger.specs.Orders.{AreFor, closing_writes, preparing_writes, scavenge_writes};
ghost use Rattle.scavenger.specs.Stays.{HasLabels};

use crate::bits::make_bits;
use crate::names::make_names;
use crate::writing::{close_root, free_sectors, open_root, write_map};
use flat_mem::VecMem;
use label_survey::{SectorState, needed_triples, raise_counter, sector_states_reveal};
use labelled_disk::{Disk, DiskError, Label, Layout, NoMemory};
use std::alloc::Allocator;
use volume_root::Root;

/// What is to be written on a volume, beside its root.
#[derive(Drop)]
pub struct Plan<A: Allocator> {
    sector_states: Vec<SectorState, A>,
    bits: VecMem<A>,
    names: VecMem<A>,
    counter: u32,
}

impl<A: Allocator + Clone> Plan<A> {
    ghost use Rattle.scavenger.specs.Plan.{orders, IsSized};

    /// The plan for a volume with this root and these labels, each data sector being what its
    /// sector state says.
    pub fn of(
        alloc: A,
        layout: &Layout,
        root: &Root,
        labels: Vec<Label, A>,
        sector_states: Vec<SectorState, A>,
    ) -> Result<Plan<A>, NoMemory>
        requires counted { IsCount layout.now.sectors }
        requires layout { layout.now ≡ layout_of layout.now.sectors }
        requires all { length labels.items ≡ layout.now.sectors - first_data layout.now.sectors }
        requires sector_states { (d : List Sector) → HasLabels d layout.now.sectors labels.items
            → AreSectorStates d sector_states.items }
        ensures sized { IfOk result (IsSized layout.now.sectors) }
        ensures counter { IfOk result (λ plan. root.now.counter ≤ plan.counter) }
        ensures plan { IfOk result (λ plan. (d : List Sector)
            → HasLabels d layout.now.sectors labels.items → root.now ≡ root_in (root_page d)
            → AreFor d (orders root.now layout.now.first plan)) }
    {
        sector_states_reveal();
        let triples = needed_triples(alloc.clone()?, layout.first, &labels, &sector_states)?;
        drop(labels);
        let counter = raise_counter(root.serial, root.counter, &triples);
        let names = make_names(alloc.clone()?, layout, triples)?;
        let bits = make_bits(alloc, layout, &sector_states)?;
        Ok(Plan {
            sector_states,
            bits,
            names,
            counter,
        })
    }

    // Frees the sectors that it frees, and writes both maps.
    fn prepare<D: Disk>(self, disk: &mut D, layout: &Layout) -> Result<(), DiskError>
        requires counted { IsCount (D.state disk.old).sectors }
        requires layout { layout.now ≡ layout_of (D.state disk.old).sectors }
        requires sized { IsSized (D.state disk.old).sectors self }
        ensures { (root : Root) → root.sectors ≡ (D.state disk.old).sectors
            → Carries (preparing_writes (orders root layout.now.first self))
            (D.state disk.old) result (D.state disk.new) }
    {
        let Plan {
            sector_states,
            mut bits,
            mut names,
            ..
        } = self;
        free_sectors(disk, layout.first, &sector_states)?;
        drop(sector_states);
        write_map(disk, 1, 1, layout.vam, &mut bits)?;
        drop(bits);
        write_map(disk, 2, 1 + layout.vam, layout.vfm, &mut names)
    }

    /// Makes its writes on a volume with this root that is not clean: where no sector is freed, these
    /// are both maps, and the root closed, which waits until they are on the medium.
    pub fn carry_out<D: Disk>(
        self,
        disk: &mut D,
        layout: &Layout,
        root: &Root,
    ) -> Result<(), DiskError>
        requires layout { layout.now ≡ layout_of (D.state disk.old).sectors }
        requires root { IsValidRoot (D.state disk.old).sectors root.now }
        requires sized { IsSized (D.state disk.old).sectors self }
        requires counter { root.now.counter ≤ self.counter }
        ensures { Carries (closing_writes (orders root.now layout.now.first self))
            (D.state disk.old) result (D.state disk.new) }
    {
        let counter = self.counter;
        self.prepare(disk, layout)?;
        disk.sync()?;
        close_root(disk, root, counter)
    }

    /// Restores a volume with this root. No other write is made before the root that is not clean is
    /// on the medium, and the closed root waits until all others are.
    pub(crate) fn restore<D: Disk>(
        self,
        disk: &mut D,
        layout: &Layout,
        root: &Root,
    ) -> Result<(), DiskError>
        requires layout { layout.now ≡ layout_of (D.state disk.old).sectors }
        requires root { IsValidRoot (D.state disk.old).sectors root.now }
        requires sized { IsSized (D.state disk.old).sectors self }
        requires counter { root.now.counter ≤ self.counter }
        ensures carries { Carries (scavenge_writes (orders root.now layout.now.first self))
            (D.state disk.old) result (D.state disk.new) }
        ensures synced { OnOk result ((D.state disk.new).synced ≡ true) }
        ensures barriers { MakesWithBarriers (scavenge_writes (orders root.now layout.now.first self))
            (D.state disk.old) result (D.state disk.new) }
    {
        let counter = self.counter;
        open_root(disk, root, counter)?;
        disk.sync()?;
        self.prepare(disk, layout)?;
        disk.sync()?;
        close_root(disk, root, counter)?;
        disk.sync()
    }
}
