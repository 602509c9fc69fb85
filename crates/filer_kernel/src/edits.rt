//! Runs that are added to the file map, and pages that are cut off.
ghost use Rattle.std.specs.Prelude.{◌≡◌, ◌⊎◌, ℕ, ◌+◌, ◌*◌, ◌≤◌, ◌<◌, ◌==◌, Bool, not, List, filter, IfOk, IfErr, OnOk};
ghost use Rattle.labelled_disk.specs.Sectors.{Sector};
ghost use Rattle.labelled_disk.specs.declared.evidence.Halt.TheVariants as halt;
ghost use Rattle.file_map.specs.Run.{IsRun};
ghost use Rattle.file_map.specs.FileMap.{Triples, IsNew, IsSize, with_run, without_from, most_records};
ghost use Rattle.file_map.specs.Cause.{IsToCut};
ghost use Rattle.file_map.specs.Laws.{AreOnce, AreAmong, data_count};
ghost use Rattle.swapper_kernel.specs.declared.manager.Manager.TheVariants.{FileMap as FileMapPages};
ghost use Rattle.swapper_kernel.specs.Maps.{IsMapHome};
ghost use Rattle.swapper_kernel.specs.Homes.{AreNamed};
ghost use Rattle.swapper_kernel.specs.Stands.{Stands};
ghost use Rattle.swapper_kernel.specs.Window.{Beside};
ghost use Rattle.filer_kernel.specs.Becomes.{Becomes};
ghost use Rattle.filer_kernel.specs.Cached.{runs_of};
ghost use Rattle.filer_kernel.specs.Triples.{MapIs};
ghost use Rattle.filer_kernel.specs.Causes.{MapShows, MapCounts, MapHalts, AddHalts, CutHalts, IsFaultOrMismatch, IsFaultOrMost};

use crate::Filer;
use crate::halted::halted;
use file_map::{FileMap, Run};
use labelled_disk::{Disk, FileId, Halt};
use std::alloc::Allocator;
use swapper_kernel::{Manager, MapMemory};

impl<D: Disk, A: Allocator> Filer<D, A> {
    /// Gives the pages of a run their sectors in the file map. They had none before.
    ///
    /// After a halt what the map says is open.
    pub fn add(&mut self, run: Run) -> Result<(), Halt>
        requires size { (D.state self.old.swapper.disk).sectors ≡ self.old.swapper.layout.sectors }
        requires form { IsRun self.old.swapper.layout.sectors run }
        ensures added { (m : List Sector) (named : Triples)
            → Stands (D.state self.old.swapper.disk) self.old.swapper.pool m → MapIs self.old.swapper.layout named m
            → IsNew named run
            → OnOk result
            (Becomes FileMapPages self.old.swapper.layout m (MapIs self.old.swapper.layout (with_run named run))
            (D.state self.new.swapper.disk) self.new.swapper.pool) }
        ensures room { (n : ℕ)
            → MapCounts self.old.swapper.layout (D.state self.old.swapper.disk) self.old.swapper.pool n
            → IfOk result (λ _. n < most_records self.old.swapper.layout.sectors) }
        // the map is never full where fewer sectors are used than records may be
        ensures sound { (m : List Sector) (named : Triples) (used : ℕ → Bool)
            → Stands (D.state self.old.swapper.disk) self.old.swapper.pool m → MapIs self.old.swapper.layout named m
            → IsNew named run → AreNamed m (IsMapHome FileMapPages self.old.swapper.layout) → AreOnce named
            → AreAmong named used
            → data_count self.old.swapper.layout.sectors used < most_records self.old.swapper.layout.sectors
            → IfErr result (λ e. e ≡ halt.Disk) }
        ensures right { (m : List Sector) (named : Triples)
            → Stands (D.state self.old.swapper.disk) self.old.swapper.pool m → MapIs self.old.swapper.layout named m
            → IsNew named run
            → IfErr result
            (IsFaultOrMost self.old.swapper.layout (D.state self.old.swapper.disk) self.old.swapper.pool) }
        ensures cause { IfErr result
            (AddHalts self.old.swapper.layout (D.state self.old.swapper.disk) self.old.swapper.pool
            (D.state self.new.swapper.disk)) }
        ensures beside { Beside FileMapPages (D.state self.old.swapper.disk) self.old.swapper.pool
            self.old.swapper.layout (D.state self.new.swapper.disk) self.new.swapper.pool self.new.swapper.layout }
        ensures runs { self.new.runs ≡ self.old.runs }
        ensures cost { (D.state self.new.swapper.disk).transfers ≤ (D.state self.old.swapper.disk).transfers + 98 }
    {
        let layout = self.swapper.layout();
        let mut map = FileMap::<MapMemory<D, A>>::over(
            self.swapper.map_memory(Manager::FileMap),
            layout.sectors,
        );
        halted(map.add(run))
    }

    /// Takes the pages of a file from one on out of the file map, its leader among them, and forgets the runs of the file
    /// that are kept.
    ///
    /// After a halt what the map says is open, and the runs are forgotten.
    pub fn cut(&mut self, id: FileId, from: u32) -> Result<(), Halt>
        requires size { (D.state self.old.swapper.disk).sectors ≡ self.old.swapper.layout.sectors }
        ensures cut { (m : List Sector) (named : Triples)
            → Stands (D.state self.old.swapper.disk) self.old.swapper.pool m → MapIs self.old.swapper.layout named m
            → OnOk result
            (Becomes FileMapPages self.old.swapper.layout m (MapIs self.old.swapper.layout (without_from named id from))
            (D.state self.new.swapper.disk) self.new.swapper.pool) }
        ensures runs { (n : ℕ) → runs_of n self.new.runs ≡ filter (λ r. not (r.id == id)) (runs_of n self.old.runs) }
        ensures sound { (m : List Sector) (named : Triples)
            → Stands (D.state self.old.swapper.disk) self.old.swapper.pool m → MapIs self.old.swapper.layout named m
            → AreNamed m (IsMapHome FileMapPages self.old.swapper.layout) → IfErr result (λ e. e ≡ halt.Disk) }
        ensures right { (m : List Sector) (named : Triples)
            → Stands (D.state self.old.swapper.disk) self.old.swapper.pool m → MapIs self.old.swapper.layout named m
            → IfErr result IsFaultOrMismatch }
        // it has its cause in the map as it was at the start, or a record of the file, whole or in part, was to be taken out of it
        ensures begun { IfErr result
            (λ why.
            MapHalts self.old.swapper.layout (D.state self.old.swapper.disk) self.old.swapper.pool
            (D.state self.new.swapper.disk) why
            ⊎ IsToCut id from
            (MapShows self.old.swapper.layout (D.state self.old.swapper.disk) self.old.swapper.pool)) }
        ensures cause { IfErr result
            (CutHalts self.old.swapper.layout (D.state self.old.swapper.disk) self.old.swapper.pool
            (D.state self.new.swapper.disk) self.new.swapper.pool) }
        ensures beside { Beside FileMapPages (D.state self.old.swapper.disk) self.old.swapper.pool
            self.old.swapper.layout (D.state self.new.swapper.disk) self.new.swapper.pool self.new.swapper.layout }
        ensures cost { (D.state self.new.swapper.disk).transfers ≤ (D.state self.old.swapper.disk).transfers + 2
            * (1 + 51 * most_records self.old.swapper.layout.sectors) }
        ensures cost_sized { (m : List Sector) (named : Triples) (size : ℕ)
            → Stands (D.state self.old.swapper.disk) self.old.swapper.pool m → MapIs self.old.swapper.layout named m
            → IsSize named id size
            → (D.state self.new.swapper.disk).transfers ≤ (D.state self.old.swapper.disk).transfers + 2
            * (1 + 51 * (size + 2)) }
    {
        self.runs.discard(id);
        let layout = self.swapper.layout();
        let mut map = FileMap::<MapMemory<D, A>>::over(
            self.swapper.map_memory(Manager::FileMap),
            layout.sectors,
        );
        halted(map.cut(id, from))
    }
}
