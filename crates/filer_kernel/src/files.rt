//! Files that are looked up, in the file map.
ghost use Rattle.std.specs.Prelude.{◌≡◌, ℕ, ◌+◌, ◌≤◌, ◌<◌, true, find, List, IfOk, IfErr, IfSome, Ok, Some, None};
ghost use Rattle.labelled_disk.specs.Sectors.{Sector};
ghost use Rattle.labelled_disk.specs.declared.evidence.Halt.TheVariants as halt;
ghost use Rattle.file_map.specs.Run.{IsRun, holds, run_bytes};
ghost use Rattle.file_map.specs.FileMap.{Triples, IsFound, IsNowhere, IsSize, IsNext};
ghost use Rattle.file_map.specs.Entries.{Entry};
ghost use Rattle.swapper_kernel.specs.declared.manager.Manager.TheVariants.{FileMap as FileMapPages};
ghost use Rattle.swapper_kernel.specs.Maps.{IsMapHome};
ghost use Rattle.swapper_kernel.specs.Homes.{AreNamed};
ghost use Rattle.swapper_kernel.specs.Stands.{Stands};
ghost use Rattle.swapper_kernel.specs.Window.{Reveals, Beside, Looked};
ghost use Rattle.filer_kernel.specs.Cached.{runs_of};
ghost use Rattle.filer_kernel.specs.Triples.{MapIs, AreOf};
ghost use Rattle.filer_kernel.specs.Causes.{MapShows, MapHalts, IsFaultOrMismatch, IsGiven};

use crate::Filer;
use crate::halted::halted;
use file_map::{FileMap, Run};
use labelled_disk::{Disk, FileId, Halt};
use std::alloc::Allocator;
use swapper_kernel::{Manager, MapMemory};

impl<D: Disk, A: Allocator> Filer<D, A> {
    ghost use Rattle.filer_kernel.specs.View.{view_of};
    ghost use Rattle.filer_kernel.specs.Looks.{FailsToLook, KeepsRuns, LeavesMap};

    // The run of the map that has this page.
    fn search(&mut self, id: FileId, page: u32) -> Result<Option<Run>, Halt>
        requires size { (D.state self.old.swapper.disk).sectors ≡ self.old.swapper.layout.sectors }
        ensures found { (m : List Sector) (named : Triples)
            → Stands (D.state self.old.swapper.disk) self.old.swapper.pool m → MapIs self.old.swapper.layout named m
            → IfOk result (IsFound named id page) }
        ensures form { IfOk result (λ found. IfSome found (λ run. IsRun self.old.swapper.layout.sectors run)) }
        ensures holds { IfOk result (λ found. IfSome found (λ run. holds run id page ≡ true)) }
        ensures read { IfOk result
            (λ found.
            IfSome found
            (λ run.
            (at : ℕ)
            × MapShows self.old.swapper.layout (D.state self.old.swapper.disk) self.old.swapper.pool
            (Entry at (run_bytes run)))) }
        ensures fails { FailsToLook (view_of self.old) (view_of self.new) result }
        ensures leaves { LeavesMap (view_of self.old) (view_of self.new) }
        ensures runs { self.new.runs ≡ self.old.runs }
        ensures cost { (D.state self.new.swapper.disk).transfers ≤ (D.state self.old.swapper.disk).transfers + 14 }
    {
        let layout = self.swapper.layout();
        let mut map = FileMap::<MapMemory<D, A>>::over(
            self.swapper.map_memory(Manager::FileMap),
            layout.sectors,
        );
        halted(map.find(id, page))
    }

    /// The run of the file map that has this page, or none where the page has no sector. A run that is kept is given
    /// without a transfer.
    pub fn find(&mut self, id: FileId, page: u32) -> Result<Option<Run>, Halt>
        requires size { (D.state self.old.swapper.disk).sectors ≡ self.old.swapper.layout.sectors }
        ensures found { (m : List Sector) (named : Triples)
            → Stands (D.state self.old.swapper.disk) self.old.swapper.pool m → MapIs self.old.swapper.layout named m
            → AreOf named (runs_of self.old.swapper.layout.sectors self.old.runs)
            → IfOk result (IsFound named id page) }
        ensures nowhere { (m : List Sector) (named : Triples)
            → Stands (D.state self.old.swapper.disk) self.old.swapper.pool m → MapIs self.old.swapper.layout named m
            → result ≡ Ok None → IsNowhere named id page }
        ensures form { IfOk result (λ found. IfSome found (λ run. IsRun self.old.swapper.layout.sectors run)) }
        ensures holds { IfOk result (λ found. IfSome found (λ run. holds run id page ≡ true)) }
        ensures given { IfOk result
            (λ found.
            IfSome found
            (λ run.
            IsGiven self.old.swapper.layout (D.state self.old.swapper.disk) self.old.swapper.pool
            (runs_of self.old.swapper.layout.sectors self.old.runs) run)) }
        ensures keeps { KeepsRuns (view_of self.old) (view_of self.new) result }
        ensures idle { (r : Run)
            → find (λ r. holds r id page) (runs_of self.old.swapper.layout.sectors self.old.runs) ≡ Some r
            → (result ≡ Ok (Some r)) × (self.new.swapper ≡ self.old.swapper) × (self.new.runs ≡ self.old.runs) }
        ensures fails { FailsToLook (view_of self.old) (view_of self.new) result }
        ensures leaves { LeavesMap (view_of self.old) (view_of self.new) }
        ensures cost { (D.state self.new.swapper.disk).transfers ≤ (D.state self.old.swapper.disk).transfers + 14 }
    {
        let sectors = self.swapper.layout().sectors;
        if let Some(run) = self.runs.find(sectors, id, page) {
            return Ok(Some(run));
        }
        let found = self.search(id, page)?;
        if let Some(run) = found {
            self.runs.keep(sectors, run);
        }
        Ok(found)
    }

    /// One more than the highest page of the file, its leader left out, or 0.
    pub fn size(&mut self, id: FileId) -> Result<u32, Halt>
        requires sectors { (D.state self.old.swapper.disk).sectors ≡ self.old.swapper.layout.sectors }
        ensures size { (m : List Sector) (named : Triples)
            → Stands (D.state self.old.swapper.disk) self.old.swapper.pool m → MapIs self.old.swapper.layout named m
            → IfOk result (IsSize named id) }
        ensures sound { (m : List Sector) (named : Triples)
            → Stands (D.state self.old.swapper.disk) self.old.swapper.pool m → MapIs self.old.swapper.layout named m
            → AreNamed m (IsMapHome FileMapPages self.old.swapper.layout) → IfErr result (λ e. e ≡ halt.Disk) }
        ensures same { (m : List Sector) (named : Triples)
            → Stands (D.state self.old.swapper.disk) self.old.swapper.pool m → MapIs self.old.swapper.layout named m
            → Stands (D.state self.new.swapper.disk) self.new.swapper.pool m }
        ensures same_bytes { (b : List ℕ)
            → Reveals FileMapPages (D.state self.old.swapper.disk) self.old.swapper.pool self.old.swapper.layout b
            → Reveals FileMapPages (D.state self.new.swapper.disk) self.new.swapper.pool self.old.swapper.layout b }
        ensures right { (m : List Sector) (named : Triples)
            → Stands (D.state self.old.swapper.disk) self.old.swapper.pool m → MapIs self.old.swapper.layout named m
            → IfErr result IsFaultOrMismatch }
        ensures cause { IfErr result
            (MapHalts self.old.swapper.layout (D.state self.old.swapper.disk) self.old.swapper.pool
            (D.state self.new.swapper.disk)) }
        ensures beside { Beside FileMapPages (D.state self.old.swapper.disk) self.old.swapper.pool
            self.old.swapper.layout (D.state self.new.swapper.disk) self.new.swapper.pool self.new.swapper.layout }
        ensures looked { Looked FileMapPages (D.state self.old.swapper.disk) self.old.swapper.pool
            self.old.swapper.layout (D.state self.new.swapper.disk) self.new.swapper.pool self.new.swapper.layout }
        ensures runs { self.new.runs ≡ self.old.runs }
        ensures cost { (D.state self.new.swapper.disk).transfers ≤ (D.state self.old.swapper.disk).transfers + 14 }
    {
        let layout = self.swapper.layout();
        let mut map = FileMap::<MapMemory<D, A>>::over(
            self.swapper.map_memory(Manager::FileMap),
            layout.sectors,
        );
        halted(map.size(id))
    }

    /// The least identifier above this one, and at least 16, of which a page has a sector.
    pub fn next_file(&mut self, id: FileId) -> Result<Option<FileId>, Halt>
        requires size { (D.state self.old.swapper.disk).sectors ≡ self.old.swapper.layout.sectors }
        ensures next { (m : List Sector) (named : Triples)
            → Stands (D.state self.old.swapper.disk) self.old.swapper.pool m → MapIs self.old.swapper.layout named m
            → IfOk result (IsNext named id) }
        ensures above { IfOk result (λ found. IfSome found (λ next. (id < next) × (16 ≤ next))) }
        ensures sound { (m : List Sector) (named : Triples)
            → Stands (D.state self.old.swapper.disk) self.old.swapper.pool m → MapIs self.old.swapper.layout named m
            → AreNamed m (IsMapHome FileMapPages self.old.swapper.layout) → IfErr result (λ e. e ≡ halt.Disk) }
        ensures same { (m : List Sector) (named : Triples)
            → Stands (D.state self.old.swapper.disk) self.old.swapper.pool m → MapIs self.old.swapper.layout named m
            → Stands (D.state self.new.swapper.disk) self.new.swapper.pool m }
        ensures same_bytes { (b : List ℕ)
            → Reveals FileMapPages (D.state self.old.swapper.disk) self.old.swapper.pool self.old.swapper.layout b
            → Reveals FileMapPages (D.state self.new.swapper.disk) self.new.swapper.pool self.old.swapper.layout b }
        ensures right { (m : List Sector) (named : Triples)
            → Stands (D.state self.old.swapper.disk) self.old.swapper.pool m → MapIs self.old.swapper.layout named m
            → IfErr result IsFaultOrMismatch }
        ensures cause { IfErr result
            (MapHalts self.old.swapper.layout (D.state self.old.swapper.disk) self.old.swapper.pool
            (D.state self.new.swapper.disk)) }
        ensures beside { Beside FileMapPages (D.state self.old.swapper.disk) self.old.swapper.pool
            self.old.swapper.layout (D.state self.new.swapper.disk) self.new.swapper.pool self.new.swapper.layout }
        ensures looked { Looked FileMapPages (D.state self.old.swapper.disk) self.old.swapper.pool
            self.old.swapper.layout (D.state self.new.swapper.disk) self.new.swapper.pool self.new.swapper.layout }
        ensures runs { self.new.runs ≡ self.old.runs }
        ensures cost { (D.state self.new.swapper.disk).transfers ≤ (D.state self.old.swapper.disk).transfers + 36 }
    {
        let layout = self.swapper.layout();
        let mut map = FileMap::<MapMemory<D, A>>::over(
            self.swapper.map_memory(Manager::FileMap),
            layout.sectors,
        );
        halted(map.next_file(id))
    }
}
