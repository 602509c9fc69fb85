//! Sectors that are taken and given back, in the allocation map.
ghost use Rattle.std.specs.Prelude.{◌≡◌, ◌+◌, ◌-◌, ◌*◌, ◌≤◌, ◌<◌, true, false, List, IfOk, IfErr, OnOk, Err, MatchResult};
ghost use Rattle.labelled_disk.specs.Sectors.{Sector};
ghost use Rattle.labelled_disk.specs.declared.evidence.Halt.TheVariants as halt;
ghost use Rattle.alloc_map.specs.Runs.{IsDataRun, IfMem};
ghost use Rattle.swapper_kernel.specs.declared.manager.Manager.TheVariants.{AllocationMap};
ghost use Rattle.swapper_kernel.specs.Maps.{IsMapHome};
ghost use Rattle.swapper_kernel.specs.Homes.{AreNamed};
ghost use Rattle.swapper_kernel.specs.Stands.{Stands};
ghost use Rattle.swapper_kernel.specs.Halts.{Halts};
ghost use Rattle.swapper_kernel.specs.Window.{Beside, Looked};
ghost use Rattle.filer_kernel.specs.Becomes.{Becomes};
ghost use Rattle.filer_kernel.specs.Marks.{Marks, BitsAre, marked, AreAll, NoneFreeBelow, IsFreeRun, IsLowestRun, free_sectors};

use crate::Filer;
use alloc_map::{AllocError, AllocMap};
use labelled_disk::{Disk, Halt};
use std::alloc::Allocator;
use swapper_kernel::{Manager, MapMemory};

// Where the next look for free sectors begins: at the end of the run that was taken, at the end of all sectors where there
// was no room, and else where this one began.
fn free_after(answer: &Result<(u32, u32), AllocError<Halt>>, before: u32, sectors: u32) -> u32
    requires { IfOk answer.now (λ run. run.0 + run.1 ≤ sectors) }
    ensures run { IfOk answer.now (λ run. result ≡ run.0 + run.1) }
    ensures no_room { answer.now ≡ Err AllocError.NoRoom → result ≡ sectors }
    ensures failed { IfErr answer.now (IfMem (λ _. result ≡ before)) }
{
    match answer {
        Ok((sector, pages)) => *sector + *pages,
        Err(AllocError::NoRoom) => sectors,
        Err(AllocError::Mem(_)) => before,
    }
}

impl<D: Disk, A: Allocator> Filer<D, A> {
    ghost use Rattle.filer_kernel.specs.View.{view_of};
    ghost use Rattle.filer_kernel.specs.Looks.{FailsToTake};

    /// How many data sectors are free.
    pub fn free_count(&mut self) -> Result<u32, Halt>
        requires size { (D.state self.old.swapper.disk).sectors ≡ self.old.swapper.layout.sectors }
        ensures count { (m : List Sector) (marks : Marks)
            → Stands (D.state self.old.swapper.disk) self.old.swapper.pool m → BitsAre self.old.swapper.layout marks m
            → IfOk result (λ n. n ≡ free_sectors self.old.swapper.layout marks) }
        ensures form { IfOk result (λ n. n ≤ self.old.swapper.layout.sectors - self.old.swapper.layout.first) }
        ensures sound { (m : List Sector) → Stands (D.state self.old.swapper.disk) self.old.swapper.pool m
            → AreNamed m (IsMapHome AllocationMap self.old.swapper.layout) → IfErr result (λ e. e ≡ halt.Disk) }
        ensures same { (m : List Sector) (marks : Marks)
            → Stands (D.state self.old.swapper.disk) self.old.swapper.pool m → BitsAre self.old.swapper.layout marks m
            → Stands (D.state self.new.swapper.disk) self.new.swapper.pool m }
        ensures cause { IfErr result
            (Halts (IsMapHome AllocationMap self.old.swapper.layout) (D.state self.old.swapper.disk)
            self.old.swapper.pool (D.state self.new.swapper.disk)) }
        ensures kept { Beside AllocationMap (D.state self.old.swapper.disk) self.old.swapper.pool
            self.old.swapper.layout (D.state self.new.swapper.disk) self.new.swapper.pool self.new.swapper.layout }
        ensures looked { Looked AllocationMap (D.state self.old.swapper.disk) self.old.swapper.pool
            self.old.swapper.layout (D.state self.new.swapper.disk) self.new.swapper.pool self.new.swapper.layout }
        ensures runs { self.new.runs ≡ self.old.runs }
        ensures cost { (D.state self.new.swapper.disk).transfers ≤ (D.state self.old.swapper.disk).transfers + 2
            * self.old.swapper.layout.vam }
    {
        let layout = self.swapper.layout();
        let mut map = AllocMap::<MapMemory<D, A>>::over(
            self.swapper.map_memory(Manager::AllocationMap),
            layout.first,
            layout.sectors,
        );
        map.free_count()
    }

    /// Takes a free data sector and as many free ones directly after it as there are, at most `most` together. Where none
    /// below the one that the filer remembers is free it is the lowest one, and then so it is afterwards.
    ///
    /// Gives the first sector and how many were taken. After a halt some of the free data sectors may be marked.
    pub fn take(&mut self, most: u32) -> Result<(u32, u32), AllocError<Halt>>
        requires size { (D.state self.old.swapper.disk).sectors ≡ self.old.swapper.layout.sectors }
        requires some { 1 ≤ most }
        ensures lowest { (m : List Sector) (marks : Marks)
            → Stands (D.state self.old.swapper.disk) self.old.swapper.pool m → BitsAre self.old.swapper.layout marks m
            → NoneFreeBelow self.old.swapper.layout marks self.old.free_from
            → MatchResult result (IsLowestRun self.old.swapper.layout marks self.new.free_from)
            (λ _. NoneFreeBelow self.old.swapper.layout marks self.new.free_from) }
        ensures free { (m : List Sector) (marks : Marks)
            → Stands (D.state self.old.swapper.disk) self.old.swapper.pool m → BitsAre self.old.swapper.layout marks m
            → IfOk result (IsFreeRun self.old.swapper.layout marks most) }
        ensures taken { (m : List Sector) (marks : Marks)
            → Stands (D.state self.old.swapper.disk) self.old.swapper.pool m → BitsAre self.old.swapper.layout marks m
            → IfOk result
            (λ run.
            Becomes AllocationMap self.old.swapper.layout m
            (BitsAre self.old.swapper.layout (marked true run.0 run.1 marks)) (D.state self.new.swapper.disk)
            self.new.swapper.pool) }
        ensures no_room { (m : List Sector) (marks : Marks)
            → Stands (D.state self.old.swapper.disk) self.old.swapper.pool m → BitsAre self.old.swapper.layout marks m
            → result ≡ Err AllocError.NoRoom
            → AreAll true marks self.old.swapper.layout.first self.old.swapper.layout.sectors }
        ensures fails { FailsToTake (view_of self.old) (view_of self.new) result }
        ensures same { (m : List Sector) (marks : Marks)
            → Stands (D.state self.old.swapper.disk) self.old.swapper.pool m → BitsAre self.old.swapper.layout marks m
            → result ≡ Err AllocError.NoRoom → Stands (D.state self.new.swapper.disk) self.new.swapper.pool m }
        ensures form { IfOk result (IsDataRun self.old.swapper.layout.first self.old.swapper.layout.sectors most) }
        ensures kept { Beside AllocationMap (D.state self.old.swapper.disk) self.old.swapper.pool
            self.old.swapper.layout (D.state self.new.swapper.disk) self.new.swapper.pool self.new.swapper.layout }
        ensures runs { self.new.runs ≡ self.old.runs }
        ensures cost { (D.state self.new.swapper.disk).transfers ≤ (D.state self.old.swapper.disk).transfers + 8
            * self.old.swapper.layout.vam }
    {
        let layout = self.swapper.layout();
        let mut map = AllocMap::<MapMemory<D, A>>::over(
            self.swapper.map_memory(Manager::AllocationMap),
            layout.first,
            layout.sectors,
        );
        let answer = map.take(self.free_from, most);
        self.free_from = free_after(&answer, self.free_from, layout.sectors);
        answer
    }

    /// Marks data sectors free. After a halt which of them are marked is open. Where no data sector below the one that the
    /// filer remembers was free, so it is afterwards.
    pub fn give(&mut self, sector: u32, pages: u32) -> Result<(), Halt>
        requires size { (D.state self.old.swapper.disk).sectors ≡ self.old.swapper.layout.sectors }
        requires data { self.old.swapper.layout.first ≤ sector }
        requires inside { sector + pages ≤ self.old.swapper.layout.sectors }
        ensures given { (m : List Sector) (marks : Marks)
            → Stands (D.state self.old.swapper.disk) self.old.swapper.pool m → BitsAre self.old.swapper.layout marks m
            → OnOk result
            (Becomes AllocationMap self.old.swapper.layout m
            (BitsAre self.old.swapper.layout (marked false sector pages marks)) (D.state self.new.swapper.disk)
            self.new.swapper.pool) }
        ensures free { (marks : Marks) → NoneFreeBelow self.old.swapper.layout marks self.old.free_from
            → NoneFreeBelow self.old.swapper.layout (marked false sector pages marks) self.new.free_from }
        ensures sound { (m : List Sector) → Stands (D.state self.old.swapper.disk) self.old.swapper.pool m
            → AreNamed m (IsMapHome AllocationMap self.old.swapper.layout) → IfErr result (λ e. e ≡ halt.Disk) }
        ensures cause { IfErr result
            (Halts (IsMapHome AllocationMap self.old.swapper.layout) (D.state self.old.swapper.disk)
            self.old.swapper.pool (D.state self.new.swapper.disk)) }
        ensures kept { Beside AllocationMap (D.state self.old.swapper.disk) self.old.swapper.pool
            self.old.swapper.layout (D.state self.new.swapper.disk) self.new.swapper.pool self.new.swapper.layout }
        ensures runs { self.new.runs ≡ self.old.runs }
        ensures cost { (D.state self.new.swapper.disk).transfers ≤ (D.state self.old.swapper.disk).transfers + 4
            * self.old.swapper.layout.vam }
    {
        self.free_from = self.free_from.min(sector);
        let layout = self.swapper.layout();
        let mut map = AllocMap::<MapMemory<D, A>>::over(
            self.swapper.map_memory(Manager::AllocationMap),
            layout.first,
            layout.sectors,
        );
        map.give(sector, pages)
    }
}
