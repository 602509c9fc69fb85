//! The second volume is closed.
ghost use Rattle.std.specs.Prelude.{◌≡◌, ◌⊎◌, ◌^◌, ◌<◌, ℕ, true, List, length, slice_get, IfErr, MatchResult, OnOk};
ghost use Rattle.labelled_disk.specs.declared.evidence.Halt.TheVariants as halt;
ghost use Rattle.labelled_disk.specs.Calls.{RevealsSame, RevealsWrite};
ghost use Rattle.labelled_disk.specs.Sectors.{Sector};
ghost use Rattle.swapper_kernel.specs.Goes.{IsDirty};
ghost use Rattle.swapper_kernel.specs.Maps.{id_of};
ghost use Rattle.filer_kernel.specs.View.{FitsLayout, HasMemory, SwapsOnly, disk_of, view_of};
ghost use Rattle.session_words.specs.Parts.{HasRoot};
ghost use Rattle.volume_root.specs.RootPage.{IsValidRoot, root_write};
ghost use Rattle.pair_machine.specs.Pair as machine;
ghost use Rattle.volume_pair.specs.CrashStates.{KeepsFiles};
ghost use Rattle.volume_pair.specs.Ends.{AreWritten, HasClosed, IsWritten, IsWrittenOwn, closed_root};
ghost use Rattle.volume_pair.specs.Pairs.{IsFaultOfDisk, IsInUse, IsOfSecond, IsPaired};
ghost use Rattle.volume_pair.specs.Sides.{IsSide, ShowsWhy};

use crate::syncing::sync_disk;
use crate::{Pair, PairHalt};
use filer_kernel::Filer;
use force_calls::flush;
use labelled_disk::{Disk, Halt};
use std::alloc::Allocator;
use swapper_kernel::Manager;
use volume_root::{Root, write_root};

// The same root, of a closed volume.
fn closed(root: Root) -> Root
    ensures root { result ≡ closed_root root }
    ensures serial { root.serial < 2 ^ 32 }
    ensures counter { root.counter < 2 ^ 32 }
{
    Root {
        clean: true,
        ..root
    }
}

// Writes out the dirty pages of a map.
fn write_map<D: Disk, A: Allocator>(filer: &mut Filer<D, A>, which: Manager) -> Result<(), Halt>
    requires size { FitsLayout (view_of filer.old) }
    ensures clean { OnOk result ((page : ℕ) → IsDirty (view_of filer.new).slots (id_of which) page → ⊥) }
    ensures sound { (x : List Sector) → HasMemory (view_of filer.old) x → IfErr result (λ e. e ≡ halt.Disk) }
    ensures swaps { SwapsOnly (view_of filer.old) (view_of filer.new) }
    ensures why { IfErr result (ShowsWhy (view_of filer.old) (view_of filer.new)) }
    ensures layout { (view_of filer.new).layout ≡ (view_of filer.old).layout }
    ensures runs { (view_of filer.new).runs ≡ (view_of filer.old).runs }
{
    let swapper = filer.swapper_over();
    let layout = swapper.layout();
    match flush(swapper, which.id(), 0, which.pages(&layout)) {
        Ok(()) => Ok(()),
        Err(halt) => Err(halt),
    }
}

// Those of both, and waits until all that was written is on the medium.
fn sync_maps<D: Disk, A: Allocator>(filer: &mut Filer<D, A>) -> Result<(), Halt>
    requires size { FitsLayout (view_of filer.old) }
    ensures clean { OnOk result (AreWritten (view_of filer.new).slots) }
    ensures sound { (x : List Sector) → HasMemory (view_of filer.old) x → IfErr result (λ e. e ≡ halt.Disk) }
    ensures swaps { SwapsOnly (view_of filer.old) (view_of filer.new) }
    ensures why { IfErr result (ShowsWhy (view_of filer.old) (view_of filer.new)) }
    ensures layout { (view_of filer.new).layout ≡ (view_of filer.old).layout }
    ensures runs { (view_of filer.new).runs ≡ (view_of filer.old).runs }
{
    match write_map(filer, Manager::AllocationMap) {
        Ok(()) => (),
        Err(halt) => return Err(halt),
    }
    match write_map(filer, Manager::FileMap) {
        Ok(()) => (),
        Err(halt) => return Err(halt),
    }
    match sync_disk(filer) {
        Ok(()) => Ok(()),
        Err(halt) => Err(halt),
    }
}

// Writes the root of the closed volume.
fn write_closed<D: Disk, A: Allocator>(filer: &mut Filer<D, A>, root: Root) -> Result<(), Halt>
    requires size { FitsLayout (view_of filer.old) }
    requires valid { IsValidRoot (view_of filer.old).layout.sectors root }
    ensures made { MatchResult result
        (λ _. RevealsWrite (root_write (closed_root root)) (view_of filer.old).disk (view_of filer.new).disk)
        (λ _. RevealsSame (view_of filer.old).disk (view_of filer.new).disk
        ⊎ RevealsWrite (root_write (closed_root root)) (view_of filer.old).disk (view_of filer.new).disk) }
    ensures fault { IfErr result (λ e. e ≡ halt.Disk) }
    ensures writes { IsWrittenOwn (view_of filer.old) (view_of filer.new) }
    ensures why { IfErr result (ShowsWhy (view_of filer.old) (view_of filer.new)) }
{
    let disk = filer.disk_over();
    match write_root(disk, &closed(root)) {
        Ok(()) => Ok(()),
        Err(_) => Err(Halt::Disk),
    }
}

// Closes the volume of this root: its maps are written, and once all is on the medium its root, which then is so too.
fn close<D: Disk, A: Allocator>(filer: &mut Filer<D, A>, root: Root) -> Result<(), Halt>
    requires size { FitsLayout (view_of filer.old) }
    requires valid { IsValidRoot (view_of filer.old).layout.sectors root }
    ensures closed { (p : machine.Pair) (y : List Sector) → IsSide (view_of filer.old) p.to y
        → HasRoot (length y) (slice_get y 0) root.serial root.counter p.capacity
        → MatchResult result (λ _. HasClosed p root (view_of filer.new).disk) (λ e. e ≡ halt.Disk) }
    ensures crash_states { (p : machine.Pair) (y : List Sector) → IsSide (view_of filer.old) p.to y
        → HasRoot (length y) (slice_get y 0) root.serial root.counter p.capacity
        → KeepsFiles p.to root.serial root.counter (view_of filer.old).disk (view_of filer.new).disk }
    ensures writes { IsWrittenOwn (view_of filer.old) (view_of filer.new) }
    ensures why { IfErr result (ShowsWhy (view_of filer.old) (view_of filer.new)) }
{
    match sync_maps(filer) {
        Ok(()) => (),
        Err(halt) => return Err(halt),
    }
    match write_closed(filer, root) {
        Ok(()) => (),
        Err(halt) => return Err(halt),
    }
    match sync_disk(filer) {
        Ok(()) => Ok(()),
        Err(halt) => Err(halt),
    }
}

// So does the second volume of a pair.
fn close_second<E: Disk, A: Allocator>(to: &mut Filer<E, A>, root: Root) -> Result<(), PairHalt>
    requires size { FitsLayout (view_of to.old) }
    requires valid { IsValidRoot (view_of to.old).layout.sectors root }
    ensures closed { (p : machine.Pair) (y : List Sector) → IsSide (view_of to.old) p.to y
        → HasRoot (length y) (slice_get y 0) root.serial root.counter p.capacity
        → MatchResult result (λ _. HasClosed p root (view_of to.new).disk) IsFaultOfDisk }
    ensures crash_states { (p : machine.Pair) (y : List Sector) → IsSide (view_of to.old) p.to y
        → HasRoot (length y) (slice_get y 0) root.serial root.counter p.capacity
        → KeepsFiles p.to root.serial root.counter (view_of to.old).disk (view_of to.new).disk }
    ensures writes { IsWrittenOwn (view_of to.old) (view_of to.new) }
    ensures why { IfErr result (IsOfSecond (view_of to.old).disk (view_of to.new).disk) }
{
    match close(to, root) {
        Ok(()) => Ok(()),
        Err(halt) => Err(PairHalt::To(halt)),
    }
}

impl<D: Disk, E: Disk, A: Allocator> Pair<D, E, A> {
    /// Both disks, as they stand: what is dirty in frames of the second is lost, and its volume stays open.
    pub fn into_disks(self) -> (D, E)
        ensures from { result.0 ≡ disk_of self.from }
        ensures to { result.1 ≡ disk_of self.to }
    {
        let Pair {
            from,
            to,
            volume: _,
            running: _,
        } = self;
        (from.into_disk(), to.into_disk())
    }

    /// Closes the second volume, and hands both disks back: both maps are written, and once all of it is on the medium
    /// the root with its clean flag set, which then is so too. After a halt the second volume is to be restored before
    /// it can be opened.
    pub fn finish(self) -> (Result<(), PairHalt>, D, E)
        requires in_use { IsInUse (view_of self.from) (view_of self.to) self.volume }
        requires running { self.running ≡ true }
        ensures closed { (p : machine.Pair) → IsPaired (view_of self.from) (view_of self.to) self.volume p
            → MatchResult result.0 (λ _. HasClosed p self.volume.root (E.state result.2)) IsFaultOfDisk }
        ensures crash_states { (p : machine.Pair) → IsPaired (view_of self.from) (view_of self.to) self.volume p
            → KeepsFiles p.to self.volume.root.serial self.volume.root.counter (view_of self.to).disk
            (E.state result.2) }
        ensures from { result.1 ≡ disk_of self.from }
        ensures to { IsWritten (view_of self.to).slots (view_of self.to).disk (E.state result.2) }
        ensures why { IfErr result.0 (IsOfSecond (view_of self.to).disk (E.state result.2)) }
    {
        let mut pair = self;
        let root = pair.volume.root;
        let ended = close_second(&mut pair.to, root);
        let (from, to) = pair.into_disks();
        (ended, from, to)
    }
}
