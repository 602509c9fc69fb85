//! A pair is started on two volumes that were closed.
ghost use Rattle.std.specs.Prelude.{◌≡◌, ◌⊎◌, ◌-◌, ◌^◌, ◌<◌, ◌≤◌, min, ℕ, true, List, [], ◌∷◌, Some, IfErr, IfOk, MatchResult};
ghost use Rattle.labelled_disk.specs.declared.evidence.Halt.TheVariants as halt;
ghost use Rattle.labelled_disk.specs.declared.layout.RootFault.TheVariants as fault;
ghost use Rattle.labelled_disk.specs.Calls.{ReadsAtMost, Rose};
ghost use Rattle.labelled_disk.specs.CrashState.{written};
ghost use Rattle.labelled_disk.specs.FilesOn.{files_on};
ghost use Rattle.labelled_disk.specs.Root.{counter_of, root_page, serial_of};
ghost use Rattle.labelled_disk.specs.Sectors.{Sector};
ghost use Rattle.filer_kernel.specs.Cached.{runs_of};
ghost use Rattle.filer_kernel.specs.View.{FitsLayout, disk_of, view_of};
ghost use Rattle.file_manager.specs.Stays.{FramesStay};
ghost use Rattle.swapper_kernel.specs.Goes.{Goes, no_page};
ghost use Rattle.swapper_kernel.specs.Homes.{IsLayout};
ghost use Rattle.volume_root.specs.Flag.{IsRefused};
ghost use Rattle.volume_root.specs.RootPage.{IsValidRoot, root_in, root_write};
ghost use Rattle.volume_root.specs.Sound.{Sound};
ghost use Rattle.label_calls.specs.Labels.{MayHaveWritten};
ghost use Rattle.volume_pair.specs.CrashStates.{KeepsFiles};
ghost use Rattle.volume_pair.specs.Ends.{IsAccepted, IsBare, IsCounted, IsEarly, IsLaid, IsOutside, IsRightRefusal, IsStarted, IsWrittenOwn, in_use, pair_of};
ghost use Rattle.volume_pair.specs.Kept.{IsRootOf, StartMade, StartWrote};
ghost use Rattle.volume_pair.specs.Owned.{IsInUseAs};
ghost use Rattle.volume_pair.specs.Pairs.{IsInUse, IsPaired};
ghost use Rattle.volume_pair.specs.Sides.{AreClean, ShowsWhy};

use crate::syncing::sync_disk;
use crate::{Pair, PairStart};
use file_manager::{Volume, write_over};
use filer_kernel::Filer;
use labelled_disk::{Disk, Halt, Layout, RootFault};
use std::alloc::Allocator;
use swapper_kernel::Swapper;
use volume_root::{Root, read_root};

// The same root, of a volume in use.
fn in_use(root: Root) -> Root
    ensures root { result ≡ in_use root }
    ensures serial { root.serial < 2 ^ 32 }
    ensures counter { root.counter < 2 ^ 32 }
{
    Root {
        clean: false,
        ..root
    }
}

// How many data sectors are used, where so many are free.
fn used_of(layout: Layout, free: u32) -> u32
    requires first { layout.first ≤ layout.sectors }
    requires data { free ≤ layout.sectors - layout.first }
    ensures { result ≡ min ((layout.sectors - layout.first) - free) layout.capacity }
{
    let used = layout.sectors - layout.first - free;
    used.min(layout.capacity)
}

// The root of a volume that was closed, and where its parts are.
fn opened<D: Disk>(disk: &mut D) -> Result<(Root, Layout), RootFault>
    ensures valid { IfOk result (λ r. IsValidRoot (D.state disk.old).sectors r.0) }
    ensures laid { IfOk result (λ r. IsLayout r.1 × (r.1.sectors ≡ (D.state disk.old).sectors)) }
    ensures read { (d : List Sector) → (D.state disk.old).contents ≡ Some d
        → MatchResult result (λ r. (r.0 ≡ root_in (root_page d)) × IsAccepted d)
        (λ w. (w ≡ fault.Disk) ⊎ IsRefused d w) }
    ensures counted { IfErr result (λ w. w ≡ fault.Disk → Rose (D.state disk.old).faults (D.state disk.new).faults) }
    ensures reads { ReadsAtMost 1 (D.state disk.old) (D.state disk.new) }
{
    let root = match read_root(disk, true) {
        Ok(root) => root,
        Err(why) => return Err(why),
    };
    match Layout::of(root.sectors) {
        Ok(layout) => Ok((root, layout)),
        Err(why) => Err(why),
    }
}

// Writes the root of a volume in use, and waits until it is on the medium.
fn write_in_use<D: Disk, A: Allocator>(filer: &mut Filer<D, A>, root: Root) -> Result<(), Halt>
    requires size { FitsLayout (view_of filer.old) }
    requires valid { IsValidRoot (view_of filer.old).layout.sectors root }
    requires serial { root.serial < 2 ^ 32 }
    requires counter { root.counter < 2 ^ 32 }
    ensures made { MatchResult result
        (λ _.
        Goes (λ m n. n ≡ written (root_write root) m) no_page (root_write root ∷ []) (view_of filer.old).disk
        (view_of filer.old).slots (view_of filer.new).disk (view_of filer.old).slots)
        (λ _.
        MayHaveWritten (root_write root) (view_of filer.old).disk (view_of filer.old).slots (view_of filer.new).disk) }
    ensures fault { IfErr result (λ e. e ≡ halt.Disk) }
    ensures writes { IsWrittenOwn (view_of filer.old) (view_of filer.new) }
    ensures stays { FramesStay (view_of filer.old) (view_of filer.new) }
    ensures why { IfErr result (ShowsWhy (view_of filer.old) (view_of filer.new)) }
{
    match write_over(filer, root) {
        Ok(()) => (),
        Err(halt) => return Err(halt),
    }
    match sync_disk(filer) {
        Ok(()) => Ok(()),
        Err(halt) => Err(halt),
    }
}

// Puts a volume with this root into use: the root is on the medium with the clean flag 0, and the used sectors are counted.
fn put_in_use<D: Disk, A: Allocator>(
    filer: &mut Filer<D, A>,
    layout: Layout,
    root: Root,
) -> Result<Volume, Halt>
    requires same_layout { layout ≡ (view_of filer.old).layout }
    requires size { FitsLayout (view_of filer.old) }
    requires valid { IsValidRoot (view_of filer.old).layout.sectors root }
    requires fresh { IsBare (view_of filer.old).slots × ((n : ℕ) → runs_of n (view_of filer.old).runs ≡ []) }
    ensures started { (d : List Sector) → (view_of filer.old).disk.contents ≡ Some d → Sound d
        → root ≡ root_in (root_page d)
        → MatchResult result (IsStarted d (view_of filer.new)) (λ e. e ≡ halt.Disk) }
    ensures crash_states { (d : List Sector) → (view_of filer.old).disk.contents ≡ Some d → Sound d
        → root ≡ root_in (root_page d)
        → KeepsFiles (files_on d) (serial_of d) (counter_of d) (view_of filer.old).disk (view_of filer.new).disk }
    ensures volume { IfOk result (λ v. (v.layout ≡ layout) × (v.root ≡ in_use root)) }
    ensures in_use { IfOk result
        (λ _.
        (d e : List Sector) → (view_of filer.old).disk.contents ≡ Some d → root ≡ root_in (root_page d)
        → (view_of filer.new).disk.contents ≡ Some e → IsInUseAs d e) }
    ensures clean { IfOk result (λ _. AreClean (view_of filer.new).slots) }
    ensures writes { IsWrittenOwn (view_of filer.old) (view_of filer.new) }
    ensures why { IfErr result (ShowsWhy (view_of filer.old) (view_of filer.new)) }
    ensures layout { (view_of filer.new).layout ≡ (view_of filer.old).layout }
{
    let root = in_use(root);
    match write_in_use(filer, root) {
        Ok(()) => (),
        Err(halt) => return Err(halt),
    }
    match filer.free_count() {
        Ok(free) => Ok(Volume {
            layout,
            root,
            used: used_of(layout, free),
        }),
        Err(halt) => Err(halt),
    }
}

// The roots of both volumes, the first one's first, and where the parts of both are.
fn roots<D: Disk, E: Disk>(from: &mut D, to: &mut E) -> Result<(Layout, Layout, Root), PairStart>
    ensures laid { IfOk result (λ r. IsLaid (D.state from.old) r.0 × IsLaid (E.state to.old) r.1) }
    ensures valid { IfOk result (λ r. IsValidRoot (E.state to.old).sectors r.2) }
    ensures read { (d e : List Sector) → (D.state from.old).contents ≡ Some d → (E.state to.old).contents ≡ Some e
        → MatchResult result (λ r. (r.2 ≡ root_in (root_page e)) × IsAccepted d × IsAccepted e) (IsRightRefusal d e) }
    ensures root { (e : List Sector) → (E.state to.old).contents ≡ Some e
        → IfOk result (λ r. r.2 ≡ root_in (root_page e)) }
    ensures early { IfErr result IsEarly }
    ensures counted { IfErr result
        (IsCounted (D.state from.old) (E.state to.old) (D.state from.new) (E.state to.new)) }
    ensures from_reads { ReadsAtMost 1 (D.state from.old) (D.state from.new) }
    ensures to_reads { ReadsAtMost 1 (E.state to.old) (E.state to.new) }
{
    let first = match opened(from) {
        Ok((_, layout)) => layout,
        Err(why) => return Err(PairStart::From(why)),
    };
    match opened(to) {
        Ok((root, layout)) => Ok((first, layout, root)),
        Err(why) => Err(PairStart::To(why)),
    }
}

// Takes the memory of so many frames over a disk, which is handed back where there is none.
fn frames_over<D: Disk, A: Allocator>(
    alloc: A,
    disk: D,
    layout: Layout,
    frames: u32,
) -> Result<Filer<D, A>, D>
    requires layout { IsLayout layout }
    requires least { 24 ≤ frames }
    requires most { frames ≤ 4096 }
    ensures disk { MatchResult result (λ f. disk_of f ≡ disk) (λ d. d ≡ disk) }
    ensures layout { IfOk result (λ f. (view_of f).layout ≡ layout) }
    ensures bare { IfOk result (λ f. IsBare (view_of f).slots) }
    ensures no_runs { IfOk result (λ f. (n : ℕ) → runs_of n (view_of f).runs ≡ []) }
{
    match Swapper::over(alloc, disk, layout, frames) {
        Ok(swapper) => Ok(Filer::over(swapper)),
        Err((_, disk)) => Err(disk),
    }
}

impl<D: Disk, E: Disk, A: Allocator + Clone> Pair<D, E, A> {
    /// Starts on two volumes that were closed, with so many frames on each side, 24 to 4,096: all the memory that the pair
    /// ever has. The first volume's root is read first. The disks are handed back where no pair starts.
    pub fn over(alloc: A, from: D, to: E, frames: u32) -> Result<Pair<D, E, A>, (PairStart, D, E)>
        requires least { 24 ≤ frames }
        requires most { frames ≤ 4096 }
        ensures stands { (d e : List Sector) → (D.state from).contents ≡ Some d → (E.state to).contents ≡ Some e
            → Sound d → Sound e
            → MatchResult result (λ s. IsPaired (view_of s.from) (view_of s.to) s.volume (pair_of d e))
            (λ f. IsOutside f.0) }
        ensures in_use { IfOk result (λ s. IsInUse (view_of s.from) (view_of s.to) s.volume) }
        ensures running { IfOk result (λ s. s.running ≡ true) }
        ensures from { MatchResult result (λ s. ReadsAtMost 1 (D.state from) (view_of s.from).disk)
            (λ f. ReadsAtMost 1 (D.state from) (D.state f.1)) }
        ensures to { MatchResult result (λ s. StartMade (E.state to) (view_of s.to))
            (λ f. StartWrote f.0 (E.state to) (E.state f.2)) }
        ensures root { (d e : List Sector) → (D.state from).contents ≡ Some d → (E.state to).contents ≡ Some e
            → IfOk result (λ s. IsRootOf e s.volume.root) }
        ensures refused { (d e : List Sector) → (D.state from).contents ≡ Some d → (E.state to).contents ≡ Some e
            → MatchResult result (λ _. IsAccepted d × IsAccepted e) (λ f. IsRightRefusal d e f.0) }
        ensures counted { IfErr result
            (λ f. IsCounted (D.state from) (E.state to) (D.state f.1) (E.state f.2) f.0) }
    {
        let mut from = from;
        let mut to = to;
        let (first, layout, root) = match roots(&mut from, &mut to) {
            Ok(found) => found,
            Err(why) => return Err((why, from, to)),
        };
        let Ok(own) = alloc.clone() else {
            return Err((PairStart::NoMemory, from, to));
        };
        let from = match frames_over(own, from, first, frames) {
            Ok(filer) => filer,
            Err(from) => return Err((PairStart::NoMemory, from, to)),
        };
        let mut to = match frames_over(alloc, to, layout, frames) {
            Ok(filer) => filer,
            Err(to) => return Err((PairStart::NoMemory, from.into_disk(), to)),
        };
        match put_in_use(&mut to, layout, root) {
            Ok(volume) => Ok(Pair {
                from,
                to,
                volume,
                running: true,
            }),
            Err(halt) => Err((PairStart::Halt(halt), from.into_disk(), to.into_disk())),
        }
    }
}
