//! A session is started on a volume that was closed.
ghost use Rattle.std.specs.Prelude.{◌≡◌, ℕ, ◌+◌, ◌-◌, ◌*◌, ◌^◌, ◌<◌, ◌≤◌, min, true, List, [], ◌∷◌, ◌++◌, length, Some, IfOk, IfErr, OnOk, MatchResult};
ghost use Rattle.labelled_disk.specs.declared.evidence.Halt.TheVariants as halt;
ghost use Rattle.labelled_disk.specs.Calls.{ReadsAtMost, Rose};
ghost use Rattle.labelled_disk.specs.declared.disk.DiskWrite.{DiskWrite};
ghost use Rattle.file_map.specs.FileMap.{Triples, most_records};
ghost use Rattle.labelled_disk.specs.Root.{root_page};
ghost use Rattle.labelled_disk.specs.Sectors.{Sector};
ghost use Rattle.filer_kernel.specs.View.{FitsLayout, MakesOnly, TablesAre, view_of};
ghost use Rattle.flat_machine.specs.Start.{start};
ghost use Rattle.swapper_kernel.specs.Goes.{Goes, no_page};
ghost use Rattle.label_calls.specs.Labels.{MayHaveWritten};
ghost use Rattle.labelled_disk.specs.CrashState.{written};
ghost use Rattle.session_words.specs.Volume.{volume_page};
ghost use Rattle.volume_root.specs.RootPage.{IsValidRoot, root_in, root_write};
ghost use Rattle.volume_root.specs.Sound.{Sound};
ghost use Rattle.pilot_engine.specs.Opening.{root_alone, in_use, IsBare, StartsSome, SyncsFirst, IsDiskFault, IsEarly, IsUnset, LeavesOpen, IsBlank, KeepsNumbers, Refuses};
ghost use Rattle.running_words.specs.Running.{IsRunning};
ghost use Rattle.running_words.specs.Session.{IsOpen, IsSession};
ghost use Rattle.pilot_engine.specs.Beginning.{HasStartCause, StartHalts, TablesHalts};
ghost use Rattle.file_manager.specs.Reasons.{Keeps, KeepsOn, InitialState, ShowsReason, initial_state};
ghost use Rattle.pilot_engine.specs.Reasons.{IsBegun, SeesRoot, NeverBlamesFiles, AccountsBegun};
ghost use Rattle.file_manager.specs.Creating.{next_id};
ghost use Rattle.pilot_engine.specs.Outcomes.{FailsSo};
ghost use Rattle.file_manager.specs.Stays.{FramesStay};
ghost use Rattle.pilot_engine.specs.Starting.{AccountsAtStart, FailsAtStart, OnDisk, SpendsAtStart, StartsAs, StartsWith, WritesAtStart};

use crate::frames::look_at_frames;
use crate::{Session, StartFault};
use fault_core::Core;
use file_manager::{Volume, make_tables, write_over};
use filer_kernel::Filer;
use labelled_disk::{Disk, Halt, Layout, RootFault};
use std::alloc::Allocator;
use swapper_kernel::Swapper;
use volume_root::{Root, read_root};

// The same root, of a volume in use.
fn in_use(root: Root) -> Root
    ensures root { result ≡ in_use root }
    ensures serial { root.serial < 2 ^ 32 }
    ensures counter { root.counter < 2 ^ 32 }
{
    Root {
        clean: false,
        ..root
    }
}

// How many data sectors are used, where so many are free.
fn used_of(layout: Layout, free: u32) -> u32
    requires first { layout.first ≤ layout.sectors }
    requires data { free ≤ layout.sectors - layout.first }
    ensures { result ≡ min ((layout.sectors - layout.first) - free) layout.capacity }
{
    let used = layout.sectors - layout.first - free;
    used.min(layout.capacity)
}

// Writes the tables of the root alone into the pages of the space tables, which were made.
fn write_tables<D: Disk, A: Allocator>(filer: &mut Filer<D, A>) -> Result<(), Halt>
    requires size { FitsLayout (view_of filer.old) }
    ensures runs { (d : List Sector) (volume : Volume)
        → IsSession root_alone (view_of filer.old).disk (view_of filer.old).slots (view_of filer.old).layout
        (view_of filer.old).runs volume (start d)
        → OnOk result (IsRunning (view_of filer.new) [] 1 volume (start d)) }
    ensures sound { (d : List Sector) (volume : Volume)
        → IsSession root_alone (view_of filer.old).disk (view_of filer.old).slots (view_of filer.old).layout
        (view_of filer.old).runs volume (start d)
        → IfErr result (λ e. e ≡ halt.Disk) }
    ensures makes { MakesOnly volume_page [] (view_of filer.old) (view_of filer.new) }
    ensures fails { FailsSo TablesHalts (view_of filer.old) (view_of filer.new) result }
    ensures keeps_to { (o : InitialState) → KeepsOn o filer.old → OnOk result (KeepsOn o filer.new) }
    ensures reasons { (o : InitialState) → KeepsOn o filer.old
        → IfErr result (ShowsReason o (view_of filer.old).layout (view_of filer.new).disk) }
    ensures sees { (b : List ℕ) → TablesAre (view_of filer.old) b
        → MatchResult result (λ _. SeesRoot (view_of filer.new)) NeverBlamesFiles }
    ensures layout { (view_of filer.new).layout ≡ (view_of filer.old).layout }
    ensures cost { (view_of filer.new).disk.transfers ≤ (view_of filer.old).disk.transfers + 14392 }
{
    match table_calls::begin(filer) {
        Ok(()) => (),
        Err(halt) => return Err(halt),
    }
    look_at_frames(filer);
    Ok(())
}

// Writes the root of a volume in use, and waits until it is on the medium: no other write is there before it.
fn put_in_use<D: Disk, A: Allocator>(filer: &mut Filer<D, A>, root: Root) -> Result<(), Halt>
    requires size { FitsLayout (view_of filer.old) }
    requires valid { IsValidRoot (view_of filer.old).layout.sectors root }
    requires serial { root.serial < 2 ^ 32 }
    requires counter { root.counter < 2 ^ 32 }
    requires bare { IsBare (view_of filer.old).slots }
    ensures writes { MatchResult result
        (λ _.
        Goes (λ m n. n ≡ written (root_write root) m) no_page (root_write root ∷ []) (view_of filer.old).disk
        (view_of filer.old).slots (view_of filer.new).disk (view_of filer.old).slots)
        (λ _.
        MayHaveWritten (root_write root) (view_of filer.old).disk (view_of filer.old).slots (view_of filer.new).disk) }
    ensures synced { OnOk result (SyncsFirst (view_of filer.old).disk (view_of filer.new).disk) }
    ensures fault { IfErr result
        (λ e. (e ≡ halt.Disk) × Rose (view_of filer.old).disk.faults (view_of filer.new).disk.faults) }
    ensures keeps_to { (o : InitialState) (named : Triples) → Keeps o filer.old named → next_id root ≤ o.next
        → OnOk result (Keeps o filer.new named) }
    ensures stays { FramesStay (view_of filer.old) (view_of filer.new) }
    ensures cost { (view_of filer.new).disk.transfers ≤ (view_of filer.old).disk.transfers + 1 }
{
    match write_over(filer, root) {
        Ok(()) => (),
        Err(halt) => return Err(halt),
    }
    let disk = filer.disk_over();
    match disk.sync() {
        Ok(()) => Ok(()),
        Err(_) => Err(Halt::Disk),
    }
}

/// Puts a volume with this root into use: the root is written with the clean flag 0, and is on the medium before all else; the
/// pages of the space tables are made, and the tables of the root alone are written into them. No frame is there yet.
pub(crate) fn begin<D: Disk, A: Allocator>(
    filer: &mut Filer<D, A>,
    layout: Layout,
    root: Root,
) -> Result<Volume, Halt>
    requires blank { IsBlank filer.old layout }
    requires valid { IsValidRoot (view_of filer.old).layout.sectors root }
    ensures begun { (d : List Sector) → (view_of filer.old).disk.contents ≡ Some d → Sound d
        → root ≡ root_in (root_page d)
        → MatchResult result (λ volume. IsRunning (view_of filer.new) [] 1 volume (start d)) (λ e. e ≡ halt.Disk) }
    ensures opened { IfOk result (IsOpen (view_of filer.new).layout) }
    ensures starts { StartsSome root (view_of filer.old).disk (view_of filer.old).slots (view_of filer.new).disk
        (view_of filer.new).slots }
    ensures synced { IfOk result (λ volume. SyncsFirst (view_of filer.old).disk (view_of filer.new).disk) }
    ensures fails { FailsSo (StartHalts root) (view_of filer.old) (view_of filer.new) result }
    ensures accounts { (d : List Sector) (named : Triples) (ws : List DiskWrite)
        → IsBegun d named ws (view_of filer.old).disk
        → AccountsBegun (initial_state d named (ws ++ (root_write (in_use root) ∷ []))) filer.old filer.new result }
    ensures left_open { MatchResult result (λ volume. IsUnset (view_of filer.new).disk)
        (LeavesOpen (view_of filer.new).disk) }
    ensures numbers { KeepsNumbers root result }
    ensures layout { (view_of filer.new).layout ≡ (view_of filer.old).layout }
    ensures cost { (view_of filer.new).disk.transfers ≤ (view_of filer.old).disk.transfers
        + (14393 + 2 * (view_of filer.old).layout.vam + 2 * (1 + 51 * most_records (view_of filer.old).layout.sectors)
        + 96 * (8 * (view_of filer.old).layout.vam + 100)) }
{
    let root = in_use(root);
    match put_in_use(filer, root) {
        Ok(()) => (),
        Err(halt) => return Err(halt),
    }
    let free = match filer.free_count() {
        Ok(free) => free,
        Err(halt) => return Err(halt),
    };
    match make_tables(filer) {
        Ok(()) => (),
        Err(halt) => return Err(halt),
    }
    match write_tables(filer) {
        Ok(()) => (),
        Err(halt) => return Err(halt),
    }
    Ok(Volume {
        layout,
        root,
        used: used_of(layout, free),
    })
}

// Reads the root of a volume that was closed, and takes the memory of so many frames over its disk.
fn frames_over<D: Disk, A: Allocator>(
    alloc: A,
    disk: D,
    frames: u32,
) -> Result<(Filer<D, A>, Layout, Root), (StartFault, D)>
    requires least { 24 ≤ frames }
    requires most { frames ≤ 4096 }
    ensures blank { IfOk result (λ r. IsBlank r.0 r.1) }
    ensures valid { IfOk result (λ r. IsValidRoot (view_of r.0).layout.sectors r.2) }
    ensures frames { IfOk result (λ r. length (view_of r.0).slots ≡ frames) }
    ensures read { (d : List Sector) → (D.state disk).contents ≡ Some d
        → IfOk result (λ r. r.2 ≡ root_in (root_page d)) }
    ensures refuses { Refuses (D.state disk) result }
    ensures early { IfErr result (λ e. IsEarly e.0) }
    ensures counted { IfErr result (λ e. IsDiskFault e.0 → Rose (D.state disk).faults (D.state e.1).faults) }
    ensures reads { MatchResult result (λ r. ReadsAtMost 1 (D.state disk) (view_of r.0).disk)
        (λ e. ReadsAtMost 1 (D.state disk) (D.state e.1)) }
{
    let mut disk = disk;
    let root = match read_root(&mut disk, true) {
        Ok(root) => root,
        Err(why) => return Err((StartFault::Root(why), disk)),
    };
    let layout = match Layout::of(root.sectors) {
        Ok(layout) => layout,
        Err(why) => return Err((StartFault::Root(why), disk)),
    };
    match Swapper::over(alloc, disk, layout, frames) {
        Ok(swapper) => Ok((Filer::over(swapper), layout, root)),
        Err((_, disk)) => Err((StartFault::NoMemory, disk)),
    }
}

impl<D: Disk, A: Allocator> Session<D, A> {
    /// Starts a session on the volume of a disk, which was closed, with 24 to 4,096 frames. This takes all the memory that they
    /// ever have. The disk is handed back where no session starts.
    pub fn over(alloc: A, disk: D, frames: u32) -> Result<Session<D, A>, (StartFault, D)>
        requires least { 24 ≤ frames }
        requires most { frames ≤ 4096 }
        ensures machine { (d : List Sector) → (D.state disk).contents ≡ Some d → Sound d → StartsAs (start d) result }
        ensures session { StartsWith frames result }

        // No session starts.
        ensures refuses { Refuses (D.state disk) result }
        ensures fails { FailsAtStart HasStartCause (D.state disk) result }

        // Whether or not one starts.
        ensures accounts { (d : List Sector) (named : Triples) (ws : List DiskWrite) → IsBegun d named ws (D.state disk)
            → AccountsAtStart d named ws result }
        ensures writes { WritesAtStart (D.state disk) result }
        ensures spends { OnDisk (SpendsAtStart (D.state disk)) result }
    {
        let (mut filer, layout, root) = match frames_over(alloc, disk, frames) {
            Ok(opened) => opened,
            Err(fault) => return Err(fault),
        };
        match begin(&mut filer, layout, root) {
            Ok(volume) => Ok(Session {
                core: Core::over(filer, 1),
                volume,
                running: true,
            }),
            Err(halt) => Err((StartFault::Halt(halt), filer.into_disk())),
        }
    }
}
