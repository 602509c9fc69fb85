//! A volume is restored, and what was found is revealed.
ghost use Rattle.std.specs.Prelude.{◌≡◌, ◌⊎◌, ◌++◌, ℕ, List, [], Some, Err, true, false, length, slice_get, IfOk, OnOk};
ghost use Rattle.cut_words.specs.Between.{EachCutFromFirstSync};
ghost use Rattle.labelled_disk.specs.Calls.{OnlyReads, Rose, RevealsSame};
ghost use Rattle.labelled_disk.specs.Layout.{IsCount};
ghost use Rattle.labelled_disk.specs.CrashState.{crash_state};
ghost use Rattle.labelled_disk.specs.Sectors.{Sector};
ghost use Rattle.labelled_disk.specs.WriteRuns.{Appended};
ghost use Rattle.volume_root.specs.Format.{PartMade};
ghost use Rattle.volume_root.specs.RootPage.{judged};
ghost use Rattle.scavenger.specs.Opening.{Accords};
ghost use Rattle.scavenger.specs.Orders.{Orders, AreFor, scavenge_writes};
ghost use Rattle.scavenger.specs.Reported.{lost_in, Reports};
ghost use Rattle.scavenger.specs.Restored.{IsBetween, IsRestored, Survives};
ghost use Rattle.pilot_top.specs.Last.{last_line, Puts};
ghost use Rattle.pilot_top.specs.Scavenging.{FailsToRestore, IsNoVolume, RestoresVolume, PutsReport};
ghost use Rattle.pilot_top.specs.Started.{Refuses};

use crate::Status;
use crate::last::{Cause, put_last};
use crate::reporting::put_report;
use labelled_disk::{Disk, DiskWrite, RootFault};
use scavenger::{Report, ScavengeFault, scavenge};
use std::alloc::Allocator;
use trace_io::Sink;
use volume_root::read_root;

// Whether there is a root, be the volume closed or not.
fn look_at_root<D: Disk>(disk: &mut D) -> Result<(), ScavengeFault>
    ensures count { ¬ IsCount (D.state disk.old).sectors
        → result ≡ Err (ScavengeFault.Root (RootFault.BadCount (D.state disk.old).sectors)) }
    ensures judged { IsCount (D.state disk.old).sectors → (g : List Sector)
        → (D.state disk.old).contents ≡ Some g → (s : Sector) → slice_get g 0 ≡ Some s
        → Accords result (judged false (length g) s) }
    ensures only_reads { OnlyReads (D.state disk.old) (D.state disk.new) }
    ensures cause { result ≡ Err ScavengeFault.Disk
        → Rose (D.state disk.old).faults (D.state disk.new).faults }
{
    match read_root(disk, false) {
        Ok(_) => Ok(()),
        Err(why) => match why {
            RootFault::Disk => Err(ScavengeFault::Disk),
            _ => Err(ScavengeFault::Root(why)),
        },
    }
}

// An empty report, with room for so many lost sectors.
fn empty_report<A: Allocator + Clone>(alloc: &A, sectors: u32) -> Result<Report<A>, ScavengeFault>
    ensures empty { IfOk result (λ report. lost_in report ≡ []) }
    ensures memory { (why : ScavengeFault) → result ≡ Err why → why ≡ ScavengeFault.NoMemory }
{
    let Ok(own) = alloc.clone() else {
        return Err(ScavengeFault::NoMemory);
    };
    let Ok(report) = Report::with_room(own, sectors) else {
        return Err(ScavengeFault::NoMemory);
    };
    Ok(report)
}

// Restores the volume of a disk, and gives what was found.
fn restored<A: Allocator + Clone, D: Disk>(
    alloc: A,
    disk: &mut D,
) -> Result<Report<A>, ScavengeFault>
    ensures restored { OnOk result ((g : List Sector) → (D.state disk.old).contents ≡ Some g
        → (h : List Sector) × ((D.state disk.new).contents ≡ Some h) × IsRestored g h) }
    ensures reports { IfOk result (λ report. (g : List Sector) → (D.state disk.old).contents ≡ Some g
        → Reports g report) }
    ensures synced { OnOk result ((D.state disk.new).synced ≡ true) }

    // The writes: all of them, or where the disk failed none or some first ones.
    ensures made { OnOk result ((g : List Sector) → (D.state disk.old).contents ≡ Some g
        → (o : Orders) × AreFor g o
        × Appended (scavenge_writes o) (D.state disk.old) (D.state disk.new)) }
    ensures part { result ≡ Err ScavengeFault.Disk
        → (g : List Sector) → (D.state disk.old).contents ≡ Some g
        → RevealsSame (D.state disk.old) (D.state disk.new) ⊎ ((o : Orders) × AreFor g o
        × PartMade (scavenge_writes o) (D.state disk.old) (D.state disk.new)) }
    ensures crash_states { (g : List Sector) (before writes : List DiskWrite)
        → (D.state disk.old).contents ≡ Some g → (D.state disk.old).writes ≡ Some before
        → (D.state disk.new).writes ≡ Some (before ++ writes)
        → (k : ℕ) → IsBetween g (crash_state g writes k) }
    ensures cuts { EachCutFromFirstSync Survives (D.state disk.old) (D.state disk.new) }

    // The disk has no volume that can be restored.
    ensures count { ¬ IsCount (D.state disk.old).sectors
        → result ≡ Err (ScavengeFault.Root (RootFault.BadCount (D.state disk.old).sectors)) }
    ensures refusal { (why : RootFault) → result ≡ Err (ScavengeFault.Root why)
        → (g : List Sector) → (D.state disk.old).contents ≡ Some g → IsNoVolume g why }
    ensures refused { (g : List Sector) (why : RootFault) → (D.state disk.old).contents ≡ Some g
        → IsNoVolume g why
        → (result ≡ Err (ScavengeFault.Root why)) ⊎ (result ≡ Err ScavengeFault.Disk) }
    ensures refused_unwritten { (g : List Sector) (why : RootFault)
        → (D.state disk.old).contents ≡ Some g → IsNoVolume g why
        → OnlyReads (D.state disk.old) (D.state disk.new) }

    ensures fails { FailsToRestore result (D.state disk.old) (D.state disk.new) }
{
    look_at_root(disk)?;
    let mut report = empty_report(&alloc, disk.sectors())?;
    scavenge(alloc, disk, &mut report)?;
    Ok(report)
}

/// Restores the volume of a disk, and writes what was found. A root that is refused comes before
/// running out of memory.
pub(crate) fn restore_volume<A: Allocator + Clone, D: Disk, K: Sink>(
    alloc: A,
    disk: &mut D,
    sink: &mut K,
) -> Status
    ensures ends { (result ≡ Status.Done) ⊎ (result ≡ Status.StreamFault)
        ⊎ (result ≡ Status.DiskFault) ⊎ (result ≡ Status.NotOpened) ⊎ (result ≡ Status.NoMemory) }

    // What is restored, and revealed.
    ensures restores { RestoresVolume result (D.state disk.old) (D.state disk.new) }
    ensures puts { PutsReport result (D.state disk.old).contents (K.took sink.old) (K.took sink.new) }

    // The disk has no volume that can be restored. Nothing is touched where there is no memory.
    ensures refuses { Refuses IsNoVolume result (D.state disk.old) (D.state disk.new)
        (Puts (Rose (K.faults sink.old) (K.faults sink.new)) (K.took sink.old) (K.took sink.new)) }
    ensures keeps_sink { result ≡ Status.NoMemory → sink.new ≡ sink.old }

    // The disk failed, or the sink.
    ensures disk_cause { result ≡ Status.DiskFault
        → Rose (D.state disk.old).faults (D.state disk.new).faults }
    ensures disk_line { result ≡ Status.DiskFault
        → Puts (Rose (K.faults sink.old) (K.faults sink.new)) (K.took sink.old) (K.took sink.new)
        (last_line Cause.DiskFault) }
    ensures stream_cause { result ≡ Status.StreamFault
        → Rose (K.faults sink.old) (K.faults sink.new) }
{
    match restored(alloc, disk) {
        Ok(report) => match put_report(sink, &report) {
            Ok(()) => Status::Done,
            Err(_) => Status::StreamFault,
        },
        Err(why) => match why {
            ScavengeFault::Root(why) => {
                put_last(sink, Cause::Root(why));
                Status::NotOpened
            }
            ScavengeFault::Disk => {
                put_last(sink, Cause::DiskFault);
                Status::DiskFault
            }
            ScavengeFault::NoMemory => Status::NoMemory,
        },
    }
}
