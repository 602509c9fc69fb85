//! A volume is restored from its labels.
ghost use Rattle.std.specs.Prelude.{◌≡◌, ◌⊎◌, ℕ, ◌-◌, ◌≤◌, List, [], ◌++◌, Some, Err, true, false, length, slice_get, IfOk, IfErr, OnOk};
ghost use Rattle.cut_words.specs.Between.{EachCutFromFirstSync};
ghost use Rattle.labelled_disk.specs.Calls.{OnlyReads, ReadsAtMost, Rose, RevealsSame};
ghost use Rattle.labelled_disk.specs.Layout.{IsCount, layout_of, first_data};
ghost use Rattle.labelled_disk.specs.CrashState.{crash_state};
ghost use Rattle.labelled_disk.specs.Root.{root_page};
ghost use Rattle.labelled_disk.specs.Sectors.{Sector};
ghost use Rattle.labelled_disk.specs.WriteRuns.{Appended};
ghost use Rattle.volume_root.specs.Format.{PartMade};
ghost use Rattle.volume_root.specs.Later.{IsLater};
ghost use Rattle.volume_root.specs.RootPage.{root_in, IsValidRoot};
ghost use Rattle.scavenger.specs.Opening.{IsDiskOrMemory, JudgesRoot};
ghost use Rattle.scavenger.specs.Carries.{Carries, MakesWithBarriers};
ghost use Rattle.scavenger.specs.Plan.{orders, IsSized};
ghost use Rattle.scavenger.specs.Orders.{Orders, AreFor, scavenge_writes};
ghost use Rattle.scavenger.specs.Reported.{lost_in, Reports};
ghost use Rattle.scavenger.specs.Restored.{IsBetween, IsRestored, Survives};
ghost use Rattle.scavenger.specs.Stays.{HasLabels};

use crate::laws::scavenging_restores;
use crate::opening::read_any_root;
use crate::plan::Plan;
use crate::{Report, ScavengeFault};
use label_survey::{Survey, SurveyFault, read_labels, survey_labels};
use labelled_disk::{Disk, DiskWrite, Label, Layout, NoMemory};
use std::alloc::Allocator;
use volume_root::{Root, RootFault};

// The plan for a volume with this root and these labels; the report is made with it.
fn plan_of<A: Allocator + Clone>(
    alloc: A,
    layout: &Layout,
    root: &Root,
    labels: Vec<Label, A>,
    report: &mut Report<A>,
) -> Result<Plan<A>, NoMemory>
    requires counted { IsCount layout.now.sectors }
    requires layout { layout.now ≡ layout_of layout.now.sectors }
    requires all { length labels.items ≡ layout.now.sectors - first_data layout.now.sectors }
    requires empty { lost_in report.old ≡ [] }
    ensures sized { IfOk result (IsSized layout.now.sectors) }
    ensures counter { IfOk result (λ plan. root.now.counter ≤ plan.counter) }
    ensures plan { IfOk result (λ plan. (g : List Sector)
        → HasLabels g layout.now.sectors labels.items → root.now ≡ root_in (root_page g)
        → AreFor g (orders root.now layout.now.first plan)) }
    ensures report { OnOk result ((g : List Sector)
        → HasLabels g layout.now.sectors labels.items → Reports g report.new) }
{
    let survey = survey_labels(alloc.clone()?, layout.first, &labels)?;
    report.fill(layout.first, &labels, &survey)?;
    let Survey { sector_states, .. } = survey;
    Plan::of(alloc, layout, root, labels, sector_states)
}

// Reads all labels, and plans.
fn make_plan<A: Allocator + Clone, D: Disk>(
    alloc: A,
    disk: &mut D,
    layout: &Layout,
    root: &Root,
    report: &mut Report<A>,
) -> Result<Plan<A>, ScavengeFault>
    requires counted { IsCount (D.state disk.old).sectors }
    requires layout { layout.now ≡ layout_of (D.state disk.old).sectors }
    requires empty { lost_in report.old ≡ [] }
    ensures sized { IfOk result (IsSized (D.state disk.old).sectors) }
    ensures counter { IfOk result (λ plan. root.now.counter ≤ plan.counter) }
    ensures plan { IfOk result (λ plan. (g : List Sector) → (D.state disk.old).contents ≡ Some g
        → root.now ≡ root_in (root_page g) → AreFor g (orders root.now layout.now.first plan)) }
    ensures report { OnOk result ((g : List Sector) → (D.state disk.old).contents ≡ Some g
        → Reports g report.new) }
    ensures err { IfErr result IsDiskOrMemory }
    ensures cause { result ≡ Err ScavengeFault.Disk
        → Rose (D.state disk.old).faults (D.state disk.new).faults }
    ensures cost { ReadsAtMost ((D.state disk.old).sectors - first_data (D.state disk.old).sectors)
        (D.state disk.old) (D.state disk.new) }
{
    let Ok(own) = alloc.clone() else {
        return Err(ScavengeFault::NoMemory);
    };
    let labels = match read_labels(own, disk, layout) {
        Ok(labels) => labels,
        Err(SurveyFault::Disk) => return Err(ScavengeFault::Disk),
        Err(SurveyFault::NoMemory) => return Err(ScavengeFault::NoMemory),
    };
    match plan_of(alloc, layout, root, labels, report) {
        Ok(plan) => Ok(plan),
        Err(_) => Err(ScavengeFault::NoMemory),
    }
}

// Carries a plan out.
fn finish<A: Allocator + Clone, D: Disk>(
    plan: Plan<A>,
    disk: &mut D,
    layout: &Layout,
    root: &Root,
) -> Result<(), ScavengeFault>
    requires layout { layout.now ≡ layout_of (D.state disk.old).sectors }
    requires root { IsValidRoot (D.state disk.old).sectors root.now }
    requires sized { IsSized (D.state disk.old).sectors plan }
    requires counter { root.now.counter ≤ plan.counter }
    ensures carries { Carries (scavenge_writes (orders root.now layout.now.first plan))
        (D.state disk.old) result (D.state disk.new) }
    ensures synced { OnOk result ((D.state disk.new).synced ≡ true) }
    ensures barriers { MakesWithBarriers (scavenge_writes (orders root.now layout.now.first plan))
        (D.state disk.old) result (D.state disk.new) }
    ensures err { IfErr result (λ why. why ≡ ScavengeFault.Disk) }
{
    match plan.restore(disk, layout, root) {
        Ok(()) => Ok(()),
        Err(_) => Err(ScavengeFault::Disk),
    }
}

/// Restores a volume from its labels, whatever stands in its maps, and reveals in an empty report
/// what was found. The permanent files stay as they are; each other data sector is freed.
///
/// All labels are read, and both maps are made in memory, before the first write. Then the root is
/// written with the new counter and the clean flag 0, whatever it was; once that is on the medium,
/// each freed sector, ascending, gets a free label, and each sector of both maps its label and its new
/// page; and once all of these are, the root comes last, clean.
///
/// On a volume of 65,536 sectors this takes some 7 MB at most, and 105 bytes for each sector of a
/// larger one, all given back at the end.
pub fn scavenge<A: Allocator + Clone, D: Disk>(
    alloc: A,
    disk: &mut D,
    report: &mut Report<A>,
) -> Result<(), ScavengeFault>
    requires empty { lost_in report.old ≡ [] }

    // What is restored, and what is revealed of it.
    ensures restored { OnOk result ((g : List Sector) → (D.state disk.old).contents ≡ Some g
        → (h : List Sector) × ((D.state disk.new).contents ≡ Some h) × IsRestored g h) }
    ensures report { OnOk result ((g : List Sector) → (D.state disk.old).contents ≡ Some g
        → Reports g report.new) }
    ensures synced { OnOk result ((D.state disk.new).synced ≡ true) }

    // The writes: all of them, or where the disk failed none or some first ones.
    ensures made { OnOk result ((g : List Sector) → (D.state disk.old).contents ≡ Some g
        → (o : Orders) × AreFor g o
        × Appended (scavenge_writes o) (D.state disk.old) (D.state disk.new)) }
    ensures part { result ≡ Err ScavengeFault.Disk
        → (g : List Sector) → (D.state disk.old).contents ≡ Some g
        → RevealsSame (D.state disk.old) (D.state disk.new) ⊎ ((o : Orders) × AreFor g o
        × PartMade (scavenge_writes o) (D.state disk.old) (D.state disk.new)) }

    // What stands in each crash state of its writes, whatever it answers.
    ensures crash_states { (g : List Sector) (before writes : List DiskWrite)
        → (D.state disk.old).contents ≡ Some g → (D.state disk.old).writes ≡ Some before
        → (D.state disk.new).writes ≡ Some (before ++ writes)
        → (k : ℕ) → IsBetween g (crash_state g writes k) }

    // What stands where the power went, once its first write is on the medium.
    ensures cuts { EachCutFromFirstSync Survives (D.state disk.old) (D.state disk.new) }

    // The root that was read is refused.
    ensures root { JudgesRoot (D.state disk.old) result }
    ensures unwritten { ((why : RootFault) → result ≡ Err (ScavengeFault.Root why)
        → OnlyReads (D.state disk.old) (D.state disk.new))
        × (result ≡ Err ScavengeFault.NoMemory → OnlyReads (D.state disk.old) (D.state disk.new)) }
    ensures cause { result ≡ Err ScavengeFault.Disk
        → Rose (D.state disk.old).faults (D.state disk.new).faults }
    ensures later { IsLater (D.state disk.old) (D.state disk.new) }
{
    scavenging_restores();
    let root = read_any_root(disk)?;
    let Ok(layout) = Layout::of(root.sectors) else {
        unreachable!();
    };
    let plan = make_plan(alloc, disk, &layout, &root, report)?;
    finish(plan, disk, &layout, &root)
}
