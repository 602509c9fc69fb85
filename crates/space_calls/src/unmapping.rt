//! Windows that are taken away, or get another mode.
ghost use Rattle.std.specs.Prelude.{◌≡◌, ◌≤◌, ◌+◌, ◌^◌, true, List, Some, None, IfOk, OnOk, MatchResult};
ghost use Rattle.labelled_disk.specs.declared.evidence.Halt.TheVariants as halt;
ghost use Rattle.flat_machine.specs.declared.call.Call.TheVariants as call;
ghost use Rattle.flat_machine.specs.declared.space.Space.{Space};
ghost use Rattle.flat_machine.specs.Machine.{Machine};
ghost use Rattle.flat_machine.specs.Refusal.{refusal};
ghost use Rattle.session_words.specs.Volume.{volume_page};
ghost use Rattle.file_manager.specs.declared.volume.Volume.{Volume};
ghost use Rattle.running_words.specs.Bound.{CostsOther};
ghost use Rattle.running_words.specs.Running.{Carried, Runs};
ghost use Rattle.std.specs.Prelude.{[], false};
ghost use Rattle.flat_machine.specs.Space.{space_at};
ghost use Rattle.space_tables.specs.Shows.{window_of, IsShownAt};
ghost use Rattle.table_calls.specs.Answers.{IfGiven, TablesSay};
ghost use Rattle.flat_machine.specs.declared.call.Reply.TheVariants as reply;
ghost use Rattle.space_calls.specs.Halts.{ProtectHalts, TakeWindowHalts, WritableHalts};
ghost use Rattle.space_calls.specs.Unmapping.{IsGivenUp, Reshapes, ShowsIn};
ghost use Rattle.fault_core.specs.Core.{state, kept};
ghost use Rattle.fault_core.specs.Reach.{ReachHalts};
ghost use Rattle.space_calls.specs.Ranges.{BreaksPart};
ghost use Rattle.space_calls.specs.Sees.{SeesFiles, IsShown, StillOn};
ghost use Rattle.fault_core.specs.Lack.{Sees};
ghost use Rattle.filer_kernel.specs.View.{FitsLayout, MakesOnly};
ghost use Rattle.space_calls.specs.Calls.{Answers, TakesWindow};
ghost use Rattle.space_calls.specs.Outcomes.{HaltsBy, MakesOwn, MovesOwn};

use crate::syncing::sync;
use crate::windows::{change_window, evict_range, find_window, flush_range, shows_immutable};
use fault_core::Core;
use flat_machine::{Refusal, Reply};
use labelled_disk::{Disk, Halt};
use space_tables::Shown;
use std::alloc::Allocator;

/// Takes the window of a space away, and gives what it showed. What was stored through it is on the medium. The file stays.
pub fn take_window<D: Disk, A: Allocator>(
    core: &mut Core<D, A>,
    space: u32,
) -> Result<Result<Shown, Refusal>, Halt>
    requires size { FitsLayout (state core.old) }
    ensures takes { (volume : Volume) (m : Machine) → Runs core.old volume m
        → TakesWindow m space core.new volume result }
    ensures read { IfOk result (IfGiven (TablesSay (state core.old) (λ b. IsShownAt b space))) }
    ensures seen { (ss : List Space) → Sees (state core.old) (kept core.old) core.old.intervals ss
        → IfOk result (IfGiven (ShowsIn ss space)) }
    ensures fails { HaltsBy (TakeWindowHalts space core.old.intervals (state core.old) (state core.new))
        core.old core.new result }
    ensures sees { OnOk result (StillOn core.old core.new) }
    ensures reshapes { Reshapes (state core.old) (state core.new) }
    ensures makes { MakesOnly volume_page [] (state core.old) (state core.new) }
    ensures synced { IfOk result (IsGivenUp ((state core.new).disk.synced ≡ true)) }
    ensures cost { (state core.new).disk.transfers ≤ (state core.old).disk.transfers + 2 ^ 23 }
{
    let (shown, first, pages) = match find_window(core, space) {
        Ok(Ok(found)) => found,
        Ok(Err(word)) => return Ok(Err(word)),
        Err(halt) => return Err(halt),
    };
    match evict_range(core, first, pages) {
        Ok(()) => (),
        Err(halt) => return Err(halt),
    }
    match change_window(core, space, None) {
        Ok(Ok(())) => (),
        Ok(Err(word)) => return Ok(Err(word)),
        Err(halt) => return Err(halt),
    }
    match sync(core) {
        Ok(()) => Ok(Ok(shown)),
        Err(halt) => Err(halt),
    }
}

// Lets stores through the window of a space, which shows this, unless its file is immutable.
fn protect_writable<D: Disk, A: Allocator>(
    core: &mut Core<D, A>,
    space: u32,
    shown: Shown,
) -> Result<Reply, Halt>
    requires size { FitsLayout (state core.old) }
    ensures carried { (volume : Volume) (m : Machine) (s : Space) → Runs core.old volume m
        → space_at m.spaces space ≡ Some s → s.window ≡ Some (window_of shown)
        → MatchResult result (Carried m (call.Protect space true) core.new volume) (λ e. e ≡ halt.Disk) }
    ensures fails { HaltsBy (WritableHalts shown.id core.old.intervals (state core.old) (state core.new))
        core.old core.new result }
    ensures went { MakesOwn (state core.old) (state core.new) }
    ensures sees { (ss : List Space) (s : Space) → Sees (state core.old) (kept core.old) core.old.intervals ss
        → space_at ss space ≡ Some s → s.window ≡ Some (window_of shown)
        → OnOk result (SeesFiles (IsShown ss) core.new) }
    ensures cost { (state core.new).disk.transfers ≤ (state core.old).disk.transfers + 57373 }
{
    match shows_immutable(core, shown.id) {
        Ok(true) => return Ok(Reply::Refused(Refusal::Immutable)),
        Ok(false) => (),
        Err(halt) => return Err(halt),
    }
    let shown = Shown {
        writable: true,
        ..shown
    };
    match change_window(core, space, Some(shown)) {
        Ok(Ok(())) => Ok(Reply::Done),
        Ok(Err(word)) => Ok(Reply::Refused(word)),
        Err(halt) => Err(halt),
    }
}

// Lets no store through the window of a space, which shows this in these pages. What was stored is on the medium.
fn protect_read_only<D: Disk, A: Allocator>(
    core: &mut Core<D, A>,
    space: u32,
    shown: Shown,
    first: u32,
    pages: u32,
) -> Result<Reply, Halt>
    requires size { FitsLayout (state core.old) }
    ensures carried { (volume : Volume) (m : Machine) (s : Space) → Runs core.old volume m
        → space_at m.spaces space ≡ Some s → s.window ≡ Some (window_of shown) → first ≡ s.first → pages ≡ s.pages
        → MatchResult result (Carried m (call.Protect space false) core.new volume) (λ e. e ≡ halt.Disk) }
    ensures synced { (volume : Volume) (m : Machine) (s : Space) → Runs core.old volume m
        → space_at m.spaces space ≡ Some s → s.window ≡ Some (window_of shown) → first ≡ s.first → pages ≡ s.pages
        → OnOk result ((state core.new).disk.synced ≡ true) }
    ensures settled { IfOk result (λ answer. answer ≡ reply.Done → (state core.new).disk.synced ≡ true) }
    ensures fails { HaltsBy
        (ReachHalts (BreaksPart (state core.old) core.old.intervals first (first + pages)) (state core.old)
        (state core.new))
        core.old core.new result }
    ensures went { MakesOwn (state core.old) (state core.new) }
    ensures sees { (ss : List Space) (s : Space) → Sees (state core.old) (kept core.old) core.old.intervals ss
        → space_at ss space ≡ Some s → s.window ≡ Some (window_of shown)
        → OnOk result (SeesFiles (IsShown ss) core.new) }
    ensures cost { (state core.new).disk.transfers ≤ (state core.old).disk.transfers + 4452352 }
{
    match flush_range(core, first, pages) {
        Ok(()) => (),
        Err(halt) => return Err(halt),
    }
    let shown = Shown {
        writable: false,
        ..shown
    };
    match change_window(core, space, Some(shown)) {
        Ok(Ok(())) => (),
        Ok(Err(word)) => return Ok(Reply::Refused(word)),
        Err(halt) => return Err(halt),
    }
    match sync(core) {
        Ok(()) => Ok(Reply::Done),
        Err(halt) => Err(halt),
    }
}

/// Makes the window of a space writable or read-only. What was stored through one that gets read-only is on the medium.
pub fn protect<D: Disk, A: Allocator>(
    core: &mut Core<D, A>,
    space: u32,
    writable: bool,
) -> Result<Reply, Halt>
    requires size { FitsLayout (state core.old) }
    ensures answers { (volume : Volume) (m : Machine) → Runs core.old volume m
        → Answers m (call.Protect space writable) core.old core.new volume result }
    ensures fails { HaltsBy (ProtectHalts space writable core.old.intervals (state core.old) (state core.new))
        core.old core.new result }
    ensures went { MovesOwn (state core.old) (state core.new) }
    ensures sees { OnOk result (StillOn core.old core.new) }
    ensures cost { CostsOther (state core.old).disk (state core.new).disk }
    ensures synced { (volume : Volume) (m : Machine) → Runs core.old volume m → writable ≡ false
        → refusal m (call.Protect space writable) ≡ None → OnOk result ((state core.new).disk.synced ≡ true) }
    ensures settled { writable ≡ false
        → IfOk result (λ answer. answer ≡ reply.Done → (state core.new).disk.synced ≡ true) }
{
    let (shown, first, pages) = match find_window(core, space) {
        Ok(Ok(found)) => found,
        Ok(Err(word)) => return Ok(Reply::Refused(word)),
        Err(halt) => return Err(halt),
    };
    if writable {
        return protect_writable(core, space, shown);
    }
    protect_read_only(core, space, shown, first, pages)
}
