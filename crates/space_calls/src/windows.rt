//! The window of a space, the frames of what it shows, and its file.
ghost use Rattle.std.specs.Prelude.{◌≡◌, ◌≤◌, ◌+◌, [], List, IfOk, IfErr, IfSome, OnOk, option_map, MatchResult};
ghost use Rattle.labelled_disk.specs.declared.evidence.Halt.TheVariants as halt;
ghost use Rattle.flat_machine.specs.declared.space.Space.{Space};
ghost use Rattle.flat_machine.specs.Machine.{Machine};
ghost use Rattle.session_words.specs.Volume.{volume_page};
ghost use Rattle.file_manager.specs.declared.volume.Volume.{Volume};
ghost use Rattle.running_words.specs.Running.{Runs};
ghost use Rattle.std.specs.Bool.{then_some};
ghost use Rattle.flat_machine.specs.declared.call.Refusal.TheVariants as why;
ghost use Rattle.flat_machine.specs.declared.space.FilePage.{FilePage};
ghost use Rattle.flat_machine.specs.IsMachine.{IsMachine};
ghost use Rattle.flat_machine.specs.Next.{set_window as with_window};
ghost use Rattle.flat_machine.specs.Refusal.{first_of, is_immutable};
ghost use Rattle.projection_laws.specs.Laws.{WindowFits};
ghost use Rattle.projection_laws.specs.Spaces.{MayHaveWindow};
ghost use Rattle.projection_laws.specs.Tests.{window_row};
ghost use Rattle.space_tables.specs.Shows.{window_of, IsRunAt, IsShownAt};
ghost use Rattle.session_words.specs.FrameLaws.{HasFrames};
ghost use Rattle.session_words.specs.Parts.{DirtyAreLoose};
ghost use Rattle.fault_core.specs.Range.{AreClean, AreGone};
ghost use Rattle.table_calls.specs.Answers.{IfGiven, IsDone, TablesSay, Reveals};
ghost use Rattle.space_calls.specs.Unmapping.{IsWindowIn, Reshapes};
ghost use Rattle.fault_core.specs.Core.{state, kept};
ghost use Rattle.fault_core.specs.Kill.{BreaksWithin};
ghost use Rattle.fault_core.specs.Reach.{ReachHalts};
ghost use Rattle.space_calls.specs.Halts.{ChangeHalts, LookHalts, SlotHalts};
ghost use Rattle.fault_core.specs.Lack.{Sees};
ghost use Rattle.filer_kernel.specs.View.{FitsLayout, MakesOnly};
ghost use Rattle.space_calls.specs.Calls.{Looks};
ghost use Rattle.space_calls.specs.Outcomes.{HaltsBy};

use crate::framing::frame_count;
use crate::naming::found_file;
use fault_core::Core;
use flat_machine::Refusal;
use labelled_disk::{Disk, FileId, Halt};
use space_tables::Shown;
use std::alloc::Allocator;
use table_calls::{bounds, set_window, shown};

// What a space itself shows, its first page, and how many pages it has.
pub(crate) fn find_window<D: Disk, A: Allocator>(
    core: &mut Core<D, A>,
    space: u32,
) -> Result<Result<(Shown, u32, u32), Refusal>, Halt>
    requires size { FitsLayout (state core.old) }
    ensures answer { (volume : Volume) (m : Machine) → Runs core.old volume m
        → MatchResult result (Reveals (first_of (window_row m.spaces space)) (IsWindowIn m.spaces space))
        (λ e. e ≡ halt.Disk) }
    ensures read { IfOk result (IfGiven (λ found. TablesSay (state core.old) (λ b. IsShownAt b space) found.0)) }
    ensures range { IfOk result
        (IfGiven (λ found. TablesSay (state core.old) (λ b. IsRunAt b space) (found.1, found.2))) }
    ensures looks { Looks core.old core.new }
    ensures fails { HaltsBy (SlotHalts space (state core.old) (state core.new)) core.old core.new result }
    ensures seen { (ss : List Space) → Sees (state core.old) (kept core.old) core.old.intervals ss
        → IfOk result (Reveals (first_of (window_row ss space)) (IsWindowIn ss space)) }
    ensures cost { (state core.new).disk.transfers ≤ (state core.old).disk.transfers + 56 }
{
    let shows = match shown(core, space) {
        Ok(Ok(shows)) => shows,
        Ok(Err(word)) => return Ok(Err(word)),
        Err(halt) => return Err(halt),
    };
    match bounds(core, space) {
        Ok(Ok((first, pages))) => Ok(Ok((shows, first, pages))),
        Ok(Err(word)) => Ok(Err(word)),
        Err(halt) => Err(halt),
    }
}

// Gives up the frames of what windows show in a range of pages of the root. What is dirty is written out first.
pub(crate) fn evict_range<D: Disk, A: Allocator>(
    core: &mut Core<D, A>,
    first: u32,
    pages: u32,
) -> Result<(), Halt>
    requires size { FitsLayout (state core.old) }
    ensures rest { (volume : Volume) (m : Machine) → Runs core.old volume m
        → MatchResult result (λ _. AreGone m.spaces (state core.new).slots first (first + pages))
        (λ e. e ≡ halt.Disk) }
    ensures looks { Looks core.old core.new }
    ensures fails { HaltsBy
        (ReachHalts (BreaksWithin (state core.old) core.old.intervals first (first + pages)) (state core.old)
        (state core.new))
        core.old core.new result }
    ensures cost { (state core.new).disk.transfers ≤ (state core.old).disk.transfers + 4395008 }
{
    let _frames = frame_count(core);
    core.evict(first, pages)
}

// Writes out what is dirty of what windows show in a range of pages of the root.
pub(crate) fn flush_range<D: Disk, A: Allocator>(
    core: &mut Core<D, A>,
    first: u32,
    pages: u32,
) -> Result<(), Halt>
    requires size { FitsLayout (state core.old) }
    ensures rest { (volume : Volume) (m : Machine) → Runs core.old volume m
        → MatchResult result (λ _. AreClean m.spaces (state core.new).slots first (first + pages))
        (λ e. e ≡ halt.Disk) }
    ensures looks { Looks core.old core.new }
    ensures fails { HaltsBy
        (ReachHalts (BreaksWithin (state core.old) core.old.intervals first (first + pages)) (state core.old)
        (state core.new))
        core.old core.new result }
    ensures cost { (state core.new).disk.transfers ≤ (state core.old).disk.transfers + 4395008 }
{
    let _frames = frame_count(core);
    core.flush(first, pages)
}

// Gives a space another window, or none, where the frames are those of what is shown then, and each dirty one is of an unforced page.
pub(crate) fn change_window<D: Disk, A: Allocator>(
    core: &mut Core<D, A>,
    space: u32,
    shown: Option<Shown>,
) -> Result<Result<(), Refusal>, Halt>
    requires size { FitsLayout (state core.old) }
    ensures done { (volume : Volume) (m : Machine) (x : Space) (unforced : List FilePage) → Runs core.old volume m
        → MayHaveWindow m.spaces x → x.handle ≡ space → IfSome shown (λ w. WindowFits x.pages (window_of w))
        → IsMachine (record m { spaces = with_window space (option_map window_of shown) m.spaces; unforced = unforced })
        → HasFrames (state core.old).slots (with_window space (option_map window_of shown) m.spaces)
        → DirtyAreLoose (state core.old).slots unforced
        → IfOk result
        (IsDone
        (Runs core.new volume
        (record m { spaces = with_window space (option_map window_of shown) m.spaces; unforced = unforced }))) }
    ensures sound { (volume : Volume) (m : Machine) (x : Space) → Runs core.old volume m → MayHaveWindow m.spaces x
        → x.handle ≡ space → IfSome shown (λ w. WindowFits x.pages (window_of w)) → IfErr result (λ e. e ≡ halt.Disk) }
    ensures fails { HaltsBy (ChangeHalts core.old.intervals (state core.old) (state core.new))
        core.old core.new result }
    ensures sees { (ss : List Space) (x : Space) → Sees (state core.old) (kept core.old) core.old.intervals ss
        → MayHaveWindow ss x → x.handle ≡ space → IfSome shown (λ w. WindowFits x.pages (window_of w))
        → OnOk result
        (Sees (state core.new) (kept core.new) core.new.intervals (with_window space (option_map window_of shown) ss)) }
    ensures reshapes { Reshapes (state core.old) (state core.new) }
    ensures makes { MakesOnly volume_page [] (state core.old) (state core.new) }
    ensures cost { (state core.new).disk.transfers ≤ (state core.old).disk.transfers + 57344 }
{
    let answer = match set_window(core, space, shown) {
        Ok(answer) => answer,
        Err(halt) => return Err(halt),
    };
    let _frames = frame_count(core);
    Ok(answer)
}

// Whether a file is immutable.
pub(crate) fn shows_immutable<D: Disk, A: Allocator>(
    core: &mut Core<D, A>,
    id: FileId,
) -> Result<bool, Halt>
    requires size { FitsLayout (state core.old) }
    ensures answer { (volume : Volume) (m : Machine) → Runs core.old volume m
        → MatchResult result (λ is. is_immutable m id ≡ then_some is why.Immutable) (λ e. e ≡ halt.Disk) }
    ensures looks { Looks core.old core.new }
    ensures fails { HaltsBy (LookHalts id (state core.old) (state core.new)) core.old core.new result }
    ensures cost { (state core.new).disk.transfers ≤ (state core.old).disk.transfers + 29 }
{
    match found_file(core, id) {
        Ok(Some(found)) => Ok(found.immutable),
        Ok(None) => Ok(false),
        Err(halt) => Err(halt),
    }
}
