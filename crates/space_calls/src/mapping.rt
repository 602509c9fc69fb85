//! Windows that spaces get.
ghost use Rattle.std.specs.Prelude.{◌≡◌, ◌⊎◌, ◌≤◌, ◌+◌, List, Some, None, IfOk, IfErr, MatchResult};
ghost use Rattle.labelled_disk.specs.declared.evidence.Halt.TheVariants as halt;
ghost use Rattle.flat_machine.specs.declared.call.Call.TheVariants as call;
ghost use Rattle.flat_machine.specs.declared.space.Space.{Space};
ghost use Rattle.flat_machine.specs.Machine.{Machine};
ghost use Rattle.flat_machine.specs.Refusal.{refusal};
ghost use Rattle.file_manager.specs.declared.volume.Volume.{Volume};
ghost use Rattle.running_words.specs.Bound.{CostsOther};
ghost use Rattle.running_words.specs.Running.{Runs};
ghost use Rattle.flat_machine.specs.IsMachine.{IsMachine};
ghost use Rattle.flat_machine.specs.Next.{set_window};
ghost use Rattle.projection_laws.specs.Laws.{WindowFits};
ghost use Rattle.projection_laws.specs.Spaces.{MayHaveWindow};
ghost use Rattle.space_tables.specs.Shows.{window_of};
ghost use Rattle.flat_machine.specs.declared.call.Reply.TheVariants as answer;
ghost use Rattle.table_calls.specs.Answers.{Reveals, IfGiven};
ghost use Rattle.space_calls.specs.Mapping.{IsInReach, MayShow, IsLastFrom, ReachesOver};
ghost use Rattle.fault_core.specs.Core.{state, kept};
ghost use Rattle.space_calls.specs.Halts.{ChangeHalts, MapFileHalts};
ghost use Rattle.space_calls.specs.Sees.{SeesFiles, IsShown, StillOnOr};
ghost use Rattle.fault_core.specs.Lack.{Sees};
ghost use Rattle.labelled_disk.specs.Sectors.{Sector};
ghost use Rattle.file_map.specs.FileMap.{Triples};
ghost use Rattle.filer_kernel.specs.Triples.{AreOf, MapIs};
ghost use Rattle.filer_kernel.specs.View.{FitsLayout, HasMemory, kept_by};
ghost use Rattle.space_calls.specs.Calls.{Answers, Looks};
ghost use Rattle.space_calls.specs.Outcomes.{HaltsBy, MakesOwn, MovesOwn};

use crate::framing::frame_count;
use crate::naming::named_file;
use fault_core::Core;
use file_manager::Attributes;
use flat_machine::{Refusal, Reply};
use labelled_disk::{Disk, FileId, Halt};
use space_tables::Shown;
use std::alloc::Allocator;
use table_calls::{bounds, can_map, set_window};

/// Gives a space that may have one a window, which no other space on its path has.
pub fn give_window<D: Disk, A: Allocator>(
    core: &mut Core<D, A>,
    space: u32,
    shown: Shown,
) -> Result<Reply, Halt>
    requires size { FitsLayout (state core.old) }
    ensures given { (volume : Volume) (m : Machine) (x : Space) → Runs core.old volume m → MayHaveWindow m.spaces x
        → x.handle ≡ space → x.window ≡ None → WindowFits x.pages (window_of shown)
        → IsMachine (record m { spaces = set_window space (Some (window_of shown)) m.spaces })
        → IfOk result
        (λ reply.
        (reply ≡ answer.Done)
        × Runs core.new volume (record m { spaces = set_window space (Some (window_of shown)) m.spaces })) }
    ensures sound { (volume : Volume) (m : Machine) (x : Space) → Runs core.old volume m → MayHaveWindow m.spaces x
        → x.handle ≡ space → x.window ≡ None → WindowFits x.pages (window_of shown)
        → IfErr result (λ e. e ≡ halt.Disk) }
    ensures fails { HaltsBy (ChangeHalts core.old.intervals (state core.old) (state core.new))
        core.old core.new result }
    ensures went { MakesOwn (state core.old) (state core.new) }
    ensures sees { (ss : List Space) (x : Space) → Sees (state core.old) (kept core.old) core.old.intervals ss
        → MayHaveWindow ss x → x.handle ≡ space → WindowFits x.pages (window_of shown)
        → IfOk result
        (λ reply.
        (reply ≡ answer.Done)
        × SeesFiles (λ file last. IsShown ss file last ⊎ ((file ≡ shown.id) × IsLastFrom ss space shown.page last))
        core.new) }
    ensures cost { (state core.new).disk.transfers ≤ (state core.old).disk.transfers + 57344 }
{
    let answer = match set_window(core, space, Some(shown)) {
        Ok(answer) => answer,
        Err(halt) => return Err(halt),
    };
    let _frames = frame_count(core);
    match answer {
        Ok(()) => Ok(Reply::Done),
        Err(word) => Ok(Reply::Refused(word)),
    }
}

// How many pages a file has: a number of 32 bits.
fn page_count(found: Attributes) -> u32
    ensures same { result ≡ found.pages }
{
    found.pages
}

// The tests of a call that shows a file in a space.
fn may_map<D: Disk, A: Allocator>(
    core: &mut Core<D, A>,
    space: u32,
    id: FileId,
    page: u32,
    writable: bool,
) -> Result<Result<(), Refusal>, Halt>
    requires size { FitsLayout (state core.old) }
    ensures answer { (volume : Volume) (m : Machine) → Runs core.old volume m
        → MatchResult result (Reveals (refusal m (call.Map space id page writable)) (λ _. IsInReach m space page))
        (λ e. e ≡ halt.Disk) }
    ensures looks { Looks core.old core.new }
    ensures fails { HaltsBy (MapFileHalts space id core.old.intervals (state core.old) (state core.new))
        core.old core.new result }
    ensures seen { (ss : List Space) → Sees (state core.old) (kept core.old) core.old.intervals ss
        → IfOk result (IfGiven (λ _. MayShow ss space id page writable)) }
    ensures found { (ss : List Space) (m : List Sector) (named : Triples)
        → Sees (state core.old) (kept core.old) core.old.intervals ss → HasMemory (state core.old) m
        → MapIs (state core.old).layout named m → AreOf named (kept_by (state core.old))
        → IfOk result (IfGiven (λ _. ReachesOver ss space id page named)) }
    ensures cost { (state core.new).disk.transfers ≤ (state core.old).disk.transfers + 28953 }
{
    match bounds(core, space) {
        Ok(Ok(_)) => (),
        Ok(Err(word)) => return Ok(Err(word)),
        Err(halt) => return Err(halt),
    }
    if space == 0 {
        return Ok(Err(Refusal::Root));
    }
    let found = match named_file(core, id) {
        Ok(Some(found)) => found,
        Ok(None) => return Ok(Err(Refusal::File)),
        Err(halt) => return Err(halt),
    };
    let (_, pages) = match can_map(core, space) {
        Ok(Ok(run)) => run,
        Ok(Err(word)) => return Ok(Err(word)),
        Err(halt) => return Err(halt),
    };
    if u64::from(page) + u64::from(pages) > u64::from(page_count(found)) {
        return Ok(Err(Refusal::Window));
    }
    if writable && found.immutable {
        return Ok(Err(Refusal::Immutable));
    }
    Ok(Ok(()))
}

/// Shows a file in a space, from this page of the file on.
pub fn map<D: Disk, A: Allocator>(
    core: &mut Core<D, A>,
    space: u32,
    id: FileId,
    page: u32,
    writable: bool,
) -> Result<Reply, Halt>
    requires size { FitsLayout (state core.old) }
    ensures answers { (volume : Volume) (m : Machine) → Runs core.old volume m
        → Answers m (call.Map space id page writable) core.old core.new volume result }
    ensures fails { HaltsBy (MapFileHalts space id core.old.intervals (state core.old) (state core.new))
        core.old core.new result }
    ensures went { MovesOwn (state core.old) (state core.new) }
    ensures sees { IfOk result
        (λ reply.
        StillOnOr (λ ss file last. (reply ≡ answer.Done) × (file ≡ id) × IsLastFrom ss space page last) core.old
        core.new) }
    ensures found { (ss : List Space) (m : List Sector) (named : Triples)
        → Sees (state core.old) (kept core.old) core.old.intervals ss → HasMemory (state core.old) m
        → MapIs (state core.old).layout named m → AreOf named (kept_by (state core.old))
        → IfOk result (λ reply. reply ≡ answer.Done → ReachesOver ss space id page named) }
    ensures cost { CostsOther (state core.old).disk (state core.new).disk }
{
    match may_map(core, space, id, page, writable) {
        Ok(Ok(())) => (),
        Ok(Err(word)) => return Ok(Reply::Refused(word)),
        Err(halt) => return Err(halt),
    }
    let shown = Shown {
        id,
        page,
        writable,
        anonymous: false,
    };
    give_window(core, space, shown)
}
