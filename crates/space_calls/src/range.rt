//! Ranges of pages whose frames are written out, or given up.
ghost use Rattle.std.specs.Prelude.{◌≡◌, ◌≤◌, ◌+◌, ◌*◌, true, length, List, Some, None, IfOk, OnOk, MatchResult};
ghost use Rattle.labelled_disk.specs.declared.evidence.Halt.TheVariants as halt;
ghost use Rattle.flat_machine.specs.declared.call.Call.TheVariants as call;
ghost use Rattle.flat_machine.specs.declared.space.Space.{Space};
ghost use Rattle.flat_machine.specs.Machine.{Machine};
ghost use Rattle.flat_machine.specs.Refusal.{refusal};
ghost use Rattle.file_manager.specs.declared.volume.Volume.{Volume};
ghost use Rattle.running_words.specs.Bound.{CostsOther};
ghost use Rattle.running_words.specs.Running.{Runs};
ghost use Rattle.flat_machine.specs.Space.{space_at};
ghost use Rattle.fault_core.specs.Kill.{AreWritableSo, is_absent};
ghost use Rattle.fault_core.specs.Range.{AreClean, AreGone};
ghost use Rattle.fault_core.specs.Core.{kept, state, Knows};
ghost use Rattle.fault_core.specs.Kept.{AreFound};
ghost use Rattle.fault_core.specs.Reach.{ReachHalts, StayOrYield};
ghost use Rattle.flat_machine.specs.declared.call.Reply.TheVariants as reply;
ghost use Rattle.space_tables.specs.Shows.{IsRunAt};
ghost use Rattle.space_calls.specs.Ranges.{BreaksRange};
ghost use Rattle.labelled_disk.specs.Sectors.{Sector};
ghost use Rattle.file_map.specs.FileMap.{Triples};
ghost use Rattle.projection_laws.specs.Tests.{no_space};
ghost use Rattle.table_calls.specs.Answers.{Asked, IfGiven, TablesSay, Reveals};
ghost use Rattle.space_calls.specs.Sees.{StillSees, StillOn};
ghost use Rattle.filer_kernel.specs.View.{FitsLayout};
ghost use Rattle.space_calls.specs.Calls.{Answers};
ghost use Rattle.space_calls.specs.Outcomes.{HaltsBy, MovesOwn};
ghost use Rattle.space_calls.specs.Halts.{SlotHalts};

use crate::framing::frame_count;
use crate::syncing::sync;
use fault_core::Core;
use flat_machine::{Refusal, Reply};
use labelled_disk::{Disk, Halt};
use std::alloc::Allocator;
use table_calls::bounds;

// The first page of a space, and how many pages it has.
fn range_of<D: Disk, A: Allocator>(
    core: &mut Core<D, A>,
    space: u32,
) -> Result<Result<(u32, u32), Refusal>, Halt>
    requires size { FitsLayout (state core.old) }
    ensures answer { (m : List Sector) (named : Triples) (ss : List Space) → Knows core.old m named ss
        → MatchResult result
        (Reveals (no_space ss space) (λ run. (s : Space) × (space_at ss space ≡ Some s) × (run ≡ (s.first, s.pages))))
        (λ e. e ≡ halt.Disk) }
    ensures read { IfOk result (IfGiven (TablesSay (state core.old) (λ b. IsRunAt b space))) }
    ensures fails { HaltsBy (SlotHalts space (state core.old) (state core.new)) core.old core.new result }
    ensures still { StillSees core.old core.new }
    ensures asked { Asked core.old core.new }
    ensures frames { length (state core.old).slots ≤ 4096 }
    ensures cost { (state core.new).disk.transfers ≤ (state core.old).disk.transfers + 28 }
{
    let _frames = frame_count(core);
    bounds(core, space)
}

/// Writes out what is dirty of the pages of a space, and gives their frames up.
pub fn deactivate<D: Disk, A: Allocator>(core: &mut Core<D, A>, space: u32) -> Result<Reply, Halt>
    requires size { FitsLayout (state core.old) }
    ensures answers { (volume : Volume) (m : Machine) → Runs core.old volume m
        → Answers m (call.Deactivate space) core.old core.new volume result }
    ensures fails { HaltsBy
        (ReachHalts (BreaksRange (state core.old) core.old.intervals space) (state core.old) (state core.new))
        core.old core.new result }
    ensures went { MovesOwn (state core.old) (state core.new) }
    ensures sees { OnOk result (StillOn core.old core.new) }
    ensures cost { CostsOther (state core.old).disk (state core.new).disk }
    ensures gone { (volume : Volume) (m : Machine) (s : Space) → Runs core.old volume m
        → space_at m.spaces space ≡ Some s
        → OnOk result (AreGone m.spaces (state core.new).slots s.first (s.first + s.pages)) }
{
    let (first, pages) = match range_of(core, space) {
        Ok(Ok(found)) => found,
        Ok(Err(word)) => return Ok(Reply::Refused(word)),
        Err(halt) => return Err(halt),
    };
    match core.evict(first, pages) {
        Ok(()) => (),
        Err(halt) => return Err(halt),
    }
    Ok(Reply::Done)
}

/// Gives up the frames of the pages of a space that may be stored to. What is dirty of them is lost: where intervals that are kept have
/// all of them, no table is asked but for where the space lies.
pub fn kill<D: Disk, A: Allocator>(core: &mut Core<D, A>, space: u32) -> Result<Reply, Halt>
    requires size { FitsLayout (state core.old) }
    ensures answers { (volume : Volume) (m : Machine) → Runs core.old volume m
        → Answers m (call.Kill space) core.old core.new volume result }
    ensures fails { HaltsBy
        (ReachHalts (BreaksRange (state core.old) core.old.intervals space) (state core.old) (state core.new))
        core.old core.new result }
    ensures went { MovesOwn (state core.old) (state core.new) }
    ensures sees { OnOk result (StillOn core.old core.new) }
    ensures cost { CostsOther (state core.old).disk (state core.new).disk }
    ensures gone { (volume : Volume) (m : Machine) (s : Space) → Runs core.old volume m
        → space_at m.spaces space ≡ Some s
        → OnOk result (AreWritableSo (is_absent (state core.new).slots) m.spaces s.first (s.first + s.pages)) }
    ensures idle { (volume : Volume) (m : Machine) (s : Space) → Runs core.old volume m
        → space_at m.spaces space ≡ Some s → AreFound (kept core.old) s.first (s.first + s.pages)
        → (state core.new).disk.transfers ≤ (state core.old).disk.transfers + 28 }
    ensures short { (state core.new).disk.transfers ≤ (state core.old).disk.transfers
        + (28 + (core.old.intervals + 1) * 196) }
{
    let (first, pages) = match range_of(core, space) {
        Ok(Ok(found)) => found,
        Ok(Err(word)) => return Ok(Reply::Refused(word)),
        Err(halt) => return Err(halt),
    };
    match core.kill(first, pages) {
        Ok(()) => (),
        Err(halt) => return Err(halt),
    }
    Ok(Reply::Done)
}

/// Makes the files hold what the pages of a space hold: what is dirty of them is written out, and all of it is on the medium. The
/// frames stay, but where pages of the tables and of the map, which are asked, take their slots.
pub fn force_out<D: Disk, A: Allocator>(core: &mut Core<D, A>, space: u32) -> Result<Reply, Halt>
    requires size { FitsLayout (state core.old) }
    ensures answers { (volume : Volume) (m : Machine) → Runs core.old volume m
        → Answers m (call.ForceOut space) core.old core.new volume result }
    ensures fails { HaltsBy
        (ReachHalts (BreaksRange (state core.old) core.old.intervals space) (state core.old) (state core.new))
        core.old core.new result }
    ensures went { MovesOwn (state core.old) (state core.new) }
    ensures sees { OnOk result (StillOn core.old core.new) }
    ensures cost { CostsOther (state core.old).disk (state core.new).disk }
    ensures clean { (volume : Volume) (m : Machine) (s : Space) → Runs core.old volume m
        → space_at m.spaces space ≡ Some s
        → OnOk result (AreClean m.spaces (state core.new).slots s.first (s.first + s.pages)) }
    ensures synced { (volume : Volume) (m : Machine) → Runs core.old volume m → refusal m (call.ForceOut space) ≡ None
        → OnOk result ((state core.new).disk.synced ≡ true) }
    ensures stay { StayOrYield (state core.old).slots (state core.new).slots }
    ensures settled { IfOk result (λ answer. answer ≡ reply.Done → (state core.new).disk.synced ≡ true) }
{
    let (first, pages) = match range_of(core, space) {
        Ok(Ok(found)) => found,
        Ok(Err(word)) => return Ok(Reply::Refused(word)),
        Err(halt) => return Err(halt),
    };
    match core.flush(first, pages) {
        Ok(()) => (),
        Err(halt) => return Err(halt),
    }
    match sync(core) {
        Ok(()) => Ok(Reply::Done),
        Err(halt) => Err(halt),
    }
}
