//! Bytes that are loaded and stored.
ghost use Rattle.std.specs.Prelude.{◌≡◌, ◌≤◌, ◌+◌, ◌/◌, length, None, IsOk, OnOk, List};
ghost use Rattle.flat_machine.specs.declared.call.Call.TheVariants as call;
ghost use Rattle.flat_machine.specs.Machine.{Machine};
ghost use Rattle.flat_machine.specs.Refusal.{refusal};
ghost use Rattle.session_words.specs.CellLaws.{IsTouchedOrOwn};
ghost use Rattle.session_words.specs.Volume.{volume_page};
ghost use Rattle.file_manager.specs.declared.volume.Volume.{Volume};
ghost use Rattle.running_words.specs.Running.{Runs};
ghost use Rattle.running_words.specs.Session.{WroteIn};
ghost use Rattle.fault_core.specs.Access.{BreaksFor, last_page};
ghost use Rattle.fault_core.specs.Core.{kept, state};
ghost use Rattle.fault_core.specs.Reach.{TouchHalts};
ghost use Rattle.fault_core.specs.Unit.{IsReady};
ghost use Rattle.running_words.specs.Stages.{client_or_own};
ghost use Rattle.space_calls.specs.Sees.{StillOn};
ghost use Rattle.fault_core.specs.Lack.{Sees, shown_units};
ghost use Rattle.flat_machine.specs.declared.space.Space.{Space};
ghost use Rattle.filer_kernel.specs.View.{FitsLayout};
ghost use Rattle.space_calls.specs.Calls.{Answers};
ghost use Rattle.space_calls.specs.Outcomes.{HaltsToBring, MovesOver};

use fault_core::{Access, Core};
use flat_machine::{Piece, Refusal, Reply};
use labelled_disk::{Disk, Halt};
use std::alloc::Allocator;

/// Loads 1 to 64 bytes from an address on.
pub fn load<D: Disk, A: Allocator>(
    core: &mut Core<D, A>,
    address: u32,
    count: u8,
) -> Result<Reply, Halt>
    requires size { FitsLayout (state core.old) }
    requires some { 1 ≤ count }
    requires few { count ≤ 64 }
    ensures answers { (volume : Volume) (m : Machine) → Runs core.old volume m
        → Answers m (call.Load address count) core.old core.new volume result }
    ensures fails { HaltsToBring
        (TouchHalts (BreaksFor (state core.old) core.old.intervals address count) (state core.old) (state core.new))
        (λ ss. shown_units ss address count) core.old core.new result }
    ensures went { MovesOver volume_page (state core.old) (state core.new) }
    ensures sees { OnOk result (StillOn core.old core.new) }
    ensures cost { (state core.new).disk.transfers ≤ (state core.old).disk.transfers + 1680 }
    ensures ready { (volume : Volume) (m : Machine) → Runs core.old volume m
        → refusal m (call.Load address count) ≡ None
        → OnOk result (IsReady (kept core.new) (state core.new).slots (last_page address count)) }
    ensures idle { (volume : Volume) (m : Machine) → Runs core.old volume m
        → IsReady (kept core.old) (state core.old).slots (address / 512)
        → IsReady (kept core.old) (state core.old).slots (last_page address count)
        → IsOk result × (core.new.filer ≡ core.old.filer) × (kept core.new ≡ kept core.old) }
{
    let mut room = [0; 64];
    let bytes = &mut room[..usize::from(count)];
    match core.load(address, bytes) {
        Ok(Access::Done) => Ok(Reply::Bytes(Piece::of(bytes))),
        Ok(Access::NoMap(page)) => Ok(Reply::Refused(Refusal::NoMap(page))),
        Ok(Access::ReadOnly(page)) => Ok(Reply::Refused(Refusal::ReadOnly(page))),
        Err(halt) => Err(halt),
    }
}

/// Stores 1 to 64 bytes from an address on. One that is refused changes nothing.
pub fn store<D: Disk, A: Allocator>(
    core: &mut Core<D, A>,
    address: u32,
    bytes: &[u8],
) -> Result<Reply, Halt>
    requires size { FitsLayout (state core.old) }
    requires some { 1 ≤ length bytes.now }
    requires few { length bytes.now ≤ 64 }
    ensures answers { (volume : Volume) (m : Machine) → Runs core.old volume m
        → Answers m (call.Store address bytes.now) core.old core.new volume result }
    ensures fails { HaltsToBring
        (TouchHalts (BreaksFor (state core.old) core.old.intervals address (length bytes.now)) (state core.old)
        (state core.new))
        (λ ss. shown_units ss address (length bytes.now)) core.old core.new result }
    ensures went { MovesOver client_or_own (state core.old) (state core.new) }
    ensures shown { (ss : List Space) → Sees (state core.old) (kept core.old) core.old.intervals ss
        → WroteIn (IsTouchedOrOwn ss address (length bytes.now)) (state core.old).disk (state core.old).slots
        (state core.new).disk (state core.new).slots }
    ensures sees { OnOk result (StillOn core.old core.new) }
    ensures cost { (state core.new).disk.transfers ≤ (state core.old).disk.transfers + 1680 }
    ensures ready { (volume : Volume) (m : Machine) → Runs core.old volume m
        → refusal m (call.Store address bytes.now) ≡ None
        → OnOk result (IsReady (kept core.new) (state core.new).slots (last_page address (length bytes.now))) }
    ensures idle { (volume : Volume) (m : Machine) → Runs core.old volume m
        → IsReady (kept core.old) (state core.old).slots (address / 512)
        → IsReady (kept core.old) (state core.old).slots (last_page address (length bytes.now))
        → IsOk result × ((state core.new).disk ≡ (state core.old).disk) × (kept core.new ≡ kept core.old) }
{
    match core.store(address, bytes) {
        Ok(Access::Done) => Ok(Reply::Done),
        Ok(Access::NoMap(page)) => Ok(Reply::Refused(Refusal::NoMap(page))),
        Ok(Access::ReadOnly(page)) => Ok(Reply::Refused(Refusal::ReadOnly(page))),
        Err(halt) => Err(halt),
    }
}
