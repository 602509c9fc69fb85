//! What a pair holds, and its calls.
ghost use Rattle.std.specs.Prelude.{◌≡◌, true, IfErr, IfOk, MatchResult, is_ok};
ghost use Rattle.filer_kernel.specs.View.{view_of};
ghost use Rattle.pair_machine.specs.Pair as machine;
ghost use Rattle.volume_pair.specs.Copying.{LeavesSecond, RepliesPair, id_of};
ghost use Rattle.volume_pair.specs.Costs.{SpendsOnFile};
ghost use Rattle.volume_pair.specs.CrashStates.{WritesSecond};
ghost use Rattle.volume_pair.specs.Kept.{IsOnlyRead, IsStillInUse};
ghost use Rattle.volume_pair.specs.Pairs.{IsFaultOfDisk, IsInUse, IsPaired, ShowsSide};

use crate::PairHalt;
use crate::comparing::compare;
use crate::copying::copy;
use file_manager::Volume;
use filer_kernel::Filer;
use labelled_disk::Disk;
use pair_machine::{PairCall, PairReply};
use std::alloc::Allocator;

/// Two volumes: one that is looked at alone, and one in use, which gets copies of its files.
#[derive(Drop)]
pub struct Pair<D: Disk, E: Disk, A: Allocator> {
    pub(crate) from: Filer<D, A>,
    pub(crate) to: Filer<E, A>,
    pub(crate) volume: Volume,
    pub(crate) running: bool,
}

/// A pair on disks that are lent.
pub type LentPair<'d, D, E, A> = Pair<&'d mut D, &'d mut E, A>;

// Copies or compares a file.
fn ask<D: Disk, E: Disk, A: Allocator>(
    from: &mut Filer<D, A>,
    to: &mut Filer<E, A>,
    volume: &mut Volume,
    call: &PairCall,
) -> Result<PairReply, PairHalt>
    requires in_use { IsInUse (view_of from.old) (view_of to.old) volume.old }
    ensures replies { (p : machine.Pair) → IsPaired (view_of from.old) (view_of to.old) volume.old p
        → MatchResult result (RepliesPair p call.now (view_of from.new) (view_of to.new) volume.new) IsFaultOfDisk }
    ensures in_use { IsStillInUse (view_of from.new) (view_of to.new) volume.old volume.new }
    ensures from { IsOnlyRead (view_of from.old).disk (view_of from.new).disk }
    ensures to { WritesSecond call.now result (view_of from.old) (view_of to.old) volume.old (view_of to.new) }
    ensures leaves { IfOk result (LeavesSecond (view_of to.old) (view_of to.new)) }
    ensures cost { (p : machine.Pair) → IsPaired (view_of from.old) (view_of to.old) volume.old p
        → SpendsOnFile p (id_of call.now) (view_of from.old) (view_of to.old) (view_of from.new) (view_of to.new) }
    ensures why { IfErr result
        (ShowsSide (view_of from.old) (view_of to.old) (view_of from.new) (view_of to.new)) }
{
    match call {
        PairCall::Copy { id } => copy(from, to, volume, *id),
        PairCall::Compare { id } => compare(from, to, *id),
    }
}

impl<D: Disk, E: Disk, A: Allocator> Pair<D, E, A> {
    /// Whether it may be asked: no halt came.
    pub fn running(&self) -> bool
        ensures { result ≡ self.now.running }
    {
        self.running
    }

    /// Copies or compares a file.
    pub fn step(&mut self, call: &PairCall) -> Result<PairReply, PairHalt>
        requires in_use { IsInUse (view_of self.old.from) (view_of self.old.to) self.old.volume }
        requires running { self.old.running ≡ true }
        ensures replies { (p : machine.Pair)
            → IsPaired (view_of self.old.from) (view_of self.old.to) self.old.volume p
            → MatchResult result
            (RepliesPair p call.now (view_of self.new.from) (view_of self.new.to) self.new.volume) IsFaultOfDisk }
        ensures in_use { IsStillInUse (view_of self.new.from) (view_of self.new.to) self.old.volume self.new.volume }
        ensures from { IsOnlyRead (view_of self.old.from).disk (view_of self.new.from).disk }
        ensures to { WritesSecond call.now result (view_of self.old.from) (view_of self.old.to) self.old.volume
            (view_of self.new.to) }
        ensures leaves { IfOk result (LeavesSecond (view_of self.old.to) (view_of self.new.to)) }
        ensures cost { (p : machine.Pair)
            → IsPaired (view_of self.old.from) (view_of self.old.to) self.old.volume p
            → SpendsOnFile p (id_of call.now) (view_of self.old.from) (view_of self.old.to) (view_of self.new.from)
            (view_of self.new.to) }
        ensures why { IfErr result
            (ShowsSide (view_of self.old.from) (view_of self.old.to) (view_of self.new.from) (view_of self.new.to)) }
        ensures running { self.new.running ≡ is_ok result }
    {
        let answer = ask(&mut self.from, &mut self.to, &mut self.volume, call);
        self.running = answer.is_ok();
        answer
    }
}
