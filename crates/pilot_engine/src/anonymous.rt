//! Windows that show a file which no call names: it comes with its window, and goes with it.
ghost use Rattle.std.specs.Prelude.{◌≡◌, true, IfOk, IfErr, OnOk, List};
ghost use Rattle.flat_machine.specs.declared.call.Call.TheVariants as call;
ghost use Rattle.flat_machine.specs.declared.call.Reply.TheVariants as reply;
ghost use Rattle.flat_machine.specs.Machine.{Machine};
ghost use Rattle.running_words.specs.Running.{Runs};
ghost use Rattle.fault_core.specs.Core.{kept, state};
ghost use Rattle.pilot_engine.specs.Sparing.{SparesAll};
ghost use Rattle.pilot_engine.specs.Halting.{MapNewHalts, UnmapHalts};
ghost use Rattle.file_manager.specs.Creating.{next_id};
ghost use Rattle.file_manager.specs.Reasons.{KeepsOn, InitialState, IsNotOlder, giving};
ghost use Rattle.fault_core.specs.Lack.{MissesPage, Sees};
ghost use Rattle.flat_machine.specs.declared.space.Space.{Space};
ghost use Rattle.pilot_engine.specs.Stepping.{missing_page};
ghost use Rattle.pilot_engine.specs.Calls.{Accounts, Answers};
ghost use Rattle.pilot_engine.specs.Showing.{ShowsMapped};
ghost use Rattle.space_calls.specs.Sees.{StillOn};
ghost use Rattle.pilot_engine.specs.Outcomes.{FailsBy, IsSetUp, Remains, WritesFile, WritesNew};

use crate::Session;
use flat_machine::Reply;
use labelled_disk::{Disk, Halt};
use space_calls::{give_window, sync, take_window};
use space_tables::Shown;
use std::alloc::Allocator;
use table_calls::can_map;

impl<D: Disk, A: Allocator> Session<D, A> {
    // Takes the window of a space away, and an anonymous one's file with it. What was written is on the medium then.
    pub(crate) fn unmap(&mut self, space: u32) -> Result<Reply, Halt>
        requires set_up { IsSetUp self.old }
        ensures answers { (m : Machine) → Runs self.old.core self.old.volume m
            → Answers m (call.Unmap space) self.old self.new result }
        ensures synced { IfOk result (λ answer. answer ≡ reply.Done → (state self.new.core).disk.synced ≡ true) }
        ensures fails { FailsBy (UnmapHalts space self.old.core.intervals) self.old self.new result }
        ensures missing { (ss : List Space) → Sees (state self.old.core) (kept self.old.core) self.old.core.intervals ss
            → IfErr result (MissesPage (missing_page (call.Unmap space) ss)) }
        ensures accounts { (o : InitialState) → KeepsOn o self.old.core.filer → Accounts o o self.old self.new result }
        ensures windows { (o : InitialState) → KeepsOn o self.old.core.filer
            → OnOk result (StillOn self.old.core self.new.core) }
        ensures writes { WritesFile (call.Unmap space) SparesAll self.old self.new }
        ensures remains { Remains self.old self.new }
    {
        let shown = match take_window(&mut self.core, space) {
            Ok(Ok(shown)) => shown,
            Ok(Err(word)) => return Ok(Reply::Refused(word)),
            Err(halt) => return Err(halt),
        };
        if !shown.anonymous {
            return Ok(Reply::Done);
        }
        let done = match self.delete_unseen(shown.id, true) {
            Ok(done) => done,
            Err(halt) => return Err(halt),
        };
        match sync(&mut self.core) {
            Ok(()) => Ok(done),
            Err(halt) => Err(halt),
        }
    }

    // Shows a new file of zero pages in a space, of its size.
    pub(crate) fn map_anonymous(&mut self, space: u32) -> Result<Reply, Halt>
        requires set_up { IsSetUp self.old }
        ensures answers { (m : Machine) → Runs self.old.core self.old.volume m
            → Answers m (call.MapAnonymous space) self.old self.new result }
        ensures fails { FailsBy (MapNewHalts (next_id self.old.volume.root) self.old.core.intervals) self.old self.new
            result }
        ensures accounts { (o : InitialState) → KeepsOn o self.old.core.filer → IsNotOlder o self.old.volume.root
            → Accounts o (giving o (next_id self.new.volume.root)) self.old self.new result }
        ensures windows { ShowsMapped (call.MapAnonymous space) self.old self.new result }
        ensures writes { WritesNew (call.MapAnonymous space) self.old self.new result }
        ensures remains { Remains self.old self.new }
    {
        let run = match can_map(&mut self.core, space) {
            Ok(Ok(run)) => run,
            Ok(Err(word)) => return Ok(Reply::Refused(word)),
            Err(halt) => return Err(halt),
        };
        let made = match self.create(run.1, 0) {
            Ok(made) => made,
            Err(halt) => return Err(halt),
        };
        let id = match made {
            Reply::File(id) => id,
            _ => return Ok(made),
        };
        let shown = Shown {
            id,
            page: 0,
            writable: true,
            anonymous: true,
        };
        give_window(&mut self.core, space, shown)
    }
}
