//! Files that are deleted.
ghost use Rattle.std.specs.Prelude.{◌≡◌, ◌+◌, ◌*◌, ◌^◌, ◌≤◌, true, ◌&&◌, IfErr, IfSome, IsFalse, None};
ghost use Rattle.labelled_disk.specs.File.{file_at};
ghost use Rattle.labelled_disk.specs.declared.evidence.Halt.TheVariants as halt;
ghost use Rattle.flat_machine.specs.declared.call.Call.TheVariants as call;
ghost use Rattle.file_map.specs.FileMap.{most_records};
ghost use Rattle.flat_machine.specs.Machine.{Machine};
ghost use Rattle.pilot_engine.specs.Sparing.{SparesAll, SparesBut};
ghost use Rattle.label_calls.specs.Synced.{SyncsLeaders};
ghost use Rattle.session_words.specs.Parts.{TablesMeaning};
ghost use Rattle.flat_machine.specs.Refusal.{file_mapped};
ghost use Rattle.fault_core.specs.Core.{state};
ghost use Rattle.running_words.specs.Running.{Runs};
ghost use Rattle.pilot_engine.specs.Seen.{CostsInside};
ghost use Rattle.space_calls.specs.Halts.{OnFileHalts, OnNamedHalts};
ghost use Rattle.pilot_engine.specs.Halting.{RemoveHalts};
ghost use Rattle.pilot_engine.specs.Calls.{Answers};
ghost use Rattle.pilot_engine.specs.Outcomes.{AccountsOn, AnswersIn, FailsBy, IsIn, IsSetUp, Remains, RemainsInside, WritesFile};

use crate::Session;
use crate::sight::Sight;
use file_manager::attributes_of;
use flat_machine::{Refusal, Reply};
use labelled_disk::{Disk, FileId, Halt};
use std::alloc::Allocator;

// Whether a file stays, though its window was taken away: no anonymous file is permanent.
fn is_kept(anonymous: bool, permanent: bool) -> bool
    ensures { result ≡ (anonymous && permanent) }
{
    anonymous && permanent
}

impl<D: Disk, A: Allocator> Session<D, A> {
    // Removes a file that no window shows: an anonymous one unless it is permanent.
    pub(crate) fn delete_unseen(&mut self, id: FileId, anonymous: bool) -> Result<Reply, Halt>
        requires set_up { IsSetUp self.old }
        ensures answers { (spaces_of : TablesMeaning) (m : Machine) → IsIn spaces_of self.old m
            → file_mapped m id (λ w. true) ≡ None
            → (anonymous ≡ true → IfSome (file_at m.files id) (λ f. IsFalse f.permanent))
            → AnswersIn spaces_of m (call.Delete id) self.old self.new result }
        ensures sound { (spaces_of : TablesMeaning) (m : Machine) → IsIn spaces_of self.old m
            → file_mapped m id (λ w. true) ≡ None
            → (anonymous ≡ true → IfSome (file_at m.files id) (λ f. IsFalse f.permanent))
            → IfErr result (λ e. e ≡ halt.Disk) }
        ensures fails { FailsBy (OnFileHalts id (RemoveHalts id)) self.old self.new result }
        ensures accounts { AccountsOn self.old self.new result }
        ensures writes { WritesFile (call.Delete id) (SparesBut id) self.old self.new }
        ensures remains { RemainsInside self.old self.new }
        ensures cost { (state self.new.core).disk.transfers ≤ (state self.old.core).disk.transfers
            + (43 + 2 ^ 32 * (16 + 4 * (state self.old.core).layout.vam) + 2
            * (1 + 51 * most_records (state self.old.core).layout.sectors)) }
        ensures bounded { (spaces_of : TablesMeaning) (m : Machine) → IsIn spaces_of self.old m
            → CostsInside (state self.old.core).disk (state self.new.core).disk }
        ensures lasting { anonymous ≡ true → SparesAll (state self.old.core).disk (state self.new.core).disk }
        ensures around { SyncsLeaders result (state self.old.core).disk (state self.new.core).disk }
    {
        let found = match attributes_of(&mut self.core.filer, id) {
            Ok(Some(found)) => found,
            Ok(None) => return Ok(Reply::Refused(Refusal::File)),
            Err(halt) => return Err(halt),
        };
        if is_kept(anonymous, found.permanent) {
            return Ok(Reply::Refused(Refusal::File));
        }
        match file_manager::delete(&mut self.core.filer, &mut self.volume, id) {
            Ok(()) => Ok(Reply::Done),
            Err(halt) => Err(halt),
        }
    }

    // Removes a file, unless a window shows it.
    pub(crate) fn delete(&mut self, id: FileId) -> Result<Reply, Halt>
        requires set_up { IsSetUp self.old }
        ensures answers { (m : Machine) → Runs self.old.core self.old.volume m
            → Answers m (call.Delete id) self.old self.new result }
        ensures fails { FailsBy (OnNamedHalts id self.old.core.intervals (RemoveHalts id)) self.old self.new result }
        ensures accounts { AccountsOn self.old self.new result }
        ensures writes { WritesFile (call.Delete id) (SparesBut id) self.old self.new }
        ensures remains { Remains self.old self.new }
        ensures around { SyncsLeaders result (state self.old.core).disk (state self.new.core).disk }
    {
        let seen = match self.sight(id) {
            Ok(Sight::Hidden) => return Ok(Reply::Refused(Refusal::File)),
            Ok(Sight::By(seen)) => seen,
            Err(halt) => return Err(halt),
        };
        match seen {
            Some(handle) => return Ok(Reply::Refused(Refusal::FileMapped(handle))),
            None => (),
        }
        self.delete_unseen(id, false)
    }
}
