//! Files that get another size.
ghost use Rattle.std.specs.Prelude.{◌≡◌, ◌+◌, ◌-◌, ◌*◌, ◌<◌, ◌≤◌, ◌&&◌, true, nat_le, IfErr, None, Some};
ghost use Rattle.labelled_disk.specs.File.{File, file_at};
ghost use Rattle.labelled_disk.specs.Label.{is_file_id};
ghost use Rattle.labelled_disk.specs.declared.evidence.Halt.TheVariants as halt;
ghost use Rattle.flat_machine.specs.declared.call.Call.TheVariants as call;
ghost use Rattle.file_map.specs.FileMap.{most_records};
ghost use Rattle.flat_machine.specs.Machine.{Machine};
ghost use Rattle.pilot_engine.specs.Sparing.{SparesBut};
ghost use Rattle.session_words.specs.Parts.{TablesMeaning};
ghost use Rattle.fault_core.specs.Core.{state};
ghost use Rattle.running_words.specs.Running.{Runs};
ghost use Rattle.pilot_engine.specs.Seen.{CostsInside, IsSeenBy};
ghost use Rattle.space_calls.specs.Halts.{OnFileHalts, OnNamedHalts};
ghost use Rattle.pilot_engine.specs.Halting.{SizeHalts};
ghost use Rattle.file_manager.specs.Synced.{LabelsAfterSync};
ghost use Rattle.pilot_engine.specs.Calls.{Answers};
ghost use Rattle.pilot_engine.specs.Outcomes.{AccountsOn, AnswersIn, FailsBy, IsIn, IsSetUp, Remains, RemainsInside, WritesFile};

use crate::Session;
use crate::sight::Sight;
use file_manager::{Volume, attributes_of};
use flat_machine::{Refusal, Reply};
use labelled_disk::{Disk, FileId, Halt};
use std::alloc::Allocator;

// Whether a file may have this identifier.
fn may_be_file(id: FileId) -> bool
    ensures { result ≡ is_file_id id }
{
    id >= 16 && id % 0x1_0000_0000 != 0xffff_ffff
}

// Whether a file that has so many pages may have so many, beside all others.
fn has_room(volume: Volume, found: u32, pages: u32) -> bool
    requires room { volume.used ≤ volume.layout.capacity }
    ensures { result
        ≡ (nat_le pages volume.layout.capacity && nat_le (volume.used + pages - found) volume.layout.capacity) }
{
    let capacity = volume.layout.capacity;
    pages <= capacity && pages.saturating_sub(found) <= capacity - volume.used
}

// The space that keeps a file of so many pages from getting so many, where one shows it.
fn held(seen: Option<u32>, found: u32, pages: u32) -> Option<u32>
    ensures cut { pages < found → result ≡ seen }
    ensures grown { found ≤ pages → result ≡ None }
{
    if pages < found { seen } else { None }
}

impl<D: Disk, A: Allocator> Session<D, A> {
    // Gives a file that may be named so many pages: others of zeros after those that it has, or the first of them alone. It is
    // not cut where the window of a space shows it.
    fn resize(&mut self, id: FileId, pages: u32, seen: Option<u32>) -> Result<Reply, Halt>
        requires set_up { IsSetUp self.old }
        ensures answers { (spaces_of : TablesMeaning) (m : Machine) → IsIn spaces_of self.old m → IsSeenBy m id seen
            → AnswersIn spaces_of m (call.SetSize id pages) self.old self.new result }
        ensures sound { (spaces_of : TablesMeaning) (m : Machine) → IsIn spaces_of self.old m
            → IsSeenBy m id seen → IfErr result (λ e. e ≡ halt.Disk) }
        ensures fails { FailsBy (OnFileHalts id (SizeHalts id pages)) self.old self.new result }
        ensures accounts { AccountsOn self.old self.new result }
        ensures writes { WritesFile (call.SetSize id pages) (SparesBut id) self.old self.new }
        ensures remains { RemainsInside self.old self.new }
        ensures cost { (state self.new.core).disk.transfers ≤ (state self.old.core).disk.transfers
            + (158 + 4294967295 * (8 * (state self.old.core).layout.vam + 101) + 102 * most_records
            (state self.old.core).layout.sectors) }
        ensures bounded { (spaces_of : TablesMeaning) (m : Machine) → IsIn spaces_of self.old m
            → CostsInside (state self.old.core).disk (state self.new.core).disk }
        ensures after_sync { (spaces_of : TablesMeaning) (m : Machine) (f : File) → IsIn spaces_of self.old m
            → file_at m.files id ≡ Some f → f.permanent ≡ true
            → LabelsAfterSync (state self.old.core).disk (state self.new.core).disk }
    {
        if !may_be_file(id) {
            return Ok(Reply::Refused(Refusal::File));
        }
        let found = match attributes_of(&mut self.core.filer, id) {
            Ok(Some(found)) => found,
            Ok(None) => return Ok(Reply::Refused(Refusal::File)),
            Err(halt) => return Err(halt),
        };
        if found.immutable {
            return Ok(Reply::Refused(Refusal::Immutable));
        }
        match held(seen, found.pages, pages) {
            Some(handle) => return Ok(Reply::Refused(Refusal::FileMapped(handle))),
            None => (),
        }
        if !has_room(self.volume, found.pages, pages) {
            return Ok(Reply::Refused(Refusal::Full));
        }
        match file_manager::set_size(&mut self.core.filer, &mut self.volume, id, pages) {
            Ok(()) => Ok(Reply::Done),
            Err(halt) => Err(halt),
        }
    }

    // Gives a file so many pages, unless that cuts what a window shows.
    pub(crate) fn set_size(&mut self, id: FileId, pages: u32) -> Result<Reply, Halt>
        requires set_up { IsSetUp self.old }
        ensures answers { (m : Machine) → Runs self.old.core self.old.volume m
            → Answers m (call.SetSize id pages) self.old self.new result }
        ensures fails { FailsBy (OnNamedHalts id self.old.core.intervals (SizeHalts id pages)) self.old self.new
            result }
        ensures accounts { AccountsOn self.old self.new result }
        ensures writes { WritesFile (call.SetSize id pages) (SparesBut id) self.old self.new }
        ensures remains { Remains self.old self.new }
        ensures after_sync { (m : Machine) (f : File) → Runs self.old.core self.old.volume m
            → file_at m.files id ≡ Some f → f.permanent ≡ true
            → LabelsAfterSync (state self.old.core).disk (state self.new.core).disk }
    {
        match self.sight(id) {
            Ok(Sight::Hidden) => Ok(Reply::Refused(Refusal::File)),
            Ok(Sight::By(seen)) => self.resize(id, pages, seen),
            Err(halt) => Err(halt),
        }
    }
}
