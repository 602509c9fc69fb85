//! One call of a client that brings in no page of a client's file.
ghost use Rattle.std.specs.Prelude.{◌≡◌, ◌≤◌, length, true, false, Ok, OnOk, OnErr};
ghost use Rattle.flat_machine.specs.After.{ends_trace};
ghost use Rattle.flat_machine.specs.Form.{IsInForm};
ghost use Rattle.flat_machine.specs.Machine.{Machine};
ghost use Rattle.flat_machine.specs.declared.call.Call.TheVariants as calls;
ghost use Rattle.flat_machine.specs.declared.call.Reply.TheVariants as reply;
ghost use Rattle.file_manager.specs.Creating.{next_id};
ghost use Rattle.file_manager.specs.Reasons.{KeepsOn, InitialState, IsNotOlder, giving};
ghost use Rattle.running_words.specs.Running.{Runs};
ghost use Rattle.pilot_engine.specs.Calls.{Accounts};
ghost use Rattle.pilot_engine.specs.Referring.{TakesCalls};
ghost use Rattle.pilot_engine.specs.Trying.{Tries, TriesIn, WritesLabels, replied_as, tried_as};
ghost use Rattle.pilot_engine.specs.Outcomes.{IsSetUp};

use crate::Session;
use fault_core::{Access, Attempt};
use flat_machine::{Call, Piece, Refusal, Reply};
use flight_core::Tried;
use labelled_disk::{Disk, Halt};
use space_calls::try_activate;
use std::alloc::Allocator;

// What an attempt to load comes to, with these bytes where they were moved. The answer is put together where it is given back.
fn loaded(attempt: Attempt, bytes: &[u8]) -> Result<Tried, Halt>
    requires few { length bytes.now ≤ 64 }
    ensures { result ≡ Ok (tried_as (reply.Bytes bytes.now) attempt) }
{
    match attempt {
        Attempt::Access(Access::Done) => Ok(Tried::Reply(Reply::Bytes(Piece::of(bytes)))),
        Attempt::Access(Access::NoMap(page)) => {
            Ok(Tried::Reply(Reply::Refused(Refusal::NoMap(page))))
        }
        Attempt::Access(Access::ReadOnly(page)) => {
            Ok(Tried::Reply(Reply::Refused(Refusal::ReadOnly(page))))
        }
        Attempt::Absent(page) => Ok(Tried::Absent(page)),
    }
}

// What an attempt comes to, with this reply where the bytes were moved.
fn outcome(attempt: Attempt, done: Reply) -> Tried
    ensures { result ≡ tried_as done attempt }
{
    match attempt {
        Attempt::Access(Access::Done) => Tried::Reply(done),
        Attempt::Access(Access::NoMap(page)) => Tried::Reply(Reply::Refused(Refusal::NoMap(page))),
        Attempt::Access(Access::ReadOnly(page)) => {
            Tried::Reply(Reply::Refused(Refusal::ReadOnly(page)))
        }
        Attempt::Absent(page) => Tried::Absent(page),
    }
}

// What a call comes to that was carried out.
fn replied(answer: Result<Reply, Halt>) -> Result<Tried, Halt>
    ensures { result ≡ replied_as answer }
{
    match answer {
        Ok(reply) => Ok(Tried::Reply(reply)),
        Err(halt) => Err(halt),
    }
}

impl<D: Disk, A: Allocator> Session<D, A> {
    /// Carries out a call that does not end the session, and brings in no page of a client's file. A load or a store of
    /// which a page is not resident does nothing, and gives the first such page; where a space is to be brought in, it is
    /// looked up.
    pub fn try_step(&mut self, call: &Call) -> Result<Tried, Halt>
        requires taken { TakesCalls self.old }
        requires more { ends_trace call.now ≡ false }
        requires in_form { IsInForm call.now }
        ensures machine { (m : Machine) → Runs self.old.core self.old.volume m
            → TriesIn m call.now self.old result self.new }
        ensures accounts { (o : InitialState) → KeepsOn o self.old.core.filer → IsNotOlder o self.old.volume.root
            → Accounts o (giving o (next_id self.new.volume.root)) self.old self.new result }
        ensures tries { Tries call.now self.old result self.new }
        ensures labels { WritesLabels call.now self.old result self.new }
        ensures goes_on { OnOk result (self.new.running ≡ true) }
        ensures halted { OnErr result (self.new.running ≡ false) }
    {
        let answer = self.try_answer(call);
        if answer.is_err() {
            self.running = false;
        }
        answer
    }

    fn try_answer(&mut self, call: &Call) -> Result<Tried, Halt>
        requires set_up { IsSetUp self.old }
        requires more { ends_trace call.now ≡ false }
        requires in_form { IsInForm call.now }
        ensures machine { (m : Machine) → Runs self.old.core self.old.volume m
            → TriesIn m call.now self.old result self.new }
        ensures accounts { (o : InitialState) → KeepsOn o self.old.core.filer → IsNotOlder o self.old.volume.root
            → Accounts o (giving o (next_id self.new.volume.root)) self.old self.new result }
        ensures tries { Tries call.now self.old result self.new }
        ensures labels { WritesLabels call.now self.old result self.new }
        ensures running { self.new.running ≡ self.old.running }
    {
        match call {
            Call::Load { address, count } => self.try_load(*address, *count),
            Call::Store { address, bytes } => self.try_store(*address, bytes.as_slice()),
            Call::Activate { space } => self.look_up(*space),
            _ => replied(self.answer(call)),
        }
    }

    // Loads where all pages of the reference are resident.
    fn try_load(&mut self, address: u32, count: u8) -> Result<Tried, Halt>
        requires set_up { IsSetUp self.old }
        requires some { 1 ≤ count }
        requires few { count ≤ 64 }
        ensures machine { (m : Machine) → Runs self.old.core self.old.volume m
            → TriesIn m (calls.Load address count) self.old result self.new }
        ensures accounts { (o : InitialState) → KeepsOn o self.old.core.filer → IsNotOlder o self.old.volume.root
            → Accounts o (giving o (next_id self.new.volume.root)) self.old self.new result }
        ensures tries { Tries (calls.Load address count) self.old result self.new }
        ensures labels { WritesLabels (calls.Load address count) self.old result self.new }
        ensures running { self.new.running ≡ self.old.running }
    {
        let mut room = [0; 64];
        let bytes = &mut room[..usize::from(count)];
        match self.core.try_load(address, bytes) {
            Ok(attempt) => loaded(attempt, bytes),
            Err(halt) => Err(halt),
        }
    }

    // Stores where all pages of the reference are resident.
    fn try_store(&mut self, address: u32, bytes: &[u8]) -> Result<Tried, Halt>
        requires set_up { IsSetUp self.old }
        requires some { 1 ≤ length bytes.now }
        requires few { length bytes.now ≤ 64 }
        ensures machine { (m : Machine) → Runs self.old.core self.old.volume m
            → TriesIn m (calls.Store address bytes.now) self.old result self.new }
        ensures accounts { (o : InitialState) → KeepsOn o self.old.core.filer → IsNotOlder o self.old.volume.root
            → Accounts o (giving o (next_id self.new.volume.root)) self.old self.new result }
        ensures tries { Tries (calls.Store address bytes.now) self.old result self.new }
        ensures labels { WritesLabels (calls.Store address bytes.now) self.old result self.new }
        ensures running { self.new.running ≡ self.old.running }
    {
        match self.core.try_store(address, bytes) {
            Ok(attempt) => Ok(outcome(attempt, Reply::Done)),
            Err(halt) => Err(halt),
        }
    }

    // Looks up a space that is to be brought in.
    fn look_up(&mut self, space: u32) -> Result<Tried, Halt>
        requires set_up { IsSetUp self.old }
        ensures machine { (m : Machine) → Runs self.old.core self.old.volume m
            → TriesIn m (calls.Activate space) self.old result self.new }
        ensures accounts { (o : InitialState) → KeepsOn o self.old.core.filer → IsNotOlder o self.old.volume.root
            → Accounts o (giving o (next_id self.new.volume.root)) self.old self.new result }
        ensures tries { Tries (calls.Activate space) self.old result self.new }
        ensures labels { WritesLabels (calls.Activate space) self.old result self.new }
        ensures running { self.new.running ≡ self.old.running }
    {
        replied(try_activate(&mut self.core, space))
    }
}
