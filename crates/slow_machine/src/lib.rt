//! A plain machine of lists: it answers each call as the definitions of the flat machine say.
#![tactic(auto)]

mod answer;
mod change;
mod files;
mod gap;
mod kill;
mod look;
mod refuse;
mod rows;
mod spaces;
mod stored;
mod unforced;
mod window;

use flat_machine::{Call, FilePage, Reply, Space};
use labelled_disk::NoMemory;
use std::alloc::{AllocError, Allocator};
use std::marker::Model;
use stored::StoredFile;

/// A machine that keeps its files, its spaces and the unforced pages as lists, for tests.
#[derive(Drop)]
pub struct SlowMachine<A: Allocator> {
    alloc: A,
    files: Vec<StoredFile<A>, A>,
    spaces: Vec<Space, A>,
    unforced: Vec<FilePage, A>,
    serial: u32,
    counter: u32,
    capacity: u32,
}

impl<A: Allocator> Model for SlowMachine<A> {
    ghost use Rattle.std.specs.Prelude.{◌≤◌};
    ghost use Rattle.labelled_disk.specs.Ascending.{AreAscending};
    ghost use Rattle.flat_machine.specs.File.{total_room};
    ghost use Rattle.slow_machine.specs.Lists.{AreSpaces};
    ghost use Rattle.flat_machine.specs.Machine.{Machine};

    ghost Value = { Machine };

    ghost view = { λ a. record { files = a.files.items; spaces = a.spaces.items; serial = a.serial; counter = a.counter; capacity = a.capacity; unforced = a.unforced.items } };

    ghost invariant = { λ a. (total_room a.files.items ≤ a.capacity) × AreAscending a.files.items × AreSpaces a.spaces.items };
}

impl<A: Allocator + Clone> SlowMachine<A> {
    ghost use Rattle.std.specs.Prelude.{◌≡◌, IfOk, OnErr, None};
    ghost use Rattle.flat_machine.specs.Form.{IsInForm};
    ghost use Rattle.flat_machine.specs.Refusal.{refusal};
    ghost use Rattle.flat_machine.specs.Next.{next, change};
    ghost use Rattle.flat_machine.specs.Allows.{plain_reply, reply_of};
    ghost use Rattle.flat_machine.specs.Start.{opened};

    /// A machine without files. Serial and counter are at least 1; the capacity is in sectors.
    pub fn new(
        alloc: A,
        serial: u32,
        counter: u32,
        capacity: u32,
    ) -> Result<SlowMachine<A>, NoMemory>
        ensures { IfOk result (λ m. m ≡ opened serial counter capacity) }
    {
        let files = Vec::new(alloc.clone().map_err(|_| NoMemory)?);
        let unforced = Vec::new(alloc.clone().map_err(|_| NoMemory)?);
        let mut spaces = Vec::new(alloc.clone().map_err(|_| NoMemory)?);
        spaces.push(spaces::root()).map_err(|_| NoMemory)?;
        Ok(SlowMachine {
            alloc,
            files,
            spaces,
            unforced,
            serial,
            counter,
            capacity,
        })
    }

    /// What an unrefused call does and answers.
    fn carry_out(&mut self, call: &Call) -> Result<Reply, AllocError>
        requires in_form { IsInForm call.now }
        requires unrefused { refusal self.old call.now ≡ None }
        ensures ok { IfOk result (λ r. (r ≡ plain_reply self.old call.now) × (self.new ≡ change self.old call.now)) }
        ensures err { OnErr result (self.new ≡ self.old) }
    {
        match call {
            Call::Create { pages, kind } => return self.create(*pages, *kind),
            Call::Delete { id } => self.delete(*id),
            Call::Attributes { id } => return Ok(self.attributes(*id)),
            Call::SetSize { id, pages } => self.set_size(*id, *pages)?,
            Call::MakePermanent { id } => self.make_permanent(*id),
            Call::MakeImmutable { id } => self.make_immutable(*id),
            Call::Next { id } => return Ok(self.next_file(*id)),
            Call::Volume => return Ok(self.volume()),
            Call::MakeSpace {
                parent,
                pages,
                first,
            } => return self.make_space(*parent, *pages, *first),
            Call::RemoveSpace { space } => self.remove_space(*space),
            Call::Place { page } => return Ok(self.place(*page)),
            Call::Units { space, pages } => self.set_unit(*space, *pages as u8),
            Call::Map {
                space,
                id,
                page,
                writable,
            } => self.map(*space, *id, *page, *writable),
            Call::MapAnonymous { space } => self.map_anonymous(*space)?,
            Call::Unmap { space } => self.unmap(*space),
            Call::Protect { space, writable } => self.protect(*space, *writable),
            Call::Load { address, count } => {
                return Ok(Reply::Bytes(self.bytes_at(*address, *count)))
            }
            Call::Store { address, bytes } => self.store(*address, bytes)?,
            Call::Activate { .. } | Call::Deactivate { .. } | Call::Halt => {}
            Call::Kill { space } => self.kill(*space),
            Call::ForceOut { space } => self.force_out(*space),
            Call::Close => self.close(),
        }
        Ok(Reply::Done)
    }

    /// The reply to a call, with 0 for bytes that may be any. After running out of memory the machine is
    /// as before.
    #[tactic(auto, using(crate::proofs::StepLemmas::refused_step, crate::proofs::StepLemmas::unrefused_step))]
    pub fn step(&mut self, call: &Call) -> Result<Reply, NoMemory>
        requires { IsInForm call.now }
        ensures ok { IfOk result (λ r. (r ≡ reply_of self.old call.now) × (self.new ≡ next self.old call.now)) }
        ensures err { OnErr result (self.new ≡ self.old) }
    {
        if let Some(word) = self.refusal(call) {
            return Ok(Reply::Refused(word));
        }
        match self.carry_out(call) {
            Ok(reply) => Ok(reply),
            Err(_want) => Err(NoMemory),
        }
    }
}
