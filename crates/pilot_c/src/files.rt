//! Calls on files and the volume.
ghost use Rattle.pilot_c.specs.Answers.{HasNumber, HasNumbers};

use crate::answers::{number, reply_with};
use crate::{Pilot, Reply};
use flat_machine::Call;

/// Makes a temporary file of so many zero pages.
#[unsafe(no_mangle)]
pub extern "C" fn pilot_create(pilot: &mut Pilot, pages: u32, kind: u16, reply: &mut Reply) -> i32
    ensures { HasNumbers (Call.Create pages kind) pilot.old.value.engine result reply.new pilot.new.value.engine }
{
    reply_with(pilot.engine().engine.create(pages, kind), reply)
}

/// Removes a file.
#[unsafe(no_mangle)]
pub extern "C" fn pilot_delete(pilot: &mut Pilot, file: u64, reply: &mut Reply) -> i32
    ensures { HasNumbers (Call.Delete file) pilot.old.value.engine result reply.new pilot.new.value.engine }
{
    reply_with(pilot.engine().engine.delete(file), reply)
}

/// Asks for the attributes of a file.
#[unsafe(no_mangle)]
pub extern "C" fn pilot_attributes(pilot: &mut Pilot, file: u64, reply: &mut Reply) -> i32
    ensures { HasNumbers (Call.Attributes file) pilot.old.value.engine result reply.new pilot.new.value.engine }
{
    reply_with(pilot.engine().engine.attributes(file), reply)
}

/// Cuts a file, or appends zero pages to it.
#[unsafe(no_mangle)]
pub extern "C" fn pilot_setsize(pilot: &mut Pilot, file: u64, pages: u32, reply: &mut Reply) -> i32
    ensures { HasNumbers (Call.SetSize file pages) pilot.old.value.engine result reply.new pilot.new.value.engine }
{
    reply_with(pilot.engine().engine.set_size(file, pages), reply)
}

/// Lets a file outlast the session.
#[unsafe(no_mangle)]
pub extern "C" fn pilot_permanent(pilot: &mut Pilot, file: u64) -> i32
    ensures { HasNumber (Call.MakePermanent file) pilot.old.value.engine result pilot.new.value.engine }
{
    number(&pilot.engine().engine.make_permanent(file))
}

/// Lets nobody write to a file again.
#[unsafe(no_mangle)]
pub extern "C" fn pilot_immutable(pilot: &mut Pilot, file: u64, reply: &mut Reply) -> i32
    ensures { HasNumbers (Call.MakeImmutable file) pilot.old.value.engine result reply.new pilot.new.value.engine }
{
    reply_with(pilot.engine().engine.make_immutable(file), reply)
}

/// Asks for the file with the least identifier above this one.
#[unsafe(no_mangle)]
pub extern "C" fn pilot_next(pilot: &mut Pilot, file: u64, reply: &mut Reply) -> i32
    ensures { HasNumbers (Call.Next file) pilot.old.value.engine result reply.new pilot.new.value.engine }
{
    reply_with(pilot.engine().engine.next(file), reply)
}

/// Asks for the capacity, and for what is free of it.
#[unsafe(no_mangle)]
pub extern "C" fn pilot_volume(pilot: &mut Pilot, reply: &mut Reply) -> i32
    ensures { HasNumbers Call.Volume pilot.old.value.engine result reply.new pilot.new.value.engine }
{
    reply_with(pilot.engine().engine.volume(), reply)
}
