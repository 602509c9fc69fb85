//! Calls on spaces.
ghost use Rattle.std.specs.Prelude.{Some, None};
ghost use Rattle.pilot_c.specs.Answers.{HasNumber, HasNumbers};

use crate::answers::{number, reply_with};
use crate::{Pilot, Reply};
use flat_machine::Call;

/// Makes a space inside its parent, in the lowest gap that is long enough.
#[unsafe(no_mangle)]
pub extern "C" fn pilot_space(pilot: &mut Pilot, parent: u32, pages: u32, reply: &mut Reply) -> i32
    ensures { HasNumbers (Call.MakeSpace parent pages None)
        pilot.old.value.engine result reply.new pilot.new.value.engine }
{
    reply_with(pilot.engine().engine.make_space(parent, pages, None), reply)
}

/// Makes a space inside its parent, at a page.
#[unsafe(no_mangle)]
pub extern "C" fn pilot_space_at(
    pilot: &mut Pilot,
    parent: u32,
    pages: u32,
    first: u32,
    reply: &mut Reply,
) -> i32
    ensures { HasNumbers (Call.MakeSpace parent pages (Some first))
        pilot.old.value.engine result reply.new pilot.new.value.engine }
{
    reply_with(
        pilot.engine().engine.make_space(parent, pages, Some(first)),
        reply,
    )
}

/// Removes a space.
#[unsafe(no_mangle)]
pub extern "C" fn pilot_remove(pilot: &mut Pilot, space: u32, reply: &mut Reply) -> i32
    ensures { HasNumbers (Call.RemoveSpace space) pilot.old.value.engine result reply.new pilot.new.value.engine }
{
    reply_with(pilot.engine().engine.remove_space(space), reply)
}

/// Asks for the innermost space at a page.
#[unsafe(no_mangle)]
pub extern "C" fn pilot_where(pilot: &mut Pilot, page: u32, reply: &mut Reply) -> i32
    ensures { HasNumbers (Call.Place page) pilot.old.value.engine result reply.new pilot.new.value.engine }
{
    reply_with(pilot.engine().engine.place(page), reply)
}

/// Sets the number of pages that are swapped together.
#[unsafe(no_mangle)]
pub extern "C" fn pilot_units(pilot: &mut Pilot, space: u32, pages: u32) -> i32
    ensures { HasNumber (Call.Units space pages) pilot.old.value.engine result pilot.new.value.engine }
{
    number(&pilot.engine().engine.units(space, pages))
}

/// Shows a file in a space, from this page of the file on.
#[unsafe(no_mangle)]
pub extern "C" fn pilot_map(
    pilot: &mut Pilot,
    space: u32,
    file: u64,
    page: u32,
    writable: bool,
    reply: &mut Reply,
) -> i32
    ensures { HasNumbers (Call.Map space file page writable)
        pilot.old.value.engine result reply.new pilot.new.value.engine }
{
    reply_with(
        pilot.engine().engine.map(space, file, page, writable),
        reply,
    )
}

/// Shows a new file that no other call can name.
#[unsafe(no_mangle)]
pub extern "C" fn pilot_mapdata(pilot: &mut Pilot, space: u32, reply: &mut Reply) -> i32
    ensures { HasNumbers (Call.MapAnonymous space) pilot.old.value.engine result reply.new pilot.new.value.engine }
{
    reply_with(pilot.engine().engine.map_anonymous(space), reply)
}

/// Takes the window of a space away.
#[unsafe(no_mangle)]
pub extern "C" fn pilot_unmap(pilot: &mut Pilot, space: u32) -> i32
    ensures { HasNumber (Call.Unmap space) pilot.old.value.engine result pilot.new.value.engine }
{
    number(&pilot.engine().engine.unmap(space))
}

/// Makes the window of a space writable or read-only.
#[unsafe(no_mangle)]
pub extern "C" fn pilot_protect(pilot: &mut Pilot, space: u32, writable: bool) -> i32
    ensures { HasNumber (Call.Protect space writable) pilot.old.value.engine result pilot.new.value.engine }
{
    number(&pilot.engine().engine.protect(space, writable))
}

/// Advises that the pages of a space will be used soon.
#[unsafe(no_mangle)]
pub extern "C" fn pilot_activate(pilot: &mut Pilot, space: u32) -> i32
    ensures { HasNumber (Call.Activate space) pilot.old.value.engine result pilot.new.value.engine }
{
    number(&pilot.engine().engine.activate(space))
}

/// Advises that the pages of a space will not be used soon.
#[unsafe(no_mangle)]
pub extern "C" fn pilot_deactivate(pilot: &mut Pilot, space: u32) -> i32
    ensures { HasNumber (Call.Deactivate space) pilot.old.value.engine result pilot.new.value.engine }
{
    number(&pilot.engine().engine.deactivate(space))
}

/// Advises that the contents of a space will not be wanted.
#[unsafe(no_mangle)]
pub extern "C" fn pilot_kill(pilot: &mut Pilot, space: u32) -> i32
    ensures { HasNumber (Call.Kill space) pilot.old.value.engine result pilot.new.value.engine }
{
    number(&pilot.engine().engine.kill(space))
}

/// Makes the files hold what the space holds.
#[unsafe(no_mangle)]
pub extern "C" fn pilot_force(pilot: &mut Pilot, space: u32) -> i32
    ensures { HasNumber (Call.ForceOut space) pilot.old.value.engine result pilot.new.value.engine }
{
    number(&pilot.engine().engine.force(space))
}
