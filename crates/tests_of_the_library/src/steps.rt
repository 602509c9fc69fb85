//! Calls of an engine. What they reply is a clause, so that they are carried out is all that is answered here.
use crate::client::Rows;
use embedded::Code;
use flat_machine::{Call, Reply};
use linked_list_allocator::LocalHeap;

fn done(reply: Result<Reply, Code>) -> Result<(), Code> {
    match reply {
        Ok(_) => Ok(()),
        Err(code) => Err(code),
    }
}

/// Calls that begin a session or restore a volume. `restore` makes it anew where it can't be restored.
pub(crate) fn on_volume<'a>(
    engine: &mut Rows<'a>,
    heap: &'a LocalHeap,
    verb: &str,
    numbers: [u32; 2],
) -> Result<(), Code> {
    let [first, second] = numbers;
    match verb {
        "format" => engine.format(first, second),
        "open" => engine.open(heap, first),
        _ => match engine.scavenge(heap) {
            Ok(_) => Ok(()),
            Err(_) if verb == "restore" => engine.format(7, 1),
            Err(code) => Err(code),
        },
    }
}

/// Calls on files, and those of the others.
pub(crate) fn on_files(engine: &mut Rows<'_>, call: &Call) -> Result<(), Code> {
    let reply = match call {
        Call::Create { pages, kind } => engine.create(*pages, *kind),
        Call::Delete { id } => engine.delete(*id),
        Call::Attributes { id } => engine.attributes(*id),
        Call::SetSize { id, pages } => engine.set_size(*id, *pages),
        Call::MakePermanent { id } => engine.make_permanent(*id),
        Call::MakeImmutable { id } => engine.make_immutable(*id),
        Call::Next { id } => engine.next(*id),
        Call::Volume => engine.volume(),
        Call::Close => return engine.close(),
        Call::Halt => return engine.abandon(),
        other => on_spaces(engine, other),
    };
    done(reply)
}

/// Calls on spaces.
fn on_spaces(engine: &mut Rows<'_>, call: &Call) -> Result<Reply, Code> {
    match call {
        Call::MakeSpace {
            parent,
            pages,
            first,
        } => engine.make_space(*parent, *pages, *first),
        Call::RemoveSpace { space } => engine.remove_space(*space),
        Call::Place { page } => engine.place(*page),
        Call::Units { space, pages } => engine.units(*space, *pages),
        Call::Map {
            space,
            id,
            page,
            writable,
        } => engine.map(*space, *id, *page, *writable),
        Call::MapAnonymous { space } => engine.map_anonymous(*space),
        Call::Unmap { space } => engine.unmap(*space),
        other => on_pages(engine, other),
    }
}

/// Calls on the pages that a space shows.
fn on_pages(engine: &mut Rows<'_>, call: &Call) -> Result<Reply, Code> {
    match call {
        Call::Protect { space, writable } => engine.protect(*space, *writable),
        Call::Activate { space } => engine.activate(*space),
        Call::Deactivate { space } => engine.deactivate(*space),
        Call::Kill { space } => engine.kill(*space),
        Call::ForceOut { space } => engine.force(*space),
        _ => Err(Code::Argument),
    }
}
