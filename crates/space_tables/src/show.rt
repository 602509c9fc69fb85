//! Which space shows a file.
ghost use Rattle.std.specs.Prelude.{◌≡◌, ℕ, ◌+◌, ◌*◌, ◌≤◌, true, List, Option, IfOk, IfErr, IfSome};
ghost use Rattle.flat_machine.specs.declared.space.Space.{Space};
ghost use Rattle.space_tables.specs.Form.{BreaksHierarchy};
ghost use Rattle.space_tables.specs.Answer.{FromMemory, NotRefused, IfMem, IfMalformed};
ghost use Rattle.space_tables.specs.Looks.{Looks};
ghost use Rattle.space_tables.specs.Shows.{shows, IsFirstWith, IsShownAt};
ghost use Rattle.space_tables.specs.Stored.{RevealSpaces};

use crate::SpaceError;
use crate::handles::{Sought, named_handles};
use crate::scan::{Test, find_space};
use crate::shown::{Shown, shown_in};
use flat_mem::FlatMem;
use labelled_disk::FileId;

/// The first space that shows a file, by its handle, and what it shows.
pub fn showing<M: FlatMem>(
    mem: &mut M,
    count: u32,
    id: FileId,
    writable_only: bool,
) -> Result<Option<(u32, Shown)>, SpaceError<M::Error>>
    requires size { 49152 ≤ M.size mem.old }
    requires few { count ≤ 1023 }
    ensures answer { (ss : List Space) → RevealSpaces (M.reveals mem.old) count ss
        → IfOk result (IsFirstWith (shows id writable_only) ss) }
    ensures right { (ss : List Space) → RevealSpaces (M.reveals mem.old) count ss
        → IfErr result FromMemory }
    ensures form { IfOk result
        (λ o. IfSome o (λ at. (16 ≤ at.1.id) × (at.1.id ≡ id) × (writable_only ≡ true → at.1.writable ≡ true))) }
    ensures read { (b : List ℕ) → M.reveals mem.old b → IfOk result (λ o. IfSome o (λ at. IsShownAt b at.0 at.1)) }
    ensures malformed { (b : List ℕ) → M.reveals mem.old b → IfErr result (IfMalformed (BreaksHierarchy b)) }
    ensures refused { IfErr result NotRefused }
    ensures looks { Looks M.FlatMem (512 * M.cost) mem.old mem.new result }
{
    let handles = named_handles(mem, 0, count, &Sought::Showing(id))?;
    let Some(found) = find_space(mem, &handles, &Test::Shows(id, writable_only))? else {
        return Ok(None);
    };
    match found.window {
        Some(window) => Ok(Some((found.handle, shown_in(window)))),
        None => Ok(None),
    }
}
