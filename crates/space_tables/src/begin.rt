//! The tables of the root alone.
ghost use Rattle.std.specs.Prelude.{ℕ, ◌+◌, ◌*◌, ◌≤◌, List, [], ◌∷◌, IfErr, OnOk};
ghost use Rattle.flat_machine.specs.Space.{root};
ghost use Rattle.space_tables.specs.Answer.{FromMemory, IfMem};
ghost use Rattle.space_tables.specs.Stored.{HoldTables, RevealSpaces};
ghost use Rattle.space_tables.specs.Begin.{root_interval, bare_slots};

use crate::SpaceError;
use crate::code::{interval_bytes, space_bytes};
use crate::records::{put_slot, store};
use flat_machine::Space;
use flat_mem::FlatMem;
use swap_units::{Interval, Mode, ROOT_PAGES};

// Writes that no space stands at any handle, and the interval of the root.
fn clear<M: FlatMem>(mem: &mut M) -> Result<(), SpaceError<M::Error>>
    requires size { 49152 ≤ M.size mem.old }
    ensures cleared { (b : List ℕ) → M.reveals mem.old b
        → OnOk result (HoldTables (M.reveals mem.new) (bare_slots 512) (root_interval ∷ [])) }
    ensures memory { IfErr result FromMemory }
    ensures kept { M.beside mem.old mem.new }
    ensures cause { IfErr result (IfMem (M.accounted mem.old mem.new)) }
    ensures cost { M.spent mem.new ≤ M.spent mem.old + 513 * M.cost }
{
    let root = Interval {
        first: 0,
        pages: ROOT_PAGES,
        space: 0,
        unit: 16,
        mode: Mode::Unmapped,
        start: 0,
        id: 0,
        page: 0,
        mapped: 0,
    };
    store(mem, 512, &interval_bytes(&root))?;
    let mut handle = 0;
    'clearing: while handle < 512 {
        store(mem, handle, &[0; 32])?;
        handle += 1;
    }
    Ok(())
}

/// Sets up the root, over any bytes.
pub fn begin<M: FlatMem>(mem: &mut M) -> Result<(), SpaceError<M::Error>>
    requires size { 49152 ≤ M.size mem.old }
    ensures begun { (b : List ℕ) → M.reveals mem.old b → OnOk result (RevealSpaces (M.reveals mem.new) 1 (root ∷ [])) }
    ensures memory { IfErr result FromMemory }
    ensures kept { M.beside mem.old mem.new }
    ensures cause { IfErr result (IfMem (M.accounted mem.old mem.new)) }
    ensures cost { M.spent mem.new ≤ M.spent mem.old + 514 * M.cost }
{
    clear(mem)?;
    let root = Space {
        handle: 0,
        parent: 0,
        first: 0,
        pages: ROOT_PAGES,
        unit: 16,
        window: None,
    };
    put_slot(mem, 0, &space_bytes(&root))
}
