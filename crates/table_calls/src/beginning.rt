//! The space tables of a session that begins.
ghost use Rattle.std.specs.Prelude.{◌≡◌, ◌≤◌, ◌+◌, ℕ, List, [], ◌∷◌, IfErr, OnOk};
ghost use Rattle.labelled_disk.specs.declared.evidence.Halt.TheVariants as halt;
ghost use Rattle.labelled_disk.specs.Sectors.{Sector};
ghost use Rattle.file_map.specs.FileMap.{Triples};
ghost use Rattle.flat_machine.specs.Space.{root};
ghost use Rattle.space_tables.specs.Answer.{FromMemory, IfMem};
ghost use Rattle.space_tables.specs.Stored.{RevealSpaces};
ghost use Rattle.filer_kernel.specs.Tables.{IsTableAccounted};
ghost use Rattle.fault_core.specs.Reach.{ReachHalts, BringsOwn};
ghost use Rattle.fault_core.specs.Lack.{Sees};
ghost use Rattle.fault_core.specs.NeverBlames.{NeverBlamesTables};
ghost use Rattle.fault_core.specs.Revealed.{Known};
ghost use Rattle.filer_kernel.specs.View.{FitsLayout, TablesAre, TablesBeside, view_of};

use filer_kernel::{Filer, TableMemory};
use labelled_disk::{Disk, Halt};
use space_tables::{SpaceError, SpaceTables};
use std::alloc::Allocator;

// Begins the tables that stand in a filer's space tables.
fn begin_in<D: Disk, A: Allocator>(filer: &mut Filer<D, A>) -> Result<(), SpaceError<Halt>>
    requires size { FitsLayout (view_of filer.old) }
    ensures begun { (b : List ℕ) → TablesAre (view_of filer.old) b
        → OnOk result (RevealSpaces (TablesAre (view_of filer.new)) 1 (root ∷ [])) }
    ensures memory { IfErr result FromMemory }
    ensures cause { IfErr result
        (IfMem
        (IsTableAccounted (view_of filer.old).disk (view_of filer.old).slots (view_of filer.old).layout
        (view_of filer.old).runs (view_of filer.new).disk)) }
    ensures kept { TablesBeside (view_of filer.old) (view_of filer.new) }
    ensures cost { (view_of filer.new).disk.transfers ≤ (view_of filer.old).disk.transfers + 14392 }
{
    let mut window = filer.table_memory();
    SpaceTables::<TableMemory<D, A>>::begin_in(&mut window)
}

/// Writes the tables of the root alone, with one interval, over whatever bytes stand in the space tables.
pub fn begin<D: Disk, A: Allocator>(filer: &mut Filer<D, A>) -> Result<(), Halt>
    requires size { FitsLayout (view_of filer.old) }
    ensures begun { (b : List ℕ) → TablesAre (view_of filer.old) b
        → OnOk result (RevealSpaces (TablesAre (view_of filer.new)) 1 (root ∷ [])) }
    ensures sees { (b : List ℕ) → TablesAre (view_of filer.old) b
        → OnOk result (Sees (view_of filer.new) [] 1 (root ∷ [])) }
    ensures cause { IfErr result (ReachHalts (λ page. ⊥) (view_of filer.old) (view_of filer.new)) }
    ensures right { (b : List ℕ) → TablesAre (view_of filer.old) b → IfErr result NeverBlamesTables }
    ensures sound { (m : List Sector) (named : Triples) (b : List ℕ) → Known (view_of filer.old) m named b
        → IfErr result (λ e. e ≡ halt.Disk) }
    ensures came { BringsOwn (view_of filer.old).slots (view_of filer.new).slots }
    ensures kept { TablesBeside (view_of filer.old) (view_of filer.new) }
    ensures cost { (view_of filer.new).disk.transfers ≤ (view_of filer.old).disk.transfers + 14392 }
{
    match begin_in(filer) {
        Ok(()) => Ok(()),
        Err(SpaceError::Mem(halt)) => Err(halt),
        Err(SpaceError::Malformed { page: _ }) => unreachable!(),
        Err(SpaceError::Refused(_)) => unreachable!(),
    }
}
