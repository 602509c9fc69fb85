//! The page of one data sector, past the frames: no frame has it.
ghost use Rattle.std.specs.Prelude.{◌≡◌, ◌<◌, List, [], IfErr, OnErr, OnOk};
ghost use Rattle.labelled_disk.specs.Calls.{Moves, RevealsSame};
ghost use Rattle.swapper_kernel.specs.Goes.{Makes, no_page};
ghost use Rattle.label_calls.specs.Bytes.{MayWritePage, ReadsPage, WritesPage};
ghost use Rattle.label_calls.specs.Fails.{FailsBy};
ghost use Rattle.label_calls.specs.Labels.{HasOne, IsNotOf, ones_of};

use labelled_disk::{Disk, DiskError, Evidence, Halt, Page, Wanted};
use std::alloc::Allocator;
use swapper_kernel::Swapper;

/// The bytes of a page, from the sector whose label names it. After an error `into` may have any bytes.
pub fn read_page<D: Disk, A: Allocator>(
    memory: &mut Swapper<D, A>,
    sector: u32,
    wanted: Wanted,
    into: &mut Page,
) -> Result<(), Halt>
    requires { sector < (D.state memory.old.disk).sectors }
    ensures read { OnOk result (ReadsPage sector wanted into.new (D.state memory.old.disk) memory.old.pool) }
    ensures same { RevealsSame (D.state memory.old.disk) (D.state memory.new.disk) }
    ensures moves { Moves (D.state memory.old.disk) (D.state memory.new.disk) }
    ensures makes { Makes no_page [] (D.state memory.old.disk) memory.old.pool (D.state memory.new.disk)
        memory.new.pool }
    ensures fails { IfErr result
        (FailsBy (λ m. HasOne (ones_of wanted) m sector) (IsNotOf sector wanted) (D.state memory.old.disk)
        memory.old.pool (D.state memory.new.disk)) }
    ensures frames { memory.new.pool ≡ memory.old.pool }
    ensures layout { memory.new.layout ≡ memory.old.layout }
{
    let disk = memory.disk_over();
    let found = match disk.read(sector, into) {
        Ok(found) => found,
        Err(_) => return Err(Halt::Disk),
    };
    if !found.names(wanted) {
        return Err(Halt::Damaged(Evidence::Mismatch {
            sector,
            wanted,
            found,
        }));
    }
    Ok(())
}

/// Puts these bytes into the sector whose label names the page, and keeps the label.
pub fn write_page<D: Disk, A: Allocator>(
    memory: &mut Swapper<D, A>,
    sector: u32,
    wanted: Wanted,
    bytes: &Page,
) -> Result<(), Halt>
    requires inside { sector < (D.state memory.old.disk).sectors }
    requires not_root { 0 < sector }
    ensures written { OnOk result
        (WritesPage sector wanted bytes.now (D.state memory.old.disk) memory.old.pool (D.state memory.new.disk)) }
    ensures stopped { OnErr result
        (MayWritePage sector wanted bytes.now (D.state memory.old.disk) memory.old.pool (D.state memory.new.disk)) }
    ensures moves { Moves (D.state memory.old.disk) (D.state memory.new.disk) }
    ensures fails { IfErr result
        (FailsBy (λ m. HasOne (ones_of wanted) m sector) (IsNotOf sector wanted) (D.state memory.old.disk)
        memory.old.pool (D.state memory.new.disk)) }
    ensures frames { memory.new.pool ≡ memory.old.pool }
    ensures layout { memory.new.layout ≡ memory.old.layout }
{
    let disk = memory.disk_over();
    match disk.write_data(sector, wanted, bytes) {
        Ok(()) => Ok(()),
        Err(DiskError::Failed) => Err(Halt::Disk),
        Err(DiskError::Wrong { found }) => Err(Halt::Damaged(Evidence::Mismatch {
            sector,
            wanted,
            found,
        })),
    }
}
