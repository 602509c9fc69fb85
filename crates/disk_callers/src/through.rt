//! A sector through a disk in memory.
ghost use Rattle.std.specs.Prelude.{◌≡◌, IfOk};

use labelled_disk::{Disk, Label, MemoryDisk, NoMemory, PAGE_BYTES, Page};
use std::alloc::Allocator;

/// Writes a sector of a new disk in memory and reads it back. Only running out of memory can stop it.
pub fn through_memory<A: Allocator + Clone>(
    alloc: A,
    label: Label,
    page: &Page,
) -> Result<(Label, Page), NoMemory>
    ensures { IfOk result (λ back. back ≡ (label, page.now)) }
{
    let mut disk = MemoryDisk::new(alloc, 1)?;
    disk.write(0, &label, page).unwrap();
    let mut back = [0; PAGE_BYTES];
    let found = disk.read(0, &mut back).unwrap();
    Ok((found, back))
}
