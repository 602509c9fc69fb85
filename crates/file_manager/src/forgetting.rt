//! Frames of a file's pages that are given up.
ghost use Rattle.std.specs.Prelude.{◌≡◌, ◌⊎◌, ◌+◌, ◌^◌, ◌≤◌};
ghost use Rattle.file_manager.specs.Forgetting.{Forgets};
ghost use Rattle.filer_kernel.specs.View.{disk_of, view_of};
ghost use Rattle.file_manager.specs.Stays.{RunsStay};

use filer_kernel::Filer;
use labelled_disk::{Disk, FileId};
use std::alloc::Allocator;
use swapper_kernel::Swapper;

// Gives up the frames of these pages, with one look for each page.
fn discard_pages<D: Disk, A: Allocator>(
    memory: &mut Swapper<D, A>,
    id: FileId,
    first: u32,
    pages: u32,
)
    requires of_file { (id ≡ 3) ⊎ (16 ≤ id) }
    requires fits { first + pages ≤ 2 ^ 32 }
    ensures forgets { Forgets id first pages memory.old.layout (D.state memory.old.disk) memory.old.pool
        memory.new.pool }
    ensures disk { memory.new.disk ≡ memory.old.disk }
    ensures layout { memory.new.layout ≡ memory.old.layout }
{
    for page in 0..pages {
        if let Some(slot) = memory.frames().find(id, first + page) {
            memory.clear(slot);
        }
    }
}

// Gives up the frames of these pages of a file, dirty or not: they are what the disk has.
pub(crate) fn discard_run<D: Disk, A: Allocator>(
    filer: &mut Filer<D, A>,
    id: FileId,
    first: u32,
    pages: u32,
)
    requires of_file { (id ≡ 3) ⊎ (16 ≤ id) }
    requires fits { first + pages ≤ 2 ^ 32 }
    ensures forgets { Forgets id first pages (view_of filer.old).layout (view_of filer.old).disk
        (view_of filer.old).slots (view_of filer.new).slots }
    ensures disk { (disk_of filer.new) ≡ (disk_of filer.old) }
    ensures stays { RunsStay (view_of filer.old) (view_of filer.new) }
{
    let swapper = filer.swapper_over();
    discard_pages(swapper, id, first, pages);
}
