//! What is known of the frames of a filer.
ghost use Rattle.std.specs.Prelude.{◌≡◌, ◌≤◌, length};
ghost use Rattle.frame_pool.specs.Frames.{ArePages};
ghost use Rattle.filer_kernel.specs.View.{view_of};

use filer_kernel::Filer;
use labelled_disk::Disk;
use std::alloc::Allocator;

// There are at most 4,096 frames, and the bytes of each are a page's.
pub(crate) fn look_at_frames<D: Disk, A: Allocator>(filer: &mut Filer<D, A>)
    ensures few { length (view_of filer.old).slots ≤ 4096 }
    ensures pages { ArePages (view_of filer.old).slots }
    ensures same { filer.new ≡ filer.old }
{
    let _slots = filer.swapper_over().frames().frames();
}
