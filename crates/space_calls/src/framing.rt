//! How many frames a core has.
ghost use Rattle.std.specs.Prelude.{◌≡◌, ◌≤◌, length};
ghost use Rattle.frame_pool.specs.Frames.{ArePages};
ghost use Rattle.fault_core.specs.Core.{state};

use fault_core::Core;
use labelled_disk::Disk;
use std::alloc::Allocator;

// How many frames there are, at most 4,096. Each has the bytes of a page.
pub(crate) fn frame_count<D: Disk, A: Allocator>(core: &mut Core<D, A>) -> u32
    ensures count { result ≡ length (state core.new).slots }
    ensures most { length (state core.new).slots ≤ 4096 }
    ensures pages { ArePages (state core.new).slots }
    ensures same { core.new ≡ core.old }
{
    let swapper = core.filer.swapper_over();
    swapper.frames().frames()
}
