//! A core whose space tables are about to change.
ghost use Rattle.std.specs.Prelude.{◌≡◌, []};
ghost use Rattle.fault_core.specs.Core.{kept};

use fault_core::Core;
use labelled_disk::Disk;
use std::alloc::Allocator;

/// Keeps no interval any more, since those that are kept may be none of the projection afterwards. Gives how many it has.
pub(crate) fn opened<D: Disk, A: Allocator>(core: &mut Core<D, A>) -> u32
    ensures count { result ≡ core.old.intervals }
    ensures kept { kept core.new ≡ [] }
    ensures filer { core.new.filer ≡ core.old.filer }
    ensures intervals { core.new.intervals ≡ core.old.intervals }
{
    core.discard_descriptors();
    core.interval_count()
}
