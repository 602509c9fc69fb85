//! The interval of a page that a window shows.
ghost use Rattle.std.specs.Prelude.{◌≡◌, ◌≢◌, ◌≤◌, ◌+◌, None, IfOk, IfSome, IsOk};
ghost use Rattle.fault_core.specs.Kept.{AreApart};
ghost use Rattle.fault_core.specs.Unit.{IsReady, IsWhole};
ghost use Rattle.filer_kernel.specs.View.{FitsLayout};
ghost use Rattle.fault_core.specs.Comes.{ShowsPage};
ghost use Rattle.fault_core.specs.Outcomes.{FailsAtPage, FindsAlone, StaysKnown};

use crate::Core;
use labelled_disk::{Disk, Halt};
use std::alloc::Allocator;
use swap_units::Interval;

impl<D: Disk, A: Allocator> Core<D, A> {
    ghost use Rattle.fault_core.specs.Core.{core_view, kept, state};

    // The interval that holds a page, where it is mapped.
    pub(crate) fn shown(&mut self, page: u32) -> Result<Option<Interval>, Halt>
        requires size { FitsLayout (state self.old) }
        ensures comes { ShowsPage page (core_view self.old) (core_view self.new) result }
        ensures fails { FailsAtPage page (core_view self.old) (core_view self.new) result }
        ensures stays { StaysKnown (core_view self.old) (core_view self.new) }
        ensures brings { FindsAlone (state self.old) (state self.new) }
        ensures idle { IsReady (kept self.old) (state self.old).slots page → AreApart (kept self.old)
            → IfOk result (λ o. IfSome o (λ x. IsWhole (state self.old).slots x page) × (o ≢ None)) × IsOk result
            × (self.new.filer ≡ self.old.filer) × (kept self.new ≡ kept self.old) }
        ensures cost { (state self.new).disk.transfers ≤ (state self.old).disk.transfers + 196 }
    {
        let x = match self.describe(page) {
            Ok(Some(x)) => x,
            Ok(None) => return Ok(None),
            Err(halt) => return Err(halt),
        };
        if !x.mode.is_mapped() {
            return Ok(None);
        }
        Ok(Some(x))
    }
}
