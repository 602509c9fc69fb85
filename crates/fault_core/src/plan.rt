//! The swap unit of a page that a window shows, and where its pages stand.
ghost use Rattle.std.specs.Prelude.{◌≤◌, ◌+◌, None, IfErr};
ghost use Rattle.fault_core.specs.Lack.{MissesPage, kept_unit};
ghost use Rattle.filer_kernel.specs.View.{FitsLayout};
ghost use Rattle.fault_core.specs.Comes.{Resolves};
ghost use Rattle.fault_core.specs.Outcomes.{FailsToBringPage, FindsAlone, StaysKnown};

use crate::Core;
use crate::homes::Homes;
use crate::search::homes_of;
use labelled_disk::{Disk, Halt};
use std::alloc::Allocator;
use swap_units::unit_of;

/// A swap unit: its first page, and the home of each of its pages.
#[derive(Drop)]
pub struct Plan {
    pub first: u32,
    pub homes: Homes,
}

impl<D: Disk, A: Allocator> Core<D, A> {
    ghost use Rattle.fault_core.specs.Core.{core_view, kept, state};

    /// The swap unit of a page, and the home of each of its pages, or None where no window shows the page. None of them is
    /// brought in.
    pub fn resolve(&mut self, page: u32) -> Result<Option<Plan>, Halt>
        requires size { FitsLayout (state self.old) }
        ensures comes { Resolves page (core_view self.old) (core_view self.new) result }
        ensures fails { FailsToBringPage page (core_view self.old) (core_view self.new) result }
        ensures misses { IfErr result (MissesPage (kept_unit (kept self.new) page)) }
        ensures stays { StaysKnown (core_view self.old) (core_view self.new) }
        ensures brings { FindsAlone (state self.old) (state self.new) }
        ensures cost { (state self.new).disk.transfers ≤ (state self.old).disk.transfers + 420 }
    {
        let x = match self.shown(page) {
            Ok(Some(x)) => x,
            Ok(None) => return Ok(None),
            Err(halt) => return Err(halt),
        };
        let (first, pages) = unit_of(&x, page);
        match homes_of(&mut self.filer, x.id, x.page + (first - x.first), pages) {
            Ok(homes) => Ok(Some(Plan { first, homes })),
            Err(halt) => Err(halt),
        }
    }
}
