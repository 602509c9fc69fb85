//! The interval of the projection that holds a page.
ghost use Rattle.std.specs.Prelude.{◌≡◌, ◌↔◌, ◌≤◌, ◌+◌, ℕ, List, Ok, Some, None, IfOk, IfErr, IfSome, find};
ghost use Rattle.labelled_disk.specs.declared.evidence.Halt.TheVariants as halt;
ghost use Rattle.labelled_disk.specs.Sectors.{Sector};
ghost use Rattle.file_map.specs.FileMap.{Triples};
ghost use Rattle.flat_machine.specs.declared.space.Space.{Space};
ghost use Rattle.flat_machine.specs.Space.{root_pages};
ghost use Rattle.swap_units.specs.declared.interval.Interval.{Interval};
ghost use Rattle.swap_units.specs.Unit.{Holds, has_page};
ghost use Rattle.space_tables.specs.SpaceTables.{IsIntervalAt};
ghost use Rattle.space_tables.specs.Stored.{RevealSpaces};
ghost use Rattle.fault_core.specs.Kept.{IsFormed};
ghost use Rattle.filer_kernel.specs.View.{FitsLayout, TablesAre, TablesBeside, view_of};
ghost use Rattle.fault_core.specs.Reach.{ReachHalts};
ghost use Rattle.fault_core.specs.Revealed.{Known, BreaksTables};
ghost use Rattle.fault_core.specs.Comes.{Describes};
ghost use Rattle.fault_core.specs.Finding.{FailsToAsk, LooksUp};
ghost use Rattle.fault_core.specs.Outcomes.{FailsAtPage, FindsAlone, StaysKnown};

use crate::Core;
use filer_kernel::{Filer, TableMemory};
use labelled_disk::{Disk, Evidence, Halt, Structure};
use space_tables::{SpaceError, SpaceTables};
use std::alloc::Allocator;
use swap_units::{Interval, ROOT_PAGES};

// Asks the tables that stand in a filer's space tables.
fn ask<D: Disk, A: Allocator>(
    filer: &mut Filer<D, A>,
    intervals: u32,
    page: u32,
) -> Result<Option<Interval>, SpaceError<Halt>>
    requires size { FitsLayout (view_of filer.old) }
    requires some { 1 ≤ intervals }
    requires few { intervals ≤ 1023 }
    ensures interval { (ss : List Space) → RevealSpaces (TablesAre (view_of filer.old)) intervals ss
        → IfOk result (λ o. IfSome o (IsIntervalAt ss page)) }
    ensures fails { FailsToAsk intervals page (view_of filer.old) (view_of filer.new) result }
    ensures none { IfOk result (λ o. (o ≡ None) ↔ (root_pages ≤ page)) }
    ensures form { IfOk result (λ o. IfSome o (λ x. IsFormed x × Holds x page)) }
    ensures same { (b : List ℕ) → TablesAre (view_of filer.old) b → TablesAre (view_of filer.new) b }
    ensures kept { TablesBeside (view_of filer.old) (view_of filer.new) }
    ensures cost { (view_of filer.new).disk.transfers ≤ (view_of filer.old).disk.transfers + 196 }
{
    let mut tables = SpaceTables::<TableMemory<D, A>>::over(filer.table_memory(), intervals);
    tables.describe(page)
}

// The interval that holds a page, by the tables, or none where the page is not one of the root.
fn look_up<D: Disk, A: Allocator>(
    filer: &mut Filer<D, A>,
    intervals: u32,
    page: u32,
) -> Result<Option<Interval>, Halt>
    requires size { FitsLayout (view_of filer.old) }
    requires some { 1 ≤ intervals }
    requires few { intervals ≤ 1023 }
    ensures comes { LooksUp intervals page (view_of filer.old) result }
    ensures cause { IfErr result
        (ReachHalts (BreaksTables (view_of filer.old) intervals page) (view_of filer.old) (view_of filer.new)) }
    ensures sound { (m : List Sector) (named : Triples) (b : List ℕ) (ss : List Space)
        → Known (view_of filer.old) m named b → RevealSpaces (λ c. c ≡ b) intervals ss
        → IfErr result (λ e. e ≡ halt.Disk) }
    ensures brings { FindsAlone (view_of filer.old) (view_of filer.new) }
    ensures cost { (view_of filer.new).disk.transfers ≤ (view_of filer.old).disk.transfers + 196 }
{
    if page >= ROOT_PAGES {
        return Ok(None);
    }
    match ask(filer, intervals, page) {
        Ok(found) => Ok(found),
        Err(SpaceError::Malformed { page }) => Err(Halt::Damaged(Evidence::Malformed {
            structure: Structure::SpaceTables,
            page,
        })),
        Err(SpaceError::Mem(halt)) => Err(halt),
        Err(SpaceError::Refused(_)) => unreachable!(),
    }
}

impl<D: Disk, A: Allocator> Core<D, A> {
    ghost use Rattle.fault_core.specs.Core.{core_view, kept, state};

    /// The interval of the projection that holds a page, or None where the page is not one of the root. An interval that is
    /// kept is given without a transfer.
    pub fn describe(&mut self, page: u32) -> Result<Option<Interval>, Halt>
        requires size { FitsLayout (state self.old) }
        ensures comes { Describes page (core_view self.old) (core_view self.new) result }
        ensures fails { FailsAtPage page (core_view self.old) (core_view self.new) result }
        ensures stays { StaysKnown (core_view self.old) (core_view self.new) }
        ensures brings { FindsAlone (state self.old) (state self.new) }
        ensures idle { (x : Interval) → find (has_page page) (kept self.old) ≡ Some x
            → (result ≡ Ok (Some x)) × (self.new.filer ≡ self.old.filer) × (kept self.new ≡ kept self.old) }
        ensures cost { (state self.new).disk.transfers ≤ (state self.old).disk.transfers + 196 }
    {
        if let Some(interval) = self.descriptors.look(page) {
            return Ok(Some(interval));
        }
        let found = look_up(&mut self.filer, self.intervals, page)?;
        if let Some(interval) = found {
            self.descriptors.keep(interval);
        }
        Ok(found)
    }
}
