//! A reference: the bytes of a load or a store, on one page or on two in a row, and the intervals that show them.
ghost use Rattle.std.specs.Prelude.{◌≡◌, ◌≢◌, ◌≤◌, ◌+◌, ◌/◌, if◌then◌else◌, Ok, Some, None, IfOk, IfSome, IsOk};
ghost use Rattle.fault_core.specs.Access.{IfShown, Shows, is_load_only, last_page, outcome, refused_by};
ghost use Rattle.fault_core.specs.Kept.{IsKept, AreApart};
ghost use Rattle.fault_core.specs.Unit.{IsReady, IsWhole};
ghost use Rattle.filer_kernel.specs.View.{FitsLayout};
ghost use Rattle.fault_core.specs.Comes.{Refers, ShowsLast};
ghost use Rattle.fault_core.specs.Outcomes.{FailsAtPage, FailsAtReference, FindsAlone, StaysKnown};

use crate::Core;
use labelled_disk::{Disk, Halt, PAGE_BYTES};
use std::alloc::Allocator;
use swap_units::Interval;

/// What a load or a store comes to. One that is refused moves no byte.
#[derive(Clone, Copy, Debug, PartialEq, Eq)]
pub enum Access {
    Done,
    /// The first page of the reference that no window shows.
    NoMap(u32),
    /// All pages are shown, and this is the first that may not be stored to.
    ReadOnly(u32),
}

// The intervals that show the first and the last page of a reference, or why it is refused.
#[derive(Clone, Copy)]
pub(crate) enum Reference {
    Shown { first: Interval, last: Interval },
    NoMap(u32),
    ReadOnly(u32),
}

/// The last page of so many bytes from an address on.
pub(crate) fn last_page(address: u32, count: u32) -> u32
    requires some { 1 ≤ count }
    requires few { count ≤ 512 }
    ensures { result ≡ last_page address count }
{
    ((u64::from(address) + u64::from(count) - 1) / PAGE_BYTES as u64) as u32
}

// Whether the pages of an interval may be loaded only.
fn is_load_only(x: &Interval) -> bool
    ensures { result ≡ is_load_only x.now }
{
    x.mode.is_read_only()
}

// What the intervals of the first and of the last page make of a reference.
fn allowed(first: Interval, last: Interval, address: u32, count: u32, writes: bool) -> Reference
    requires some { 1 ≤ count }
    requires few { count ≤ 512 }
    ensures shown { IfShown (λ x y. (x ≡ first) × (y ≡ last)) result }
    ensures access { outcome result ≡ refused_by None
        (if writes then
        (if is_load_only first then Some (address / 512) else
        (if is_load_only last then Some (last_page address count) else None))
        else None) }
{
    if !writes {
        return Reference::Shown { first, last };
    }
    if is_load_only(&first) {
        return Reference::ReadOnly(address / PAGE_BYTES as u32);
    }
    if is_load_only(&last) {
        return Reference::ReadOnly(last_page(address, count));
    }
    Reference::Shown { first, last }
}

impl<D: Disk, A: Allocator> Core<D, A> {
    ghost use Rattle.fault_core.specs.Core.{core_view, kept, state};

    // The interval of the last page of a reference, where it is mapped: that of the first page, where they are one.
    fn shown_last(&mut self, x: Interval, first: u32, last: u32) -> Result<Option<Interval>, Halt>
        requires size { FitsLayout (state self.old) }
        requires shows { Shows x first }
        requires is_kept { IsKept (kept self.old) x }
        ensures comes { ShowsLast x first last (core_view self.old) (core_view self.new) result }
        ensures fails { FailsAtPage last (core_view self.old) (core_view self.new) result }
        ensures stays { StaysKnown (core_view self.old) (core_view self.new) }
        ensures brings { FindsAlone (state self.old) (state self.new) }
        ensures idle { IsReady (kept self.old) (state self.old).slots last → AreApart (kept self.old)
            → IfOk result (λ o. IfSome o (λ y. IsWhole (state self.old).slots y last) × (o ≢ None)) × IsOk result
            × (self.new.filer ≡ self.old.filer) × (kept self.new ≡ kept self.old) }
        ensures cost { (state self.new).disk.transfers ≤ (state self.old).disk.transfers + 196 }
    {
        if last == first {
            return Ok(Some(x));
        }
        self.shown(last)
    }

    // The intervals of the pages of a reference, by the projection, or why it is refused. All its pages are described
    // here, and none of them is brought in.
    pub(crate) fn refer(
        &mut self,
        address: u32,
        count: u32,
        writes: bool,
    ) -> Result<Reference, Halt>
        requires size { FitsLayout (state self.old) }
        requires some { 1 ≤ count }
        requires few { count ≤ 512 }
        ensures comes { Refers writes address count (core_view self.old) (core_view self.new) result }
        ensures fails { FailsAtReference address count (core_view self.old) (core_view self.new) result }
        ensures stays { StaysKnown (core_view self.old) (core_view self.new) }
        ensures brings { FindsAlone (state self.old) (state self.new) }
        ensures idle { IsReady (kept self.old) (state self.old).slots (address / 512)
            → IsReady (kept self.old) (state self.old).slots (last_page address count) → AreApart (kept self.old)
            → IfOk result
            (IfShown
            (λ x y.
            IsWhole (state self.old).slots x (address / 512)
            × IsWhole (state self.old).slots y (last_page address count)))
            × IsOk result × (self.new.filer ≡ self.old.filer) × (kept self.new ≡ kept self.old) }
        ensures cost { (state self.new).disk.transfers ≤ (state self.old).disk.transfers + 392 }
    {
        let first = address / PAGE_BYTES as u32;
        let last = last_page(address, count);
        let x = match self.shown(first) {
            Ok(Some(x)) => x,
            Ok(None) => return Ok(Reference::NoMap(first)),
            Err(halt) => return Err(halt),
        };
        let y = match self.shown_last(x, first, last) {
            Ok(Some(y)) => y,
            Ok(None) => return Ok(Reference::NoMap(last)),
            Err(halt) => return Err(halt),
        };
        Ok(allowed(x, y, address, count, writes))
    }
}
