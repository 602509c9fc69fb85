//! A filer, the intervals that were looked up last, and how many the projection has.
ghost use Rattle.std.specs.Prelude.{◌≡◌, ◌≤◌, []};
ghost use Rattle.descriptor_cache.specs.Cache.{kept_in};
ghost use Rattle.fault_core.specs.Kept.{AreFormed, are_formed_once};
ghost use Rattle.filer_kernel.specs.View.{FitsLayout};

use descriptor_cache::DescriptorCache;
use filer_kernel::{Filer, LentFiler, TableMemory};
use labelled_disk::Disk;
use space_tables::SpaceTables;
use std::alloc::Allocator;

/// A filer that is held by value, at most 16 intervals of the projection in its space tables, and how many the projection
/// has. Every call that moves sectors asks that the disk has as many sectors as the layout: a disk or a filer that was lent
/// might be another one.
#[derive(Drop)]
pub struct Core<D: Disk, A: Allocator> {
    pub filer: Filer<D, A>,
    pub(crate) descriptors: DescriptorCache,
    pub(crate) intervals: u32,
    ghost some: { 1 ≤ intervals },
    ghost few: { intervals ≤ 1023 },
    ghost formed: { AreFormed (kept_in descriptors) } by { are_formed_once (kept_in descriptors) },
}

/// A core whose disk is lent.
pub type LentCore<'d, D, A> = Core<&'d mut D, A>;

impl<D: Disk, A: Allocator> Core<D, A> {
    ghost use Rattle.fault_core.specs.Core.{kept};

    /// A core over tables whose projection has so many intervals, 1 to 1,023. It keeps none.
    pub fn over(filer: Filer<D, A>, intervals: u32) -> Core<D, A>
        requires some { 1 ≤ intervals }
        requires few { intervals ≤ 1023 }
        ensures filer { result.filer ≡ filer }
        ensures intervals { result.intervals ≡ intervals }
        ensures kept { kept result ≡ [] }
    {
        Core {
            filer,
            descriptors: DescriptorCache::new(),
            intervals,
        }
    }

    /// Gives up the intervals.
    pub fn into_filer(self) -> Filer<D, A>
        ensures { result ≡ self.filer }
    {
        let Core {
            filer,
            descriptors: _,
            intervals: _,
        } = self;
        filer
    }

    /// Keeps no interval any more. This is due where the tables were changed.
    pub fn discard_descriptors(&mut self)
        ensures kept { kept self.new ≡ [] }
        ensures filer { self.new.filer ≡ self.old.filer }
        ensures intervals { self.new.intervals ≡ self.old.intervals }
    {
        self.descriptors.clear();
    }

    /// How many intervals the projection has, 1 to 1,023.
    pub fn interval_count(&self) -> u32
        ensures { result ≡ self.now.intervals }
    {
        self.intervals
    }

    /// How many intervals the projection has now, 1 to 1,023.
    pub fn keep_count(&mut self, intervals: u32)
        requires some { 1 ≤ intervals }
        requires few { intervals ≤ 1023 }
        ensures kept { kept self.new ≡ kept self.old }
        ensures filer { self.new.filer ≡ self.old.filer }
        ensures intervals { self.new.intervals ≡ intervals }
    {
        self.intervals = intervals;
    }
}

impl<D: Disk, A: Allocator> Core<D, A> {
    ghost use Rattle.std.specs.Borrow.{sem};
    ghost use Rattle.space_tables.specs.SpaceTables.{interval_count, tables_memory};
    ghost use Rattle.fault_core.specs.Core.{state};
    ghost use Rattle.fault_core.specs.Lending.{LendsFiler};

    /// The space tables, with as many intervals as the core counts. Where they are changed, the intervals that are kept are to
    /// be forgotten, and how many there are is to be revealed.
    pub fn tables<'s>(&'s mut self) -> SpaceTables<TableMemory<'s, D, A>>
        requires size { FitsLayout (state self.old) }
        ensures value { (tables_memory result).filer.now ≡ self.old.filer }
        ensures intervals { interval_count result ≡ self.old.intervals }
        ensures* lends { sem 𝓛 (LendsFiler D.row A.row D.Disk A.Allocator self.entry (tables_memory result).filer) }
    {
        let intervals = self.intervals;
        SpaceTables::<TableMemory<D, A>>::over(self.filer.table_memory(), intervals)
    }

    /// The filer.
    pub fn filer_over(&mut self) -> &mut Filer<D, A>
        ensures value { result.now ≡ self.old.filer }
        ensures* lends { sem 𝓛 (LendsFiler D.row A.row D.Disk A.Allocator self.entry result) }
    {
        &mut self.filer
    }
}

impl<'d, D: Disk, A: Allocator> Core<&'d mut D, A> {
    ghost use Rattle.fault_core.specs.Core.{kept};

    /// A core over a filer whose disk is lent.
    pub fn new(filer: LentFiler<'d, D, A>, intervals: u32) -> LentCore<'d, D, A>
        requires some { 1 ≤ intervals }
        requires few { intervals ≤ 1023 }
        ensures filer { result.filer ≡ filer.entry }
        ensures intervals { result.intervals ≡ intervals }
        ensures kept { kept result ≡ [] }
    {
        Core::over(filer, intervals)
    }
}
