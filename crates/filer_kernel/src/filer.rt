//! A swapper, the runs that were found last, and where a free sector may be.
ghost use Rattle.std.specs.Prelude.{◌≡◌, ℕ, []};
ghost use Rattle.filer_kernel.specs.Marks.{Marks, NoneFreeBelow};

use crate::CachedRuns;
use labelled_disk::Disk;
use std::alloc::Allocator;
use swapper_kernel::{LentSwapper, Swapper};

/// A swapper that is held by value, the runs of files that were found last, and a sector below which no data sector is
/// free where the allocation map is changed here alone (`NoneFreeBelow`). Every call that moves sectors asks that the disk
/// has as many sectors as the layout: a disk or a swapper that was lent might be another one.
#[derive(Drop)]
pub struct Filer<D: Disk, A: Allocator> {
    pub(crate) swapper: Swapper<D, A>,
    pub(crate) runs: CachedRuns,
    pub(crate) free_from: u32,
}

/// A filer whose disk is lent.
pub type LentFiler<'d, D, A> = Filer<&'d mut D, A>;

impl<D: Disk, A: Allocator> Filer<D, A> {
    ghost use Rattle.filer_kernel.specs.Cached.{runs_of};

    /// A filer with no run.
    pub fn over(swapper: Swapper<D, A>) -> Filer<D, A>
        ensures swapper { result.swapper ≡ swapper }
        ensures runs { (n : ℕ) → runs_of n result.runs ≡ [] }
        ensures free { (marks : Marks) → NoneFreeBelow swapper.layout marks result.free_from }
    {
        let layout = swapper.layout();
        Filer {
            swapper,
            runs: CachedRuns::new(layout.sectors),
            free_from: layout.first,
        }
    }

    /// Gives up the runs.
    pub fn into_swapper(self) -> Swapper<D, A>
        ensures { result ≡ self.swapper }
    {
        let Filer {
            swapper,
            runs: _,
            free_from: _,
        } = self;
        swapper
    }

    /// Gives up the runs and the frames. What is dirty is lost.
    pub fn into_disk(self) -> D
        ensures { result ≡ self.swapper.disk }
    {
        self.into_swapper().into_disk()
    }
}

impl<D: Disk, A: Allocator> Filer<D, A> {
    ghost use Rattle.std.specs.Borrow.{sem};
    ghost use Rattle.filer_kernel.specs.Lending.{LendsSwapper, LendsDisk};

    /// The swapper.
    pub fn swapper_over(&mut self) -> &mut Swapper<D, A>
        ensures value { result.now ≡ self.old.swapper }
        ensures* lends { sem 𝓛 (LendsSwapper D.row A.row D.Disk A.Allocator self.entry result) }
    {
        &mut self.swapper
    }

    /// The disk, as it is held.
    pub fn disk_over(&mut self) -> &mut D
        ensures value { result.now ≡ self.old.swapper.disk }
        ensures* lends { sem 𝓛 (LendsDisk D.row A.row D.Disk A.Allocator self.entry result) }
    {
        self.swapper.disk_over()
    }
}

impl<'d, D: Disk, A: Allocator> Filer<&'d mut D, A> {
    ghost use Rattle.filer_kernel.specs.Cached.{runs_of};

    /// A filer with no run, over a swapper whose disk is lent.
    pub fn new(swapper: LentSwapper<'d, D, A>) -> LentFiler<'d, D, A>
        ensures swapper { result.swapper ≡ swapper.entry }
        ensures runs { (n : ℕ) → runs_of n result.runs ≡ [] }
        ensures free { (marks : Marks) → NoneFreeBelow swapper.entry.layout marks result.free_from }
    {
        Filer::over(swapper)
    }
}
