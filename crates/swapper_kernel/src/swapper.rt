//! Frames over a disk, and who holds the disk.
ghost use Rattle.std.specs.Prelude.{◌≡◌, ◌==◌, ◌≤◌, ◌+◌, ◌<◌, ◌*◌, ◌^◌, ◌↔◌, true, IfOk, IfErr, None, length, replicate};
ghost use Rattle.frame_pool.specs.Runs.{HasRun};
ghost use Rattle.swapper_kernel.specs.Homes.{IsLayout, ArePlaced};

use frame_pool::FramePool;
use labelled_disk::{Disk, FileId, Layout, NoMemory};
use std::alloc::Allocator;

/// Frames over a disk that is held by value. Every call that moves sectors asks that the disk has as many sectors as
/// the layout: a disk that was lent might be another one.
#[derive(Drop)]
pub struct Swapper<D: Disk, A: Allocator> {
    pub(crate) disk: D,
    pub(crate) pool: FramePool<A>,
    pub(crate) layout: Layout,
    ghost accepted: { IsLayout layout },
    ghost placed: { ArePlaced pool layout },
    ghost least: { 24 ≤ length pool },
}

/// Frames over a disk that is lent.
pub type LentSwapper<'d, D, A> = Swapper<&'d mut D, A>;

impl<D: Disk, A: Allocator> Swapper<D, A> {
    /// Empty frames over a disk, 24 to 4,096. This takes all the memory that they ever have. The disk is handed back
    /// where there is none.
    pub fn over(
        alloc: A,
        disk: D,
        layout: Layout,
        frames: u32,
    ) -> Result<Swapper<D, A>, (NoMemory, D)>
        requires layout { IsLayout layout }
        requires least { 24 ≤ frames }
        requires most { frames ≤ 4096 }
        ensures disk { IfOk result (λ s. s.disk ≡ disk) }
        ensures empty { IfOk result (λ s. s.pool ≡ replicate frames None) }
        ensures layout { IfOk result (λ s. s.layout ≡ layout) }
        ensures back { IfErr result (λ e. e.1 ≡ disk) }
    {
        match FramePool::with_frames(alloc, frames) {
            Ok(pool) => Ok(Swapper { disk, pool, layout }),
            Err(fault) => Err((fault, disk)),
        }
    }

    /// Gives the frames up, and the disk back. What is dirty is lost.
    pub fn into_disk(self) -> D
        ensures { result ≡ self.disk }
    {
        let Swapper {
            disk,
            pool: _,
            layout: _,
        } = self;
        disk
    }

    /// The frames.
    pub fn frames(&self) -> &FramePool<A>
        ensures { result.now ≡ self.now.pool }
    {
        &self.pool
    }

    /// Whether pages in a row of a file are all in frames. That they are is remembered until a frame is given up.
    pub fn has_run(&mut self, id: FileId, first: u32, pages: u32) -> bool
        requires fits { first + pages ≤ 2 ^ 32 }
        ensures there { result ≡ true ↔ HasRun self.old.pool id first pages }
        ensures same { self.new ≡ self.old }
    {
        self.pool.has_run(id, first, pages)
    }

    /// Whether the disk has as many sectors as the layout, which every call that moves sectors asks for.
    pub fn fits(&self) -> bool
        ensures { result ≡ ((D.state self.now.disk).sectors == self.now.layout.sectors) }
    {
        self.disk.sectors() == self.layout.sectors
    }

    /// The layout of the volume.
    pub fn layout(&self) -> Layout
        ensures { result ≡ self.now.layout }
    {
        self.layout
    }
}

impl<D: Disk, A: Allocator> Swapper<D, A> {
    ghost use Rattle.std.specs.Borrow.{sem};
    ghost use Rattle.swapper_kernel.specs.Lending.{LendsDisk};

    /// The disk, as it is held.
    pub fn disk_over(&mut self) -> &mut D
        ensures value { result.now ≡ self.old.disk }
        ensures* lends { sem 𝓛 (LendsDisk D.row A.row D.Disk A.Allocator self.entry result) }
    {
        &mut self.disk
    }
}

impl<'d, D: Disk, A: Allocator> Swapper<&'d mut D, A> {
    ghost use Rattle.std.specs.Borrow.{sem};
    ghost use Rattle.swapper_kernel.specs.Lending.{LendsThrough};

    /// Empty frames over a disk that is lent, 24 to 4,096. This takes all the memory that they ever have.
    pub fn new(
        alloc: A,
        disk: &'d mut D,
        layout: Layout,
        frames: u32,
    ) -> Result<LentSwapper<'d, D, A>, NoMemory>
        requires layout { IsLayout layout }
        requires least { 24 ≤ frames }
        requires most { frames ≤ 4096 }
        ensures disk { IfOk result (λ s. s.disk.now ≡ disk.old) }
        ensures empty { IfOk result (λ s. s.pool ≡ replicate frames None) }
        ensures layout { IfOk result (λ s. s.layout ≡ layout) }
    {
        let pool = FramePool::with_frames(alloc, frames)?;
        Ok(Swapper { disk, pool, layout })
    }

    /// The disk that is lent.
    pub fn disk(&mut self) -> &mut D
        ensures value { result.now ≡ self.old.disk.now }
        ensures* lends { sem 𝓛 (LendsThrough D.row A.row D.Disk A.Allocator self.entry result) }
    {
        self.disk
    }
}
