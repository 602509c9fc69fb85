//! The pages of a map as a flat memory.
ghost use Rattle.std.specs.Prelude.{◌≡◌, ◌+◌, ◌*◌, ◌/◌, ◌≤◌, ◌<◌, IsSome, length};
ghost use Rattle.frame_pool.specs.Frames.{Frame, Has, frame_at};
ghost use Rattle.flat_mem.specs.Memory.{part};
ghost use Rattle.swapper_kernel.specs.Window.{size_in};

use crate::{Manager, Swapper};
use flat_mem::FlatMem;
use labelled_disk::{Disk, Halt, PAGE_BYTES};
use std::alloc::Allocator;

/// The pages of a map, through the frames. Each access takes at most two transfers.
#[derive(Drop)]
pub struct MapMemory<'s, D: Disk, A: Allocator> {
    pub(crate) swapper: &'s mut Swapper<D, A>,
    pub(crate) which: Manager,
}

/// The pages of a map, where the disk is lent.
pub type LentMapMemory<'s, 'd, D, A> = MapMemory<'s, &'d mut D, A>;

impl<D: Disk, A: Allocator> Swapper<D, A> {
    /// The pages of a map as a memory. It has no bytes on a disk of another size than the layout's.
    pub fn map_memory<'s>(&'s mut self, which: Manager) -> MapMemory<'s, D, A>
        ensures same_reference { result.swapper.ghost_name ≡ self.entry.ghost_name }
        ensures value { result.swapper.now ≡ self.old }
        ensures which { result.which ≡ which }
    {
        MapMemory {
            swapper: self,
            which,
        }
    }

    /// How many bytes a map has: none on a disk of another size.
    fn window_len(&self, which: Manager) -> u64
        ensures { result ≡ size_in which (D.state self.now.disk).sectors self.now.layout }
    {
        if self.disk.sectors() == self.layout.sectors {
            PAGE_BYTES as u64 * u64::from(which.pages(&self.layout))
        } else {
            0
        }
    }

    /// Reads from a page in a frame.
    fn copy_out(&self, slot: u32, from: usize, into: &mut [u8])
        requires below { slot < length self.now.pool }
        requires filled { IsSome (frame_at self.now.pool slot) }
        requires inside { from + length into.old ≤ 512 }
        ensures { (f : Frame) → Has self.now.pool slot f → into.new ≡ part f.bytes from (length into.old) }
    {
        let page = self.pool.bytes(slot);
        into.copy_from_slice(&page[from..from + into.len()]);
    }
}

impl<'s, D: Disk, A: Allocator> FlatMem for MapMemory<'s, D, A> {
    ghost use Rattle.std.specs.Prelude.{◌≡◌, ◌+◌, ◌*◌, ◌/◌, ◌≤◌};
    ghost use Rattle.swapper_kernel.specs.Window.{Reveals, Beside, Looked, IsAccounted, size_in};
    ghost use Rattle.swapper_kernel.specs.WindowLaws.{beside_itself, beside_then, looked_itself, looked_then, looked_beside, looked_revealed, accounted_then, revealed_size, same_size_in};
    ghost use Rattle.swapper_kernel.specs.OnceLaws.{reveals_once};

    type Error = Halt;

    const COST: u64 = 2;

    ghost cost = { 2 };

    ghost size = { λ w. size_in w.which (D.state w.swapper.now.disk).sectors w.swapper.now.layout };

    ghost reveals = { λ w b. Reveals w.which (D.state w.swapper.now.disk) w.swapper.now.pool w.swapper.now.layout b };

    ghost spent = { λ w. (D.state w.swapper.now.disk).transfers };

    ghost beside = { λ a b. (a.swapper.ghost_name ≡ b.swapper.ghost_name) × (a.which ≡ b.which) × Beside a.which (D.state a.swapper.now.disk) a.swapper.now.pool a.swapper.now.layout (D.state b.swapper.now.disk) b.swapper.now.pool b.swapper.now.layout };

    ghost only_reads = { λ a b. (a.swapper.ghost_name ≡ b.swapper.ghost_name) × (a.which ≡ b.which) × Looked a.which (D.state a.swapper.now.disk) a.swapper.now.pool a.swapper.now.layout (D.state b.swapper.now.disk) b.swapper.now.pool b.swapper.now.layout };

    ghost accounted = { λ a b e. IsAccounted a.which (D.state a.swapper.now.disk) a.swapper.now.pool a.swapper.now.layout (D.state b.swapper.now.disk) e };

    ghost revealed_once = { λ w b c h k. reveals_once _ _ _ _ b c h k };

    ghost revealed_length = { λ w b h. revealed_size h };

    ghost same_size = { λ a b h. same_size_in h.1 h.2 };

    ghost beside_itself = { λ w. (Prim.cc, Prim.cc, beside_itself w.which (D.state w.swapper.now.disk) w.swapper.now.pool w.swapper.now.layout) };

    ghost beside_through = { λ a b c h k. (Prim.cc, Prim.cc, beside_then h.1 h.2 k.2) };

    ghost only_reads_itself = { λ w. (Prim.cc, Prim.cc, looked_itself w.which (D.state w.swapper.now.disk) w.swapper.now.pool w.swapper.now.layout) };

    ghost only_reads_through = { λ a b c h k. (Prim.cc, Prim.cc, looked_then h.1 h.2 k.2) };

    ghost only_reads_beside = { λ a b h. (h.0, h.1, looked_beside h.2) };

    ghost only_reads_revealed = { λ a b bytes h revealed. looked_revealed h.1 h.2 revealed };

    ghost accounted_wider = { λ a b c d e h k l x. accounted_then h.1 k.1 h.2 k.2 l.2 x };

    fn len(&self) -> u64 {
        self.swapper.window_len(self.which)
    }

    fn read(&mut self, at: u64, into: &mut [u8]) -> Result<(), Halt> {
        if into.is_empty() {
            return Ok(());
        }
        let page = (at / PAGE_BYTES as u64) as u32;
        let from = (at % PAGE_BYTES as u64) as usize;
        match self.swapper.resident(self.which, page) {
            Some(here) => {
                self.swapper.copy_out(here, from, into);
                return Ok(());
            }
            None => (),
        }
        let slot = self.swapper.fetch_map_page(self.which, page)?;
        self.swapper.copy_out(slot, from, into);
        Ok(())
    }

    fn write(&mut self, at: u64, bytes: &[u8]) -> Result<(), Halt> {
        if bytes.is_empty() {
            return Ok(());
        }
        let page = (at / PAGE_BYTES as u64) as u32;
        let from = (at % PAGE_BYTES as u64) as u32;
        match self.swapper.resident(self.which, page) {
            Some(here) => {
                self.swapper.change(here, from, bytes);
                return Ok(());
            }
            None => (),
        }
        let slot = self.swapper.fetch_map_page(self.which, page)?;
        self.swapper.change(slot, from, bytes);
        Ok(())
    }
}
