//! The pages of the space tables as a flat memory.
ghost use Rattle.std.specs.Prelude.{◌≡◌, ◌+◌, ◌≤◌, ◌<◌, IsSome, length};
ghost use Rattle.frame_pool.specs.Frames.{Frame, Has, frame_at};
ghost use Rattle.flat_mem.specs.Memory.{part};
ghost use Rattle.filer_kernel.specs.Tables.{tables_size};

use crate::Filer;
use flat_mem::FlatMem;
use labelled_disk::{Disk, Halt, PAGE_BYTES, TABLE_PAGES};
use std::alloc::Allocator;

/// The pages of the space tables, through the file map and the frames. Each access takes at most 28 transfers.
#[derive(Drop)]
pub struct TableMemory<'s, D: Disk, A: Allocator> {
    pub(crate) filer: &'s mut Filer<D, A>,
}

/// The pages of the space tables, where the disk is lent.
pub type LentTableMemory<'s, 'd, D, A> = TableMemory<'s, &'d mut D, A>;

impl<D: Disk, A: Allocator> Filer<D, A> {
    /// The pages of the space tables as a memory. It has no bytes on a disk of another size than the layout's.
    pub fn table_memory<'s>(&'s mut self) -> TableMemory<'s, D, A>
        ensures same_reference { result.filer.ghost_name ≡ self.entry.ghost_name }
        ensures value { result.filer.now ≡ self.old }
    {
        TableMemory { filer: self }
    }

    // How many bytes the space tables have: none on a disk of another size.
    fn tables_len(&self) -> u64
        ensures { result ≡ tables_size (D.state self.now.swapper.disk).sectors self.now.swapper.layout }
    {
        if self.swapper.fits() {
            PAGE_BYTES as u64 * TABLE_PAGES as u64
        } else {
            0
        }
    }

    // Reads from a page in a frame.
    fn copy_out(&self, slot: u32, from: usize, into: &mut [u8])
        requires below { slot < length self.now.swapper.pool }
        requires filled { IsSome (frame_at self.now.swapper.pool slot) }
        requires inside { from + length into.old ≤ 512 }
        ensures { (f : Frame) → Has self.now.swapper.pool slot f → into.new ≡ part f.bytes from (length into.old) }
    {
        let page = self.swapper.frames().bytes(slot);
        into.copy_from_slice(&page[from..from + into.len()]);
    }
}

impl<'s, D: Disk, A: Allocator> FlatMem for TableMemory<'s, D, A> {
    ghost use Rattle.std.specs.Prelude.{◌≡◌, ◌+◌, ◌≤◌};
    ghost use Rattle.filer_kernel.specs.Tables.{TablesReveal, BesideTables, LookedTables, IsTableAccounted, tables_size};
    ghost use Rattle.filer_kernel.specs.TableLaws.{beside_tables_itself, beside_tables_then, looked_tables_itself, looked_tables_then, looked_tables_beside, tables_accounted_then, revealed_tables_size, same_tables_size};
    ghost use Rattle.filer_kernel.specs.TableOnce.{tables_reveal_once};

    type Error = Halt;

    const COST: u64 = 28;

    ghost cost = { 28 };

    ghost size = { λ w. tables_size (D.state w.filer.now.swapper.disk).sectors w.filer.now.swapper.layout };

    ghost reveals = { λ w b. TablesReveal (D.state w.filer.now.swapper.disk) w.filer.now.swapper.pool w.filer.now.swapper.layout w.filer.now.runs b };

    ghost spent = { λ w. (D.state w.filer.now.swapper.disk).transfers };

    ghost beside = { λ a b. (a.filer.ghost_name ≡ b.filer.ghost_name) × BesideTables (D.state a.filer.now.swapper.disk) a.filer.now.swapper.pool a.filer.now.swapper.layout a.filer.now.runs (D.state b.filer.now.swapper.disk) b.filer.now.swapper.pool b.filer.now.swapper.layout b.filer.now.runs };

    ghost only_reads = { λ a b. (a.filer.ghost_name ≡ b.filer.ghost_name) × LookedTables (D.state a.filer.now.swapper.disk) a.filer.now.swapper.pool a.filer.now.swapper.layout a.filer.now.runs (D.state b.filer.now.swapper.disk) b.filer.now.swapper.pool b.filer.now.swapper.layout b.filer.now.runs };

    ghost accounted = { λ a b e. IsTableAccounted (D.state a.filer.now.swapper.disk) a.filer.now.swapper.pool a.filer.now.swapper.layout a.filer.now.runs (D.state b.filer.now.swapper.disk) e };

    ghost revealed_once = { λ w b c h k. tables_reveal_once _ _ _ _ b c w.filer.now.swapper.accepted h k };

    ghost revealed_length = { λ w b h. revealed_tables_size h };

    ghost same_size = { λ a b h. same_tables_size h.1 };

    ghost beside_itself = { λ w. (Prim.cc, beside_tables_itself (D.state w.filer.now.swapper.disk) w.filer.now.swapper.pool w.filer.now.swapper.layout w.filer.now.runs) };

    ghost beside_through = { λ a b c h k. (Prim.cc, beside_tables_then a.filer.now.swapper.accepted h.1 k.1) };

    ghost only_reads_itself = { λ w. (Prim.cc, looked_tables_itself (D.state w.filer.now.swapper.disk) w.filer.now.swapper.pool w.filer.now.swapper.layout w.filer.now.runs) };

    ghost only_reads_through = { λ a b c h k. (Prim.cc, looked_tables_then a.filer.now.swapper.accepted h.1 k.1) };

    ghost only_reads_beside = { λ a b h. (h.0, looked_tables_beside h.1) };

    ghost only_reads_revealed = { λ a b bytes h revealed. h.1.revealed bytes revealed };

    ghost accounted_wider = { λ a b c d e h k l x. tables_accounted_then a.filer.now.swapper.accepted h.1 k.1 l.1 x };

    fn len(&self) -> u64 {
        self.filer.tables_len()
    }

    fn read(&mut self, at: u64, into: &mut [u8]) -> Result<(), Halt> {
        if into.is_empty() {
            return Ok(());
        }
        let slot = self
            .filer
            .fetch_table_page((at / PAGE_BYTES as u64) as u32)?;
        self.filer
            .copy_out(slot, (at % PAGE_BYTES as u64) as usize, into);
        Ok(())
    }

    fn write(&mut self, at: u64, bytes: &[u8]) -> Result<(), Halt> {
        if bytes.is_empty() {
            return Ok(());
        }
        let slot = self
            .filer
            .fetch_table_page((at / PAGE_BYTES as u64) as u32)?;
        self.filer
            .swapper
            .change(slot, (at % PAGE_BYTES as u64) as u32, bytes);
        Ok(())
    }
}
