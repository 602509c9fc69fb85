//! A run of pages of a memory.
ghost use Rattle.std.specs.Prelude.{◌*◌, ◌+◌, ◌≤◌};

use crate::{FlatMem, PAGE_BYTES};

/// Some pages of a memory, as a memory. The other pages stand beside it and stay.
///
/// It keeps no fact about the memory that it holds, so that a memory that is lent to it is known again afterwards.
#[derive(Drop)]
pub struct Part<M: FlatMem> {
    mem: M,
    first: u32,
    pages: u32,
}

impl<M: FlatMem> Part<M> {
    ghost use Rattle.flat_mem.specs.Part.{IsPart};

    /// The `pages` pages from page `first` on.
    pub fn of(mem: M, first: u32, pages: u32) -> Part<M>
        requires { 512 * first + 512 * pages ≤ M.size mem }
        ensures { IsPart mem first pages result }
    {
        Part { mem, first, pages }
    }
}

impl<M: FlatMem> FlatMem for Part<M> {
    ghost use Rattle.flat_mem.specs.Part.{part_size, IsKept, IsLooked, RevealsPart};
    ghost use Rattle.flat_mem.specs.PartLaws.{revealed_part_once, part_length, same_part_size, kept_itself, kept_through, looked_itself, looked_through, looked_revealed};

    type Error = M::Error;

    const COST: u64 = M::COST;

    ghost cost = { M.cost };

    ghost size = { λ p. part_size (M.size p.mem) p.first p.pages };

    ghost reveals = { λ p b. RevealsPart M.reveals p b };

    ghost spent = { λ p. M.spent p.mem };

    ghost beside = { λ a b. IsKept M.reveals M.beside a b };

    ghost only_reads = { λ a b. IsLooked M.reveals M.beside M.only_reads a b };

    ghost accounted = { λ a b e. M.accounted a.mem b.mem e };

    ghost revealed_once = { λ p b c h k. revealed_part_once M.reveals M.revealed_once p b c h k };

    ghost revealed_length = { λ p b h. part_length M.reveals M.size M.revealed_length p b h };

    ghost same_size = { λ a b h. same_part_size M.reveals M.beside M.size a b (M.same_size a.mem b.mem h.mem) h };

    ghost beside_itself = { λ p. kept_itself M.reveals M.beside p (M.beside_itself p.mem) };

    ghost beside_through = { λ a b c h k. kept_through M.reveals M.beside a b c (M.beside_through a.mem b.mem c.mem h.mem k.mem) h k };

    ghost only_reads_itself = { λ p. looked_itself M.reveals M.beside M.only_reads p (M.beside_itself p.mem) (M.only_reads_itself p.mem) };

    ghost only_reads_through = { λ a b c h k. looked_through M.reveals M.beside M.only_reads a b c (M.beside_through a.mem b.mem c.mem h.kept.mem k.kept.mem) (M.only_reads_through a.mem b.mem c.mem h.mem k.mem) h k };

    ghost only_reads_beside = { λ a b h. h.kept };

    ghost only_reads_revealed = { λ a b bytes h revealed. looked_revealed M.reveals M.beside M.only_reads M.only_reads_revealed a b bytes h revealed };

    ghost accounted_wider = { λ a b c d e h k l x. M.accounted_wider a.mem b.mem c.mem d.mem e h.mem k.mem l.mem x };

    fn len(&self) -> u64 {
        let bytes = PAGE_BYTES as u64 * self.pages as u64;
        if PAGE_BYTES as u64 * self.first as u64 + bytes <= self.mem.len() {
            bytes
        } else {
            0
        }
    }

    fn read(&mut self, at: u64, into: &mut [u8]) -> Result<(), M::Error> {
        if into.is_empty() {
            return Ok(());
        }
        let start = PAGE_BYTES as u64 * self.first as u64;
        self.mem.read(start + at, into)
    }

    fn write(&mut self, at: u64, bytes: &[u8]) -> Result<(), M::Error> {
        if bytes.is_empty() {
            return Ok(());
        }
        let start = PAGE_BYTES as u64 * self.first as u64;
        self.mem.write(start + at, bytes)
    }
}
