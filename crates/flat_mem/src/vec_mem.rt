//! A memory in a vector.
ghost use Rattle.std.specs.Prelude.{◌≡◌, ◌*◌, length, IfOk, replicate};

use crate::{FlatMem, PAGE_BYTES};
use std::alloc::Allocator;

/// The error of a memory that never fails.
#[derive(Drop)]
pub enum Never {}

/// There is no memory for the pages.
#[derive(Clone, Copy, Debug, PartialEq, Eq)]
pub struct NoPages;

/// Pages in a vector. An access costs nothing and never fails.
#[derive(Drop)]
pub struct VecMem<A: Allocator> {
    bytes: Vec<u8, A>,
}

impl<A: Allocator> VecMem<A> {
    ghost use Rattle.flat_mem.specs.Vec.{vec_mem_bytes};

    /// So many pages of zeros.
    pub fn zeroed(alloc: A, pages: u32) -> Result<VecMem<A>, NoPages>
        ensures bytes { IfOk result (λ m. vec_mem_bytes m ≡ replicate (512 * pages) 0) }
        ensures size { IfOk result (λ m. length (vec_mem_bytes m) ≡ 512 * pages) }
    {
        let mut bytes = Vec::new(alloc);
        match bytes.resize(PAGE_BYTES * pages as usize, 0) {
            Ok(()) => Ok(VecMem { bytes }),
            Err(_) => Err(NoPages),
        }
    }
}

impl<A: Allocator> FlatMem for VecMem<A> {
    ghost use Rattle.std.proofs.Common.{sym, ◌∙◌};

    type Error = Never;

    const COST: u64 = 0;

    ghost cost = { 0 };

    ghost size = { λ m. length m.bytes.items };

    ghost reveals = { λ m b. b ≡ m.bytes.items };

    ghost spent = { λ m. 0 };

    ghost beside = { λ a b. length a.bytes.items ≡ length b.bytes.items };

    ghost only_reads = { λ a b. a.bytes.items ≡ b.bytes.items };

    ghost accounted = { λ a b e. ⊥ };

    ghost revealed_once = { λ m b c h k. h ∙ sym k };

    ghost revealed_length = { λ m b h i. length (h i) };

    ghost same_size = { λ a b h. h };

    ghost beside_itself = { λ m i. length m.bytes.items };

    ghost beside_through = { λ a b c h k. Prim.cc };

    ghost only_reads_itself = { λ m i. m.bytes.items };

    ghost only_reads_through = { λ a b c h k. h ∙ k };

    ghost only_reads_beside = { λ a b h i. length (h i) };

    ghost only_reads_revealed = { λ a b bytes h revealed. revealed ∙ h };

    ghost accounted_wider = { λ a b c d e h k l x. x };

    fn len(&self) -> u64 {
        self.bytes.len() as u64
    }

    fn read(&mut self, at: u64, into: &mut [u8]) -> Result<(), Never> {
        let from = at as usize;
        let end = from + into.len();
        into.copy_from_slice(&self.bytes[from..end]);
        Ok(())
    }

    fn write(&mut self, at: u64, bytes: &[u8]) -> Result<(), Never> {
        let from = at as usize;
        let end = from + bytes.len();
        self.bytes[from..end].copy_from_slice(bytes);
        Ok(())
    }
}
