//! A memory each of whose accesses counts, costs and may fail.
ghost use Rattle.std.specs.Prelude.{◌≡◌, ◌+◌, ◌≤◌, ◌*◌, length, OnErr, IfOk, replicate};
ghost use Rattle.flat_mem.specs.Rises.{Rose};

use crate::{FlatMem, NoPages, PAGE_BYTES};
use std::alloc::Allocator;

/// An access failed.
#[derive(Clone, Copy, Debug, PartialEq, Eq)]
pub struct Failed;

/// Pages in a vector, for tests of what stands over a memory: each access costs 1, is counted, and may fail.
#[derive(Drop)]
pub struct FlakyMem<A: Allocator> {
    bytes: Vec<u8, A>,
    period: u64,
    accesses: u64,
    faults: u64,
}

impl<A: Allocator> FlakyMem<A> {
    ghost use Rattle.flat_mem.specs.Flaky.{flaky_bytes, flaky_accesses};

    /// A memory of zeros, whose every `period`th access fails; at 0 none does.
    pub fn zeroed(alloc: A, pages: u32, period: u64) -> Result<FlakyMem<A>, NoPages>
        ensures bytes { IfOk result (λ m. flaky_bytes m ≡ replicate (512 * pages) 0) }
        ensures size { IfOk result (λ m. length (flaky_bytes m) ≡ 512 * pages) }
    {
        let mut bytes = Vec::new(alloc);
        match bytes.resize(PAGE_BYTES * pages as usize, 0) {
            Ok(()) => Ok(FlakyMem {
                bytes,
                period,
                accesses: 0,
                faults: 0,
            }),
            Err(_) => Err(NoPages),
        }
    }

    /// How many accesses there were, with those that failed.
    pub fn accesses(&self) -> u64
        ensures { result ≡ flaky_accesses self.now }
    {
        self.accesses
    }
}

// Counts an access, which may fail.
fn count(period: u64, accesses: &mut u64, faults: &mut u64) -> Result<(), Failed>
    ensures cost { accesses.new ≤ accesses.old + 1 }
    ensures later { faults.old ≤ faults.new }
    ensures cause { OnErr result (Rose faults.old faults.new) }
{
    *accesses = accesses.saturating_add(1);
    if period != 0 && *accesses % period == 0 {
        *faults = faults.saturating_add(1);
        return Err(Failed);
    }
    Ok(())
}

impl<A: Allocator> FlatMem for FlakyMem<A> {
    ghost use Rattle.std.specs.Prelude.{◌≡◌, ◌≤◌, length};
    ghost use Rattle.std.proofs.Common.{sym, ◌∙◌};
    ghost use Rattle.flat_mem.specs.Rises.{Rose};
    ghost use Rattle.flat_mem.specs.Flaky.{IsLater};
    ghost use Rattle.flat_mem.specs.FlakyLaws.{later_itself, later_through, rose_wider};

    type Error = Failed;

    const COST: u64 = 1;

    ghost cost = { 1 };

    ghost size = { λ m. length m.bytes.items };

    ghost reveals = { λ m b. b ≡ m.bytes.items };

    ghost spent = { λ m. m.accesses };

    ghost beside = { IsLater };

    ghost only_reads = { λ a b. IsLater a b × (a.bytes.items ≡ b.bytes.items) };

    ghost accounted = { λ a b e. Rose a.faults b.faults };

    ghost revealed_once = { λ m b c h k. h ∙ sym k };

    ghost revealed_length = { λ m b h i. length (h i) };

    ghost same_size = { λ a b h. h.size };

    ghost beside_itself = { later_itself };

    ghost beside_through = { later_through };

    ghost only_reads_itself = { λ m. (later_itself m, λ i. m.bytes.items) };

    ghost only_reads_through = { λ a b c h k. (later_through a b c h.0 k.0, h.1 ∙ k.1) };

    ghost only_reads_beside = { λ a b h. h.0 };

    ghost only_reads_revealed = { λ a b bytes h revealed. revealed ∙ h.1 };

    ghost accounted_wider = { λ a b c d e h k l x. rose_wider _ _ _ _ h.faults l.faults x };

    fn len(&self) -> u64 {
        self.bytes.len() as u64
    }

    fn read(&mut self, at: u64, into: &mut [u8]) -> Result<(), Failed> {
        count(self.period, &mut self.accesses, &mut self.faults)?;
        let from = at as usize;
        let end = from + into.len();
        into.copy_from_slice(&self.bytes[from..end]);
        Ok(())
    }

    fn write(&mut self, at: u64, bytes: &[u8]) -> Result<(), Failed> {
        count(self.period, &mut self.accesses, &mut self.faults)?;
        let from = at as usize;
        let end = from + bytes.len();
        self.bytes[from..end].copy_from_slice(bytes);
        Ok(())
    }
}
