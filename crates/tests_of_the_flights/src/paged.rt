//! The plain machine with a set of resident pages, as a machine that is stepped.
ghost use Rattle.std.specs.Prelude.{◌≡◌, ◌≤◌, ◌/◌, ◌+◌, ◌-◌, false, true, IfOk, IfErr, is_err};
ghost use Rattle.labelled_disk.specs.declared.evidence.Halt.TheVariants as halt;
ghost use Rattle.flat_machine.specs.Allows.{reply_of};
ghost use Rattle.flat_machine.specs.At.{pages_of};
ghost use Rattle.flat_machine.specs.Form.{IsInForm};
ghost use Rattle.flat_machine.specs.Next.{next};
ghost use Rattle.flat_machine.specs.References.{is_reference};
ghost use Rattle.tests_of_the_flights.specs.Paged.{is_among, first_away, absent, AreFewer, LeavesPages};

use arrayvec::ArrayVec;
use flat_machine::{Call, Reply};
use flight_core::{Stepped, Tried};
use labelled_disk::{Halt, NoMemory, PAGE_BYTES};
use slow_machine::SlowMachine;
use std::alloc::Allocator;

/// Pages of the virtual memory, the one that came first before the others.
type Pages = ArrayVec<u32, 24>;

/// The plain machine, and which pages are resident. Want of memory halts it.
#[derive(Drop)]
pub(crate) struct PagedMachine<A: Allocator> {
    machine: SlowMachine<A>,
    resident: Pages,
    halted: bool,
}

// Whether the page is one of them.
fn is_among(pages: &[u32], page: u32) -> bool
    ensures { result ≡ is_among pages.now page }
{
    pages.iter().any(|p| *p == page)
}

// The first page at so many addresses that is not one of them.
fn first_away(pages: &[u32], address: u32, count: u8) -> Option<u32>
    requires { (1 ≤ count) × (count ≤ 64) }
    ensures { result ≡ first_away pages.now (pages_of address count) }
{
    let end = u64::from(address) + u64::from(count) - 1;
    let first = address / PAGE_BYTES as u32;
    let last = (end / PAGE_BYTES as u64) as u32;
    if !is_among(pages, first) {
        return Some(first);
    }
    if first != last && !is_among(pages, last) {
        return Some(last);
    }
    None
}

// A page comes, and where there is no room the one that came first leaves.
fn bring_in(pages: &mut Pages, page: u32) {
    if is_among(pages, page) {
        return;
    }
    if pages.len() == 24 {
        pages.remove(0);
    }
    pages.push(page);
}

// Pages leave where a space is unmapped, let go or killed.
fn evict(pages: &mut Pages, call: &Call)
    ensures same { is_reference call.now ≡ true → pages.new.items ≡ pages.old.items }
    ensures fewer { AreFewer pages.old.items pages.new.items }
{
    match call {
        Call::Unmap { .. } | Call::Deactivate { .. } | Call::Kill { .. } => pages.clear(),
        _ => {}
    }
}

impl<A: Allocator + Clone> PagedMachine<A> {
    /// No page is resident.
    pub(crate) fn over(machine: SlowMachine<A>) -> PagedMachine<A>
        ensures machine { result.machine ≡ machine }
        ensures runs { result.halted ≡ false }
    {
        PagedMachine {
            machine,
            resident: Pages::new(),
            halted: false,
        }
    }

    // The first page of an unrefused reference that is not resident.
    fn absent(&self, call: &Call) -> Option<u32>
        requires { IsInForm call.now }
        ensures { result ≡ absent self.now.machine self.now.resident.items call.now }
    {
        if self.machine.refusal(call).is_some() {
            return None;
        }
        match call {
            Call::Load { address, count } => first_away(&self.resident, *address, *count),
            Call::Store { address, bytes } => {
                first_away(&self.resident, *address, bytes.as_slice().len() as u8)
            }
            _ => None,
        }
    }

    // Carries out a call. No page comes.
    fn carry_out(&mut self, call: &Call) -> Result<Reply, Halt>
        requires in_form { IsInForm call.now }
        requires runs { self.old.halted ≡ false }
        ensures ok { IfOk result (λ r. (r ≡ reply_of self.old.machine call.now)
            × (self.new.machine ≡ next self.old.machine call.now)) }
        ensures same { is_reference call.now ≡ true → self.new.resident.items ≡ self.old.resident.items }
        ensures fewer { AreFewer self.old.resident.items self.new.resident.items }
        ensures halts { (self.new.halted ≡ is_err result) × IfErr result (λ e. e ≡ halt.Disk) }
    {
        match self.machine.step(call) {
            Ok(reply) => {
                evict(&mut self.resident, call);
                Ok(reply)
            }
            Err(NoMemory) => {
                self.halted = true;
                Err(Halt::Disk)
            }
        }
    }

    // The first page of an unrefused reference that is not resident comes.
    fn bring_next(&mut self, call: &Call)
        requires { IsInForm call.now }
        ensures { (self.new.machine ≡ self.old.machine) × (self.new.halted ≡ self.old.halted) }
    {
        if let Some(page) = self.absent(call) {
            bring_in(&mut self.resident, page);
        }
    }
}

impl<A: Allocator + Clone> Stepped for PagedMachine<A> {
    ghost stands = { λ p m. p.machine ≡ m };

    ghost runs = { λ p. p.halted ≡ false };

    ghost resident = { λ p m page. is_among p.resident.items page ≡ true };

    ghost accounted = { λ before after e. (after.halted ≡ true) × (e ≡ halt.Disk) };

    ghost led = { λ before call after. LeavesPages call before.resident.items after.resident.items };

    fn try_step(&mut self, call: &Call) -> Result<Tried, Halt> {
        if let Some(page) = self.absent(call) {
            return Ok(Tried::Absent(page));
        }
        let reply = self.carry_out(call)?;
        Ok(Tried::Reply(reply))
    }

    fn step(&mut self, call: &Call) -> Result<Reply, Halt> {
        let reply = self.carry_out(call)?;
        self.bring_next(call);
        self.bring_next(call);
        Ok(reply)
    }
}
