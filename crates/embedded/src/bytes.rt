//! Bytes of any length, loaded and stored page by page.
ghost use Rattle.std.specs.Prelude.{◌≡◌, ◌⊎◌, ℕ, ◌+◌, ◌-◌, ◌%◌, ◌≤◌, ◌<◌, ◌^◌, length, slice_get, Ok, Err, None, Some, IfOk, IfErr, OnOk, OnErr, MatchOption};
ghost use Rattle.labelled_disk.specs.Calls.{Rose};
ghost use Rattle.labelled_disk.specs.declared.evidence.Halt.TheVariants as halt;
ghost use Rattle.flat_machine.specs.Machine.{Machine};
ghost use Rattle.session_words.specs.StandsFor.{RevealsSettled};
ghost use Rattle.pilot_engine.specs.Referring.{IsAtOnce};
ghost use Rattle.embedded.specs.Called.{HasStopped};
ghost use Rattle.embedded.specs.Engine.{Between, IsClosed, LosesNoFault, StandsFor};
ghost use Rattle.embedded.specs.Spending.{Spends, SpendsOn};
ghost use Rattle.embedded.specs.References.{AreAt, IsPiece, StopsAfter, StopsLoad, Stored};
ghost use Rattle.embedded.specs.Stops.{Leaves, RevealsPart};

use crate::{Code, Engine};
use flat_machine::Refusal;
use labelled_disk::{Disk, Halt};
use std::alloc::Allocator;

// The most bytes of one reference, which lie on one page where it begins at a multiple of them.
const PIECE: u32 = 512;

// There is no such page: those of the memory end before it.
const PAST_END: Code = Code::Refused(Refusal::NoMap(1 << 23));

// How many of so many bytes are moved at once: those up to the end of the page.
fn in_piece(address: u32, count: usize) -> usize
    requires { 1 ≤ count }
    ensures some { IsAtOnce result }
    ensures piece { IsPiece address count result }
    ensures ends { result < count → (address + result) % 512 ≡ 0 }
{
    count.min((PIECE - address % PIECE) as usize)
}

// The address so many bytes after this one, if there is one.
fn address_after(address: u32, done: usize) -> Option<u32>
    ensures { MatchOption result (2 ^ 32 ≤ address + done) (λ at. at ≡ address + done) }
{
    match u32::try_from(done) {
        Ok(done) => address.checked_add(done),
        Err(_) => None,
    }
}

impl<D: Disk + Drop, A: Allocator> Engine<D, A> {
    // Loads those of the bytes after the first ones whose pages are ready, and says how many.
    fn load_at_hand(&mut self, address: u32, into: &mut [u8], done: usize) -> usize
        requires { done < length into.old }
        ensures part { done + result ≤ length into.old }
        ensures loaded { (m : Machine) → StandsFor self.old m → AreAt m address done into.old
            → AreAt m address (done + result) into.new }
        ensures rest { (k : ℕ) → done + result ≤ k → slice_get into.new k ≡ slice_get into.old k }
        ensures left { result ≡ 0 → into.new ≡ into.old }
        ensures ends { 1 ≤ result → done + result < length into.old → (address + done + result) % 512 ≡ 0 }
        ensures closed { IsClosed self.old → result ≡ 0 }
        ensures same { self.new ≡ self.old }
    {
        let Some(at) = address_after(address, done) else {
            return 0;
        };
        self.load_ready(at, &mut into[done..])
    }

    // Loads the piece after the first bytes, which need not be ready, and says how long it is.
    fn fetch_next(&mut self, address: u32, into: &mut [u8], done: usize) -> Result<usize, Code>
        requires { done < length into.old }
        ensures more { IfOk result (λ n. (1 ≤ n) × (done + n ≤ length into.old)
            × (done + n < length into.old → (address + done + n) % 512 ≡ 0)) }
        ensures loaded { (m : Machine) → StandsFor self.old m → AreAt m address done into.old
            → IfOk result (λ n. AreAt m address (done + n) into.new) }
        ensures still { (m : Machine) → StandsFor self.old m
            → StandsFor self.new m ⊎ (result ≡ Err (Code.Halted halt.Disk)) }
        ensures rest { IfOk result (λ n. (k : ℕ) → done + n ≤ k → slice_get into.new k ≡ slice_get into.old k)
            × OnErr result (into.new ≡ into.old) }
        ensures stops { (m : Machine) → StandsFor self.old m → address + done < 2 ^ 32
            → IfErr result (StopsLoad m (address + done) (length into.old - done)) }
        ensures closed { IsClosed self.old → address + done < 2 ^ 32
            → (result ≡ Err Code.Closed) × (self.new ≡ self.old) }
        ensures stopped { (why : Halt) → result ≡ Err (Code.Halted why) → HasStopped why self.new }
        ensures cause { result ≡ Err (Code.Halted halt.Disk)
            → Between (λ before after. Rose before.faults after.faults) self.old self.new }
        ensures leaves { (m : Machine) → StandsFor self.old m → Leaves (λ d. RevealsSettled d m) self.old self.new }
        ensures faults { OnOk result (LosesNoFault self.old self.new) }
        ensures spends { Spends 0 1 self.old self.new }
    {
        let Some(at) = address_after(address, done) else {
            return Err(PAST_END);
        };
        let count = in_piece(at, into.len() - done);
        match self.load_piece(at, &mut into[done..done + count]) {
            Ok(()) => Ok(count),
            Err(code) => Err(code),
        }
    }

    // Loads bytes after the first ones, and says how many: those that are ready, or else one piece.
    fn load_next(&mut self, address: u32, into: &mut [u8], done: usize) -> Result<usize, Code>
        requires { done < length into.old }
        ensures more { IfOk result (λ n. (1 ≤ n) × (done + n ≤ length into.old)
            × (done + n < length into.old → (address + done + n) % 512 ≡ 0)) }
        ensures loaded { (m : Machine) → StandsFor self.old m → AreAt m address done into.old
            → IfOk result (λ n. AreAt m address (done + n) into.new) }
        ensures still { (m : Machine) → StandsFor self.old m
            → StandsFor self.new m ⊎ (result ≡ Err (Code.Halted halt.Disk)) }
        ensures rest { IfOk result (λ n. (k : ℕ) → done + n ≤ k → slice_get into.new k ≡ slice_get into.old k)
            × OnErr result (into.new ≡ into.old) }
        ensures stops { (m : Machine) → StandsFor self.old m → address + done < 2 ^ 32
            → IfErr result (StopsLoad m (address + done) (length into.old - done)) }
        ensures closed { IsClosed self.old → address + done < 2 ^ 32
            → (result ≡ Err Code.Closed) × (self.new ≡ self.old) }
        ensures stopped { (why : Halt) → result ≡ Err (Code.Halted why) → HasStopped why self.new }
        ensures cause { result ≡ Err (Code.Halted halt.Disk)
            → Between (λ before after. Rose before.faults after.faults) self.old self.new }
        ensures leaves { (m : Machine) → StandsFor self.old m → Leaves (λ d. RevealsSettled d m) self.old self.new }
        ensures faults { OnOk result (LosesNoFault self.old self.new) }
        ensures spends { Spends 0 1 self.old self.new }
    {
        let ready = self.load_at_hand(address, into, done);
        if ready > 0 {
            return Ok(ready);
        }
        self.fetch_next(address, into, done)
    }

    // Stores those of the bytes after the first ones whose pages are ready, and says how many.
    fn store_at_hand(&mut self, address: u32, bytes: &[u8], done: usize) -> usize
        requires { done < length bytes.now }
        ensures part { done + result ≤ length bytes.now }
        ensures stored { (m : Machine) → Stored m address done bytes.now self.old
            → Stored m address (done + result) bytes.now self.new }
        ensures leaves { (m : Machine) → Stored m address done bytes.now self.old
            → Leaves (RevealsPart m address bytes.now) self.old self.new }
        ensures ends { 1 ≤ result → done + result < length bytes.now → (address + done + result) % 512 ≡ 0 }
        ensures closed { IsClosed self.old → result ≡ 0 }
        ensures left { result ≡ 0 → self.new ≡ self.old }
        ensures faults { LosesNoFault self.old self.new }
        ensures spends { Spends 0 1 self.old self.new }
    {
        let Some(at) = address_after(address, done) else {
            return 0;
        };
        self.store_ready(at, &bytes[done..])
    }

    // Stores the piece after the first bytes, which need not be ready, and says how long it is.
    fn put_next(&mut self, address: u32, bytes: &[u8], done: usize) -> Result<usize, Code>
        requires { done < length bytes.now }
        ensures more { IfOk result (λ n. (1 ≤ n) × (done + n ≤ length bytes.now)) }
        ensures stored { (m : Machine) → Stored m address done bytes.now self.old
            → IfOk result (λ n. Stored m address (done + n) bytes.now self.new) }
        ensures still { (m : Machine) → Stored m address done bytes.now self.old
            → IfErr result (λ e. Stored m address done bytes.now self.new ⊎ (e ≡ Code.Halted halt.Disk)) }
        ensures stops { (m : Machine) → Stored m address done bytes.now self.old → address + done < 2 ^ 32
            → IfErr result (StopsAfter m address done bytes.now) }
        ensures closed { IsClosed self.old → address + done < 2 ^ 32
            → (result ≡ Err Code.Closed) × (self.new ≡ self.old) }
        ensures stopped { (why : Halt) → result ≡ Err (Code.Halted why) → HasStopped why self.new }
        ensures cause { result ≡ Err (Code.Halted halt.Disk)
            → Between (λ before after. Rose before.faults after.faults) self.old self.new }
        ensures leaves { (m : Machine) → Stored m address done bytes.now self.old
            → Leaves (RevealsPart m address bytes.now) self.old self.new }
        ensures faults { OnOk result (LosesNoFault self.old self.new) }
        ensures ends { IfOk result (λ n. done + n < length bytes.now → (address + done + n) % 512 ≡ 0) }
        ensures spends { Spends 0 1 self.old self.new }
    {
        let Some(at) = address_after(address, done) else {
            return Err(PAST_END);
        };
        let count = in_piece(at, bytes.len() - done);
        match self.store_piece(at, &bytes[done..done + count]) {
            Ok(()) => Ok(count),
            Err(code) => Err(code),
        }
    }

    // Stores bytes after the first ones, and says how many: those whose pages are ready, or else one piece.
    fn store_next(&mut self, address: u32, bytes: &[u8], done: usize) -> Result<usize, Code>
        requires { done < length bytes.now }
        ensures more { IfOk result (λ n. (1 ≤ n) × (done + n ≤ length bytes.now)) }
        ensures stored { (m : Machine) → Stored m address done bytes.now self.old
            → IfOk result (λ n. Stored m address (done + n) bytes.now self.new) }
        ensures still { (m : Machine) → Stored m address done bytes.now self.old
            → IfErr result (λ e. Stored m address done bytes.now self.new ⊎ (e ≡ Code.Halted halt.Disk)) }
        ensures stops { (m : Machine) → Stored m address done bytes.now self.old → address + done < 2 ^ 32
            → IfErr result (StopsAfter m address done bytes.now) }
        ensures closed { IsClosed self.old → address + done < 2 ^ 32
            → (result ≡ Err Code.Closed) × (self.new ≡ self.old) }
        ensures stopped { (why : Halt) → result ≡ Err (Code.Halted why) → HasStopped why self.new }
        ensures cause { result ≡ Err (Code.Halted halt.Disk)
            → Between (λ before after. Rose before.faults after.faults) self.old self.new }
        ensures leaves { (m : Machine) → Stored m address done bytes.now self.old
            → Leaves (RevealsPart m address bytes.now) self.old self.new }
        ensures faults { OnOk result (LosesNoFault self.old self.new) }
        ensures ends { IfOk result (λ n. done + n < length bytes.now → (address + done + n) % 512 ≡ 0) }
        ensures spends { Spends 0 1 self.old self.new }
    {
        let ready = self.store_at_hand(address, bytes, done);
        if ready > 0 {
            return Ok(ready);
        }
        self.put_next(address, bytes, done)
    }

    /// Loads bytes from an address on, and says how many of the first were loaded: all of them, or as many as came
    /// before what the code says.
    pub fn load(&mut self, address: u32, into: &mut [u8]) -> (usize, Result<(), Code>)
        ensures loaded { (m : Machine) → StandsFor self.old m → AreAt m address result.0 into.new }
        ensures still { (m : Machine) → StandsFor self.old m
            → StandsFor self.new m ⊎ (result.1 ≡ Err (Code.Halted halt.Disk)) }
        ensures part { result.0 ≤ length into.old }
        ensures whole { OnOk result.1 (result.0 ≡ length into.old) }
        ensures rest { (k : ℕ) → result.0 ≤ k → slice_get into.new k ≡ slice_get into.old k }
        ensures stops { (m : Machine) → StandsFor self.old m → address + result.0 < 2 ^ 32
            → IfErr result.1 (StopsLoad m (address + result.0) (length into.old - result.0)) }
        ensures closed { IsClosed self.old → 1 ≤ length into.old
            → (result.0 ≡ 0) × (result.1 ≡ Err Code.Closed) × (self.new ≡ self.old) }
        ensures stopped { (why : Halt) → result.1 ≡ Err (Code.Halted why) → HasStopped why self.new }
        ensures cause { result.1 ≡ Err (Code.Halted halt.Disk)
            → Between (λ before after. Rose before.faults after.faults) self.old self.new }
        ensures leaves { (m : Machine) → StandsFor self.old m → Leaves (λ d. RevealsSettled d m) self.old self.new }
        ensures spends { SpendsOn (address % 512 + length into.old) self.old self.new }
    {
        let mut done = 0;
        'pieces: while done < into.len() {
            match self.load_next(address, into, done) {
                Ok(count) => done += count,
                Err(code) => return (done, Err(code)),
            }
        }
        (done, Ok(()))
    }

    /// Stores bytes from an address on, and says how many of the first were stored: all of them, or as many as came
    /// before what the code says.
    pub fn store(&mut self, address: u32, bytes: &[u8]) -> (usize, Result<(), Code>)
        ensures stored { (m : Machine) → StandsFor self.old m
            → Stored m address result.0 bytes.now self.new ⊎ (result.1 ≡ Err (Code.Halted halt.Disk)) }
        ensures part { result.0 ≤ length bytes.now }
        ensures whole { OnOk result.1 (result.0 ≡ length bytes.now) }
        ensures stops { (m : Machine) → StandsFor self.old m → address + result.0 < 2 ^ 32
            → IfErr result.1 (StopsAfter m address result.0 bytes.now) }
        ensures closed { IsClosed self.old → 1 ≤ length bytes.now
            → (result.0 ≡ 0) × (result.1 ≡ Err Code.Closed) × (self.new ≡ self.old) }
        ensures stopped { (why : Halt) → result.1 ≡ Err (Code.Halted why) → HasStopped why self.new }
        ensures cause { result.1 ≡ Err (Code.Halted halt.Disk)
            → Between (λ before after. Rose before.faults after.faults) self.old self.new }
        ensures leaves { (m : Machine) → StandsFor self.old m
            → Leaves (RevealsPart m address bytes.now) self.old self.new }
        ensures spends { SpendsOn (address % 512 + length bytes.now) self.old self.new }
    {
        let mut done = 0;
        'pieces: while done < bytes.len() {
            match self.store_next(address, bytes, done) {
                Ok(count) => done += count,
                Err(code) => return (done, Err(code)),
            }
        }
        (done, Ok(()))
    }
}
