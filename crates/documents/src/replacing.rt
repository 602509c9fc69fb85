//! Documents are removed, and others put in their place.
ghost use Rattle.std.specs.Prelude.{◌≡◌, ◌⊎◌, ℕ, List, length, Some, Err, IfOk, IfErr, OnOk, MatchResult, ◌≢◌, ◌<◌};
ghost use Rattle.flat_machine.specs.Machine.{Machine};
ghost use Rattle.embedded.specs.Called.{HasStopped};
ghost use Rattle.embedded.specs.Engine.{IsClosed, StandsFor};
ghost use Rattle.embedded.specs.Spending.{HasFailed, Spends};
ghost use Rattle.documents.specs.Course.{Led, is_look};
ghost use Rattle.documents.specs.Ends.{Deleted, Replaced};
ghost use Rattle.documents.specs.Spent.{PutsWithin};
ghost use Rattle.session_words.specs.StandsFor.{RevealsSettled};
ghost use Rattle.embedded.specs.Stops.{Leaves};
ghost use Rattle.documents.specs.Stops.{OldOrNew, ThereOrGone};
ghost use Rattle.documents.specs.Refusals.{IsNoDocument};
ghost use Rattle.documents.specs.Stands.{HasDocument, HasRemoved, IsMostlyAsBefore, IsReplaced, StillFor, is_failure};

use crate::putting::fault_after;
use crate::{Fault, Progress, describe, put};
use embedded::{Code, Engine};
use labelled_disk::{Disk, FileId, Halt};
use std::alloc::Allocator;
use trace_io::Source;

// Refuses what is no document.
fn is_document<D: Disk + Drop, A: Allocator>(
    engine: &mut Engine<D, A>,
    id: FileId,
) -> Result<(), Fault>
    ensures led { OnOk result (Led is_look engine.old engine.new) }
    ensures still { (m : Machine) → StandsFor engine.old m → MatchResult result
        (λ done. HasDocument m id × StillFor m engine.new)
        (λ e. (e ≡ Fault.Call is_failure) ⊎ StillFor m engine.new) }
    ensures stops { (m : Machine) → StandsFor engine.old m → Leaves (λ d. RevealsSettled d m) engine.old engine.new }
    ensures refused { (m : Machine) → StandsFor engine.old m → result ≡ Err Fault.NoDocument → IsNoDocument m id }
    ensures long { result ≢ Err Fault.LongName }
    ensures closed { IsClosed engine.old → (result ≡ Err (Fault.Call Code.Closed)) × (engine.new ≡ engine.old) }
    ensures stopped { (why : Halt) → result ≡ Err (Fault.Call (Code.Halted why)) → HasStopped why engine.new }
    ensures cause { result ≡ Err (Fault.Call is_failure) → HasFailed engine.old engine.new }
    ensures spends { Spends 5 1 engine.old engine.new }
{
    match describe(engine, id) {
        Ok(file) if file.head.is_some() => Ok(()),
        Ok(_) => Err(Fault::NoDocument),
        Err(code) => Err(Fault::Call(code)),
    }
}

/// Removes a document. A file that is none stays.
pub fn remove<D: Disk + Drop, A: Allocator>(
    engine: &mut Engine<D, A>,
    id: FileId,
) -> Result<(), Fault>
    ensures removed { (m : Machine) → StandsFor engine.old m → MatchResult result
        (λ done. HasRemoved m id engine.new) (λ e. (e ≡ Fault.Call is_failure) ⊎ StillFor m engine.new) }
    ensures stops { (m : Machine) → StandsFor engine.old m → Leaves (ThereOrGone m id) engine.old engine.new }
    ensures refused { (m : Machine) → StandsFor engine.old m → result ≡ Err Fault.NoDocument → IsNoDocument m id }
    ensures long { result ≢ Err Fault.LongName }
    ensures deleted { OnOk result (Deleted id engine.old engine.new) }
    ensures closed { IsClosed engine.old → (result ≡ Err (Fault.Call Code.Closed)) × (engine.new ≡ engine.old) }
    ensures stopped { (why : Halt) → result ≡ Err (Fault.Call (Code.Halted why)) → HasStopped why engine.new }
    ensures cause { result ≡ Err (Fault.Call is_failure) → HasFailed engine.old engine.new }
    ensures spends { Spends 6 1 engine.old engine.new }
{
    match is_document(engine, id) {
        Ok(()) => {}
        Err(fault) => return Err(fault),
    }
    match engine.delete(id) {
        Ok(_) => Ok(()),
        Err(code) => Err(Fault::Call(code)),
    }
}

/// Puts what the source has left into a new document, and then removes the one that it replaces.
pub fn replace<D: Disk + Drop, A: Allocator, S: Source, P: Progress>(
    engine: &mut Engine<D, A>,
    buffer: &mut [u8],
    source: &mut S,
    name: &str,
    progress: &mut P,
    old: FileId,
) -> Result<FileId, Fault>
    ensures document { (m : Machine) → StandsFor engine.old m
        → IfOk result (λ id. IsReplaced m old id name.now (S.left source.old) engine.new) }
    ensures kept { (m : Machine) → StandsFor engine.old m
        → IfErr result (λ e. (e ≡ Fault.Call is_failure) ⊎ IsMostlyAsBefore m engine.new) }
    ensures stops { (m : Machine) → StandsFor engine.old m
        → Leaves (OldOrNew m old name.now (S.left source.old)) engine.old engine.new }
    ensures refused { (m : Machine) → StandsFor engine.old m → result ≡ Err Fault.NoDocument → IsNoDocument m old }
    ensures long { result ≡ Err Fault.LongName → 255 < length name.now }
    ensures replaced { IfOk result (λ id. Replaced old id engine.old engine.new) }
    ensures closed { IsClosed engine.old → (result ≡ Err (Fault.Call Code.Closed)) × (engine.new ≡ engine.old) }
    ensures stopped { (why : Halt) → result ≡ Err (Fault.Call (Code.Halted why)) → HasStopped why engine.new }
    ensures cause { result ≡ Err (Fault.Call is_failure) → HasFailed engine.old engine.new }
    ensures spends { (xs : List ℕ) → S.left source.old ≡ Some xs
        → PutsWithin 14 2 (length buffer.old) (length xs) engine.old engine.new }
{
    match is_document(engine, old) {
        Ok(()) => {}
        Err(fault) => return Err(fault),
    }
    let id = match put(engine, buffer, source, name, progress) {
        Ok(id) => id,
        Err(fault) => return Err(fault),
    };
    match engine.delete(old) {
        Ok(_) => Ok(id),
        Err(code) => Err(fault_after(Fault::Call(code), engine.delete(id))),
    }
}
