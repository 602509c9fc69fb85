//! A document is put: its bytes, then its head, and last the mark that lets it outlast the session.
ghost use Rattle.std.specs.Prelude.{◌≡◌, ◌⊎◌, ◌≤◌, ◌<◌, ◌+◌, ◌*◌, ℕ, List, length, Some, Ok, Err, IfOk, IfErr, OnOk, MatchResult, ◌≢◌, false};
ghost use Rattle.std.specs.Int.{div_ceil};
ghost use Rattle.std.specs.Io.KnownBytes.{IsAtEnd};
ghost use Rattle.trace_io.specs.Stream.{Rose};
ghost use Rattle.embedded.specs.Called.{HasStopped};
ghost use Rattle.document_head.specs.Head.{head_page};
ghost use Rattle.flat_machine.specs.File.{File, size};
ghost use Rattle.flat_machine.specs.Machine.{Machine};
ghost use Rattle.flat_machine.specs.Next.{new_id};
ghost use Rattle.embedded.specs.Engine.{IsClosed, StandsFor, disk_of};
ghost use Rattle.embedded.specs.Spending.{HasFailed, IsLater, Spends};
ghost use Rattle.documents.specs.Course.{Led, is_quiet};
ghost use Rattle.documents.specs.Pieces.{adding, appended, marked, written};
ghost use Rattle.documents.specs.Putting.{PutFails, Puts};
ghost use Rattle.documents.specs.Stands.{HasFilled, HasOther, IsAsBefore, IsFresh, IsPut, blank, is_failure};
ghost use Rattle.documents.specs.Ends.{EndsWith, IsUndone, Marked};
ghost use Rattle.documents.specs.Spent.{PutsWithin, windows};
ghost use Rattle.documents.specs.Room.{HasNoRoom, MissesRoom, is_full};
ghost use Rattle.embedded.specs.Opened.{Reveals};
ghost use Rattle.embedded.specs.Stops.{Leaves};
ghost use Rattle.labelled_disk.specs.Sectors.{Sector};
ghost use Rattle.flat_machine.specs.IsMachine.{IsMachine};
ghost use Rattle.documents.specs.Stops.{HasWhole, Marks, StaysUnseen, WholeOrAbsent, WithOrWithout};

use crate::streams::fill;
use crate::window::store_pages;
use crate::{Fault, Head, KIND, Name, Progress};
use embedded::{Code, Engine};
use flat_machine::{Call, Refusal, Reply};
use labelled_disk::{Disk, FileId, Halt};
use std::alloc::Allocator;
use trace_io::Source;

// No volume has so many pages.
const FULL: Code = Code::Refused(Refusal::Full);

// The file that was made.
fn file_of(made: Result<Reply, Code>) -> Result<FileId, Code>
    ensures ok { IfOk result (λ id. made ≡ Ok (Reply.File id)) }
    ensures file { (id : ℕ) → made ≡ Ok (Reply.File id) → result ≡ Ok id }
    ensures code { (code : Code) → made ≡ Err code → result ≡ Err code }
    ensures halted { (why : Halt) → result ≡ Err (Code.Halted why) → made ≡ Err (Code.Halted why) }
{
    match made {
        Ok(Reply::File(id)) => Ok(id),
        Ok(_) => Err(Code::Argument),
        Err(code) => Err(code),
    }
}

// Makes a temporary file for a document.
fn new_file<D: Disk + Drop, A: Allocator>(engine: &mut Engine<D, A>) -> Result<FileId, Code>
    ensures led { OnOk result (Led is_quiet engine.old engine.new) }
    ensures created { EndsWith (Call.Create 1 17475) engine.new }
    ensures made { (m : Machine) → StandsFor engine.old m → MatchResult result
        (λ id. (id ≡ new_id m) × StandsFor engine.new (adding (blank m) m))
        (λ e. (e ≡ is_failure) ⊎ StandsFor engine.new m) }
    ensures full { (m : Machine) → StandsFor engine.old m → result ≡ Err is_full → MissesRoom m 1 }
    ensures closed { IsClosed engine.old → (result ≡ Err Code.Closed) × (engine.new ≡ engine.old) }
    ensures stops { (id : ℕ) → StaysUnseen id engine.old engine.new }
    ensures stopped { (why : Halt) → result ≡ Err (Code.Halted why) → HasStopped why engine.new }
    ensures cause { result ≡ Err is_failure → HasFailed engine.old engine.new }
    ensures spends { Spends 1 0 engine.old engine.new }
{
    let made = engine.create(1, KIND);
    file_of(made)
}

// Appends bytes to a file of so many pages, and answers how many pages it has then.
fn append<D: Disk + Drop, A: Allocator>(
    engine: &mut Engine<D, A>,
    id: FileId,
    pages: u32,
    bytes: &[u8],
) -> Result<u32, Code>
    ensures room { IfOk result (λ all. 512 * pages + length bytes.now ≤ 512 * all) }
    ensures count { IfOk result (λ all. all ≡ pages + div_ceil (length bytes.now) 512) }
    ensures grown { (m : Machine) (f : File) → IsFresh m id → f.id ≡ id → size f ≡ pages
        → StandsFor engine.old (adding f m)
        → MatchResult result (λ all. StandsFor engine.new (adding (appended all pages bytes.now f) m))
        (λ e. (e ≡ is_failure) ⊎ HasOther m id engine.new) }
    ensures full { (m : Machine) (f : File) → IsMachine m → IsFresh m id → f.id ≡ id → size f ≡ pages
        → StandsFor engine.old (adding f m) → result ≡ Err is_full
        → MissesRoom m (pages + div_ceil (length bytes.now) 512) }
    ensures led { OnOk result (Led is_quiet engine.old engine.new) }
    ensures stops { StaysUnseen id engine.old engine.new }
    ensures stopped { (why : Halt) → result ≡ Err (Code.Halted why) → HasStopped why engine.new }
    ensures cause { result ≡ Err is_failure → HasFailed engine.old engine.new }
    ensures spends { Spends 5 (div_ceil (length bytes.now) 512) engine.old engine.new }
{
    let Ok(more) = u32::try_from(bytes.len().div_ceil(512)) else {
        return Err(FULL);
    };
    let Some(all) = pages.checked_add(more) else {
        return Err(FULL);
    };
    match engine.set_size(id, all) {
        Ok(_) => {}
        Err(code) => return Err(code),
    }
    match store_pages(engine, id, pages, bytes) {
        Ok(()) => Ok(all),
        Err(code) => Err(code),
    }
}

// Appends what the source has left to a file of one page, a buffer at a time, and answers how many bytes these were.
fn append_all<D: Disk + Drop, A: Allocator, S: Source, P: Progress>(
    engine: &mut Engine<D, A>,
    buffer: &mut [u8],
    id: FileId,
    source: &mut S,
    progress: &mut P,
) -> Result<u64, Fault>
    ensures led { OnOk result (Led is_quiet engine.old engine.new) }
    ensures ended { OnOk result (IsAtEnd (S.left source.new)) }
    ensures filled { (m : Machine) → IsFresh m id → id ≡ new_id m → StandsFor engine.old (adding (blank m) m)
        → MatchResult result (λ count. HasFilled m count (S.left source.old) (S.left source.new) engine.new)
        (λ e. (e ≡ Fault.Call is_failure) ⊎ HasOther m id engine.new) }
    ensures full { (m : Machine) → IsMachine m → IsFresh m id → id ≡ new_id m
        → StandsFor engine.old (adding (blank m) m) → result ≡ Err (Fault.Call is_full)
        → HasNoRoom m (S.left source.old) (S.left source.new) }
    ensures stops { StaysUnseen id engine.old engine.new }
    ensures other { result ≢ Err Fault.NoDocument }
    ensures long { result ≢ Err Fault.LongName }
    ensures input { result ≡ Err Fault.Input → Rose (S.faults source.old) (S.faults source.new) }
    ensures stopped { (why : Halt) → result ≡ Err (Fault.Call (Code.Halted why)) → HasStopped why engine.new }
    ensures cause { result ≡ Err (Fault.Call is_failure) → HasFailed engine.old engine.new }
    ensures later { IsLater (disk_of engine.old) (disk_of engine.new) }
    ensures spends { (xs : List ℕ) → S.left source.old ≡ Some xs
        → Spends (5 * windows (length buffer.old) (length xs)) (div_ceil (length xs) 512) engine.old engine.new }
{
    let room = buffer.len() - buffer.len() % 512;
    if room == 0 {
        return Err(Fault::Buffer);
    }
    let mut pages = 1u32;
    let mut bytes = 0;
    let Ok(mut count) = fill(source, &mut buffer[..room]) else {
        return Err(Fault::Input);
    };
    'windows: while count > 0 {
        match append(engine, id, pages, &buffer[..count]) {
            Ok(all) => pages = all,
            Err(code) => return Err(Fault::Call(code)),
        }
        bytes += count as u64;
        progress.moved(bytes);
        if count < room {
            return Ok(bytes);
        }
        match fill(source, &mut buffer[..room]) {
            Ok(next) => count = next,
            Err(_) => return Err(Fault::Input),
        }
    }
    Ok(bytes)
}

// Writes the head of a document whose bytes are there, and marks it as permanent.
fn seal<D: Disk + Drop, A: Allocator>(
    engine: &mut Engine<D, A>,
    id: FileId,
    head: &Head,
) -> Result<(), Code>
    ensures marked { OnOk result (Marked id engine.old engine.new) }
    ensures sealed { (m : Machine) (f : File) → IsFresh m id → f.id ≡ id → StandsFor engine.old (adding f m)
        → MatchResult result
        (λ done. StandsFor engine.new (adding (marked (written 0 (head_page head.now.bytes head.now.name.bytes) f)) m))
        (λ e. (e ≡ is_failure) ⊎ HasOther m id engine.new) }
    ensures stops { (m : Machine) (f : File) → IsMachine m → IsFresh m id → f.id ≡ id → f.permanent ≡ false
        → StandsFor engine.old (adding f m)
        → Marks (WithOrWithout m (marked (written 0 (head_page head.now.bytes head.now.name.bytes) f))) m id engine.old
        result engine.new }
    ensures room { (m : Machine) → StandsFor engine.old m → result ≢ Err is_full }
    ensures wide { length (head_page head.now.bytes head.now.name.bytes) ≡ 512 }
    ensures stopped { (why : Halt) → result ≡ Err (Code.Halted why) → HasStopped why engine.new }
    ensures cause { result ≡ Err is_failure → HasFailed engine.old engine.new }
    ensures spends { Spends 5 1 engine.old engine.new }
{
    match store_pages(engine, id, 0, &head.to_page()) {
        Ok(()) => {}
        Err(code) => return Err(code),
    }
    match engine.make_permanent(id) {
        Ok(_) => Ok(()),
        Err(code) => Err(code),
    }
}

// Fills a file of one page with what the source has left, and makes a document of it.
fn fill_file<D: Disk + Drop, A: Allocator, S: Source, P: Progress>(
    engine: &mut Engine<D, A>,
    buffer: &mut [u8],
    id: FileId,
    source: &mut S,
    name: Name,
    progress: &mut P,
) -> Result<(), Fault>
    ensures marked { OnOk result (Marked id engine.old engine.new) }
    ensures ended { OnOk result (IsAtEnd (S.left source.new)) }
    ensures document { (m : Machine) → IsFresh m id → id ≡ new_id m → StandsFor engine.old (adding (blank m) m)
        → MatchResult result (λ done. IsPut m id name.bytes (S.left source.old) engine.new)
        (λ e. (e ≡ Fault.Call is_failure) ⊎ HasOther m id engine.new) }
    ensures full { (m : Machine) → IsMachine m → IsFresh m id → id ≡ new_id m
        → StandsFor engine.old (adding (blank m) m) → result ≡ Err (Fault.Call is_full)
        → HasNoRoom m (S.left source.old) (S.left source.new) }
    ensures stops { (m : Machine) → IsMachine m → IsFresh m id → id ≡ new_id m
        → StandsFor engine.old (adding (blank m) m)
        → Marks (WholeOrAbsent m name.bytes (S.left source.old)) m id engine.old result engine.new }
    ensures other { result ≢ Err Fault.NoDocument }
    ensures long { result ≢ Err Fault.LongName }
    ensures input { result ≡ Err Fault.Input → Rose (S.faults source.old) (S.faults source.new) }
    ensures stopped { (why : Halt) → result ≡ Err (Fault.Call (Code.Halted why)) → HasStopped why engine.new }
    ensures cause { result ≡ Err (Fault.Call is_failure) → HasFailed engine.old engine.new }
    ensures later { IsLater (disk_of engine.old) (disk_of engine.new) }
    ensures spends { (xs : List ℕ) → S.left source.old ≡ Some xs
        → PutsWithin 5 1 (length buffer.old) (length xs) engine.old engine.new }
{
    let bytes = match append_all(engine, buffer, id, source, progress) {
        Ok(bytes) => bytes,
        Err(fault) => return Err(fault),
    };
    match seal(engine, id, &Head { bytes, name }) {
        Ok(()) => Ok(()),
        Err(code) => Err(Fault::Call(code)),
    }
}

// What is answered where a document was not made, and its file was deleted: a halt, where that stopped.
pub(crate) fn fault_after(fault: Fault, deleted: Result<Reply, Code>) -> Fault
    ensures which { (result ≡ fault)
        ⊎ ((why : Halt) × (deleted ≡ Err (Code.Halted why)) × (result ≡ Fault.Call (Code.Halted why))) }
    ensures halted { (why : Halt) → deleted ≡ Err (Code.Halted why) → result ≡ Fault.Call (Code.Halted why) }
{
    match deleted {
        Err(Code::Halted(halt)) => Fault::Call(Code::Halted(halt)),
        _ => fault,
    }
}

/// Puts what the source has left into a new document. Until its last call the file is a temporary one: a volume that
/// is stopped before then has no trace of it once it is restored.
pub fn put<D: Disk + Drop, A: Allocator, S: Source, P: Progress>(
    engine: &mut Engine<D, A>,
    buffer: &mut [u8],
    source: &mut S,
    name: &str,
    progress: &mut P,
) -> Result<FileId, Fault>
    ensures document { (m : Machine) → StandsFor engine.old m
        → Puts m name.now (S.left source.old) (S.left source.new) engine.old engine.new result }
    ensures closed { IsClosed engine.old → length name.now ≤ 255
        → (result ≡ Err (Fault.Call Code.Closed)) × (engine.new ≡ engine.old) × (source.new ≡ source.old) }
    ensures fails { PutFails name.now (S.faults source.old) (S.faults source.new) engine.old engine.new result }
    ensures marked { IfOk result (λ id. Marked id engine.old engine.new) }
    ensures undone { IfErr result (λ e. (engine.new ≡ engine.old) ⊎ IsUndone engine.new) }
    ensures ended { OnOk result (IsAtEnd (S.left source.new)) }
    ensures later { IsLater (disk_of engine.old) (disk_of engine.new) }
    ensures spends { (xs : List ℕ) → S.left source.old ≡ Some xs
        → PutsWithin 7 1 (length buffer.old) (length xs) engine.old engine.new }
{
    let Ok(name) = Name::from(name) else {
        return Err(Fault::LongName);
    };
    let id = match new_file(engine) {
        Ok(id) => id,
        Err(code) => return Err(Fault::Call(code)),
    };
    match fill_file(engine, buffer, id, source, name, progress) {
        Ok(()) => Ok(id),
        Err(fault) => Err(fault_after(fault, engine.delete(id))),
    }
}
