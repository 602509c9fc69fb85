//! A document is got: its head is read, and then its bytes go to a sink.
ghost use Rattle.std.specs.Prelude.{◌≡◌, ◌≢◌, ◌⊎◌, ◌≤◌, ◌<◌, ◌+◌, ◌*◌, ◌^◌, ℕ, length, Err, Some, None, IfOk, OnOk, MatchResult};
ghost use Rattle.std.specs.Int.{div_ceil};
ghost use Rattle.trace_io.specs.Stream.{Rose};
ghost use Rattle.embedded.specs.Called.{HasStopped};
ghost use Rattle.flat_machine.specs.File.{File, file_at, size};
ghost use Rattle.flat_machine.specs.Machine.{Machine};
ghost use Rattle.embedded.specs.Engine.{IsClosed, StandsFor};
ghost use Rattle.embedded.specs.Spending.{HasFailed, Spends};
ghost use Rattle.documents.specs.Course.{Led, is_look};
ghost use Rattle.documents.specs.Ends.{TookSoMany};
ghost use Rattle.documents.specs.Spent.{windows};
ghost use Rattle.documents.specs.Refusals.{IsNoDocument};
ghost use Rattle.documents.specs.Stands.{HasGot, HasGotPages, HasSent, StillFor, is_failure};

use crate::window::load_pages;
use crate::{Fault, Head, Listed, Progress, describe};
use embedded::{Code, Engine};
use labelled_disk::{Disk, FileId, Halt};
use std::alloc::Allocator;
use trace_io::Sink;

// Bytes of a file from the start of a page on.
#[derive(Clone, Copy)]
struct Part {
    id: FileId,
    page: u32,
    bytes: u64,
}

// Loads a piece of a file from the start of a page on, and hands it to the sink.
fn copy_piece<D: Disk + Drop, A: Allocator, S: Sink>(
    engine: &mut Engine<D, A>,
    piece: &mut [u8],
    id: FileId,
    page: u32,
    sink: &mut S,
) -> Result<(), Fault>
    ensures taken { OnOk result (TookSoMany (length piece.old) (S.took sink.old) (S.took sink.new)) }
    ensures later { S.faults sink.old ≤ S.faults sink.new }
    ensures width { length piece.new ≡ length piece.old }
    ensures other { result ≢ Err Fault.NoDocument }
    ensures long { result ≢ Err Fault.LongName }
    ensures sent { (m : Machine) (f : File) → StandsFor engine.old m → file_at m.files id ≡ Some f → MatchResult result
        (λ done. HasSent m f (512 * page) (length piece.old) (S.took sink.old) (S.took sink.new) engine.new)
        (λ e. (e ≡ Fault.Call is_failure) ⊎ StillFor m engine.new) }
    ensures led { OnOk result (Led is_look engine.old engine.new) }
    ensures output { result ≡ Err Fault.Output → Rose (S.faults sink.old) (S.faults sink.new) }
    ensures stopped { (why : Halt) → result ≡ Err (Fault.Call (Code.Halted why)) → HasStopped why engine.new }
    ensures cause { result ≡ Err (Fault.Call is_failure) → HasFailed engine.old engine.new }
    ensures spends { Spends 4 (div_ceil (length piece.old) 512) engine.old engine.new }
{
    match load_pages(engine, id, page, piece) {
        Ok(()) => {}
        Err(code) => return Err(Fault::Call(code)),
    }
    match sink.put(piece) {
        Ok(()) => Ok(()),
        Err(_) => Err(Fault::Output),
    }
}

// Hands a part to the sink, a buffer at a time.
fn copy<D: Disk + Drop, A: Allocator, S: Sink, P: Progress>(
    engine: &mut Engine<D, A>,
    buffer: &mut [u8],
    part: Part,
    sink: &mut S,
    progress: &mut P,
) -> Result<(), Fault>
    requires { 512 * part.page + part.bytes < 2 ^ 41 }
    ensures taken { OnOk result (TookSoMany part.bytes (S.took sink.old) (S.took sink.new)) }
    ensures other { result ≢ Err Fault.NoDocument }
    ensures long { result ≢ Err Fault.LongName }
    ensures sent { (m : Machine) (f : File) → StandsFor engine.old m → file_at m.files part.id ≡ Some f
        → MatchResult result
        (λ done. HasSent m f (512 * part.page) part.bytes (S.took sink.old) (S.took sink.new) engine.new)
        (λ e. (e ≡ Fault.Call is_failure) ⊎ StillFor m engine.new) }
    ensures led { OnOk result (Led is_look engine.old engine.new) }
    ensures output { result ≡ Err Fault.Output → Rose (S.faults sink.old) (S.faults sink.new) }
    ensures stopped { (why : Halt) → result ≡ Err (Fault.Call (Code.Halted why)) → HasStopped why engine.new }
    ensures cause { result ≡ Err (Fault.Call is_failure) → HasFailed engine.old engine.new }
    ensures spends { (most : ℕ) → part.bytes ≤ most
        → Spends (4 * windows (length buffer.old) most) (div_ceil most 512) engine.old engine.new }
{
    let room = buffer.len() - buffer.len() % 512;
    if room == 0 {
        return Err(Fault::Buffer);
    }
    let Part {
        id,
        mut page,
        bytes,
    } = part;
    let mut left = bytes;
    'pieces: while left > 0 {
        let count = left.min(room as u64);
        match copy_piece(engine, &mut buffer[..count as usize], id, page, sink) {
            Ok(()) => {}
            Err(fault) => return Err(fault),
        }
        left -= count;
        page += (count / 512) as u32;
        progress.moved(bytes - left);
    }
    Ok(())
}

/// Hands the bytes of a document to a sink, and answers its head.
pub fn get<D: Disk + Drop, A: Allocator, S: Sink, P: Progress>(
    engine: &mut Engine<D, A>,
    buffer: &mut [u8],
    id: FileId,
    sink: &mut S,
    progress: &mut P,
) -> Result<Head, Fault>
    ensures got { (m : Machine) → StandsFor engine.old m → MatchResult result
        (λ head. HasGot m id head (S.took sink.old) (S.took sink.new) engine.new)
        (λ e. (e ≡ Fault.Call is_failure) ⊎ StillFor m engine.new) }
    ensures taken { IfOk result (λ head. TookSoMany head.bytes (S.took sink.old) (S.took sink.new)) }
    ensures nothing { result ≡ Err Fault.NoDocument → sink.new ≡ sink.old }
    ensures refused { (m : Machine) → StandsFor engine.old m → result ≡ Err Fault.NoDocument → IsNoDocument m id }
    ensures long { result ≢ Err Fault.LongName }
    ensures absent { (m : Machine) → StandsFor engine.old m → file_at m.files id ≡ None → sink.new ≡ sink.old }
    ensures closed { IsClosed engine.old
        → (result ≡ Err (Fault.Call Code.Closed)) × (engine.new ≡ engine.old) × (sink.new ≡ sink.old) }
    ensures led { OnOk result (Led is_look engine.old engine.new) }
    ensures output { result ≡ Err Fault.Output → Rose (S.faults sink.old) (S.faults sink.new) }
    ensures stopped { (why : Halt) → result ≡ Err (Fault.Call (Code.Halted why)) → HasStopped why engine.new }
    ensures cause { result ≡ Err (Fault.Call is_failure) → HasFailed engine.old engine.new }
    ensures spends { (m : Machine) (f : File) → StandsFor engine.old m → file_at m.files id ≡ Some f
        → Spends (5 + 4 * windows (length buffer.old) (512 * size f)) (1 + size f) engine.old engine.new }
{
    let head = match describe(engine, id) {
        Ok(
            Listed {
                head: Some(head),
                ..
            },
        ) => head,
        Ok(_) => return Err(Fault::NoDocument),
        Err(code) => return Err(Fault::Call(code)),
    };
    let part = Part {
        id,
        page: 1,
        bytes: head.bytes,
    };
    match copy(engine, buffer, part, sink, progress) {
        Ok(()) => Ok(head),
        Err(fault) => Err(fault),
    }
}

/// Hands all pages of a file to a sink, whatever it is, and answers how many they are.
pub fn get_pages<D: Disk + Drop, A: Allocator, S: Sink, P: Progress>(
    engine: &mut Engine<D, A>,
    buffer: &mut [u8],
    id: FileId,
    sink: &mut S,
    progress: &mut P,
) -> Result<u32, Fault>
    ensures got { (m : Machine) → StandsFor engine.old m → MatchResult result
        (λ pages. HasGotPages m id pages (S.took sink.old) (S.took sink.new) engine.new)
        (λ e. (e ≡ Fault.Call is_failure) ⊎ StillFor m engine.new) }
    ensures taken { IfOk result (λ pages. TookSoMany (512 * pages) (S.took sink.old) (S.took sink.new)) }
    ensures absent { (m : Machine) → StandsFor engine.old m → file_at m.files id ≡ None → sink.new ≡ sink.old }
    ensures closed { IsClosed engine.old
        → (result ≡ Err (Fault.Call Code.Closed)) × (engine.new ≡ engine.old) × (sink.new ≡ sink.old) }
    ensures led { OnOk result (Led is_look engine.old engine.new) }
    ensures output { result ≡ Err Fault.Output → Rose (S.faults sink.old) (S.faults sink.new) }
    ensures stopped { (why : Halt) → result ≡ Err (Fault.Call (Code.Halted why)) → HasStopped why engine.new }
    ensures cause { result ≡ Err (Fault.Call is_failure) → HasFailed engine.old engine.new }
    ensures spends { (m : Machine) (f : File) → StandsFor engine.old m → file_at m.files id ≡ Some f
        → Spends (5 + 4 * windows (length buffer.old) (512 * size f)) (1 + size f) engine.old engine.new }
{
    let pages = match describe(engine, id) {
        Ok(file) => file.pages,
        Err(code) => return Err(Fault::Call(code)),
    };
    let part = Part {
        id,
        page: 0,
        bytes: u64::from(pages) * 512,
    };
    match copy(engine, buffer, part, sink, progress) {
        Ok(()) => Ok(pages),
        Err(fault) => Err(fault),
    }
}
