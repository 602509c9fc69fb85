//! A run of pages of a file, shown in a space for as long as its bytes are loaded or stored.
ghost use Rattle.std.specs.Prelude.{◌≡◌, ◌⊎◌, ◌<◌, ◌^◌, ◌-◌, ◌%◌, ℕ, false, length, Ok, Err, IsOk, OnOk, IfOk, IfErr, MatchResult, ◌≢◌};
ghost use Rattle.std.specs.Int.{div_ceil};
ghost use Rattle.flat_machine.specs.Machine.{Machine};
ghost use Rattle.embedded.specs.Called.{HasStopped};
ghost use Rattle.embedded.specs.Engine.{IsClosed, StandsFor};
ghost use Rattle.embedded.specs.Spending.{HasFailed, Spends};
ghost use Rattle.documents.specs.Course.{Led, is_look, is_quiet};
ghost use Rattle.documents.specs.Pieces.{after_store};
ghost use Rattle.documents.specs.Stands.{HasRead, StillFor, StoredPart, is_failure};
ghost use Rattle.session_words.specs.StandsFor.{RevealsSettled};
ghost use Rattle.embedded.specs.Stops.{Leaves};
ghost use Rattle.documents.specs.Room.{is_full};
ghost use Rattle.documents.specs.Stops.{StaysUnseen};
ghost use Rattle.documents.specs.Windows.{IsHidden, IsShown, showing};

use embedded::{Code, Engine};
use flat_machine::Reply;
use labelled_disk::{Disk, FileId, Halt};
use std::alloc::Allocator;

/// Pages of a file, from one of them on.
#[derive(Clone, Copy)]
struct Run {
    id: FileId,
    page: u32,
    pages: u32,
}

// The handle of a space that shows a run, and the address of its first byte.
#[derive(Clone, Copy)]
struct Window {
    space: u32,
    address: u32,
}

// What is answered where a call was not carried out, and what it had begun was taken back: a halt, where that stopped.
fn answer_of<T: Drop>(code: Code, undone: Result<T, Code>) -> Code
    ensures which { (result ≡ code)
        ⊎ ((why : Halt) × (undone ≡ Err (Code.Halted why)) × (result ≡ Code.Halted why)) }
    ensures halted { (why : Halt) → undone ≡ Err (Code.Halted why) → result ≡ Code.Halted why }
{
    match undone {
        Err(Code::Halted(halt)) => Code::Halted(halt),
        _ => code,
    }
}

// The handle and the first page of a space that was made.
fn space_of(made: Result<Reply, Code>) -> Result<(u32, u32), Code>
    ensures ok { IfOk result (λ place. made ≡ Ok (Reply.Space place.0 place.1)) }
    ensures space { (handle first : ℕ) → made ≡ Ok (Reply.Space handle first) → result ≡ Ok (handle, first) }
    ensures code { (code : Code) → made ≡ Err code → result ≡ Err code }
    ensures halted { (why : Halt) → result ≡ Err (Code.Halted why) → made ≡ Err (Code.Halted why) }
{
    match made {
        Ok(Reply::Space { handle, first }) => Ok((handle, first)),
        Ok(_) => Err(Code::Argument),
        Err(code) => Err(code),
    }
}

// Shows a run in a space of its own.
fn show<D: Disk + Drop, A: Allocator>(
    engine: &mut Engine<D, A>,
    run: Run,
    writable: bool,
) -> Result<Window, Code>
    ensures led { OnOk result (Led is_quiet engine.old engine.new) }
    ensures look { OnOk result (writable ≡ false → Led is_look engine.old engine.new) }
    ensures shown { (m : Machine) → StandsFor engine.old m
        → IfOk result (λ w. IsShown m run.id run.page run.pages writable w.space w.address
        × StandsFor engine.new (showing m run.id run.page run.pages writable)) }
    ensures kept { (m : Machine) → StandsFor engine.old m
        → IfErr result (λ e. (e ≡ is_failure) ⊎ StandsFor engine.new m) }
    ensures room { (m : Machine) → StandsFor engine.old m → result ≢ Err is_full }
    ensures stopped { (why : Halt) → result ≡ Err (Code.Halted why) → HasStopped why engine.new }
    ensures cause { result ≡ Err is_failure → HasFailed engine.old engine.new }
    ensures even { IfOk result (λ w. w.address % 512 ≡ 0) }
    ensures spends { MatchResult result (λ w. Spends 2 0 engine.old engine.new)
        (λ e. Spends 3 0 engine.old engine.new) }
    ensures closed { IsClosed engine.old → result ≡ Err Code.Closed }
    ensures stops { (id : ℕ) → StaysUnseen id engine.old engine.new }
{
    let made = engine.make_space(0, run.pages, None);
    let (space, first) = match space_of(made) {
        Ok(place) => place,
        Err(code) => return Err(code),
    };
    match engine.map(space, run.id, run.page, writable) {
        Ok(_) => Ok(Window {
            space,
            address: first.wrapping_mul(512),
        }),
        Err(code) => Err(answer_of(code, engine.remove_space(space))),
    }
}

// Takes a window and its space away: what was stored through it is on the medium.
fn hide<D: Disk + Drop, A: Allocator>(engine: &mut Engine<D, A>, window: Window) -> Result<(), Code>
    ensures led { OnOk result (Led is_look engine.old engine.new) }
    ensures stopped { (why : Halt) → result ≡ Err (Code.Halted why) → HasStopped why engine.new }
    ensures same { (why : Halt) → HasStopped why engine.old → HasStopped why engine.new }
    ensures closed { IsClosed engine.old → result ≡ Err Code.Closed }
    ensures hidden { (m last : Machine) → StandsFor engine.old m → IsHidden m window.space last
        → MatchResult result (λ done. StandsFor engine.new last) (λ e. e ≡ is_failure) }
    ensures cause { result ≡ Err is_failure → HasFailed engine.old engine.new }
    ensures spends { Spends 2 0 engine.old engine.new }
    ensures stops { (id : ℕ) → StaysUnseen id engine.old engine.new }
{
    match engine.unmap(window.space) {
        Ok(_) => {}
        Err(code) => return Err(code),
    }
    match engine.remove_space(window.space) {
        Ok(_) => Ok(()),
        Err(code) => Err(code),
    }
}

// Takes a window away, through which bytes were moved, or some of them were not.
fn end<D: Disk + Drop, A: Allocator>(
    engine: &mut Engine<D, A>,
    window: Window,
    moved: Result<(), Code>,
) -> Result<(), Code>
    requires halted { (why : Halt) → moved ≡ Err (Code.Halted why) → HasStopped why engine.old }
    ensures ended { OnOk result (IsOk moved × Led is_look engine.old engine.new) }
    ensures hidden { (m last : Machine) → StandsFor engine.old m → IsHidden m window.space last
        → MatchResult result (λ done. StandsFor engine.new last) (λ e. (e ≡ is_failure) ⊎ StandsFor engine.new last) }
    ensures failed { moved ≡ Err is_failure → result ≡ Err is_failure }
    ensures room { (m last : Machine) → StandsFor engine.old m → IsHidden m window.space last
        → result ≡ Err is_full → moved ≡ Err is_full }
    ensures stops { (id : ℕ) → StaysUnseen id engine.old engine.new }
    ensures stopped { (why : Halt) → result ≡ Err (Code.Halted why) → HasStopped why engine.new }
    ensures cause { result ≡ Err is_failure → (moved ≡ Err is_failure) ⊎ HasFailed engine.old engine.new }
    ensures spends { Spends 2 0 engine.old engine.new }
{
    let hidden = hide(engine, window);
    match moved {
        Ok(()) => hidden,
        Err(code) => Err(answer_of(code, hidden)),
    }
}

// As many pages as so many bytes fill. More than can be mapped are refused.
fn pages_for(bytes: usize) -> u32
    ensures { result < 2 ^ 32 - 1 → result ≡ div_ceil bytes 512 }
{
    u32::try_from(bytes.div_ceil(512)).unwrap_or(u32::MAX)
}

/// Loads bytes of a file from the start of a page on.
pub(crate) fn load_pages<D: Disk + Drop, A: Allocator>(
    engine: &mut Engine<D, A>,
    id: FileId,
    page: u32,
    into: &mut [u8],
) -> Result<(), Code>
    ensures led { OnOk result (Led is_look engine.old engine.new) }
    ensures width { length into.new ≡ length into.old }
    ensures read { (m : Machine) → StandsFor engine.old m
        → MatchResult result (λ done. HasRead m id page into.new engine.new)
        (λ e. (e ≡ is_failure) ⊎ StillFor m engine.new) }
    ensures stops { (m : Machine) → StandsFor engine.old m → Leaves (λ d. RevealsSettled d m) engine.old engine.new }
    ensures stopped { (why : Halt) → result ≡ Err (Code.Halted why) → HasStopped why engine.new }
    ensures cause { result ≡ Err is_failure → HasFailed engine.old engine.new }
    ensures spends { Spends 4 (div_ceil (length into.old) 512) engine.old engine.new }
{
    let pages = pages_for(into.len());
    let window = match show(engine, Run { id, page, pages }, false) {
        Ok(window) => window,
        Err(code) => return Err(code),
    };
    let (_, moved) = engine.load(window.address, into);
    end(engine, window, moved)
}

/// Stores bytes into a file from the start of a page on, and has them on the medium.
pub(crate) fn store_pages<D: Disk + Drop, A: Allocator>(
    engine: &mut Engine<D, A>,
    id: FileId,
    page: u32,
    bytes: &[u8],
) -> Result<(), Code>
    ensures led { OnOk result (Led is_quiet engine.old engine.new) }
    ensures stored { (m : Machine) → StandsFor engine.old m
        → MatchResult result
        (λ done. StandsFor engine.new (after_store id page (div_ceil (length bytes.now) 512) bytes.now m))
        (λ e. StoredPart m id page bytes.now e engine.new) }
    ensures room { (m : Machine) → StandsFor engine.old m → result ≢ Err is_full }
    ensures stops { StaysUnseen id engine.old engine.new }
    ensures stopped { (why : Halt) → result ≡ Err (Code.Halted why) → HasStopped why engine.new }
    ensures cause { result ≡ Err is_failure → HasFailed engine.old engine.new }
    ensures spends { Spends 4 (div_ceil (length bytes.now) 512) engine.old engine.new }
{
    let pages = pages_for(bytes.len());
    let window = match show(engine, Run { id, page, pages }, true) {
        Ok(window) => window,
        Err(code) => return Err(code),
    };
    let (_, moved) = engine.store(window.address, bytes);
    end(engine, window, moved)
}
