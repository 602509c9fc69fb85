//! What the files of a volume are, one after the other.
ghost use Rattle.std.specs.Prelude.{◌≡◌, ◌⊎◌, Some, None, Err, IfOk, IfSome, OnOk, OnSome, MatchOption, MatchResult};
ghost use Rattle.document_head.specs.Head.{head_page, pages_of};
ghost use Rattle.flat_machine.specs.Allows.{next_file};
ghost use Rattle.flat_machine.specs.Machine.{Machine};
ghost use Rattle.embedded.specs.Called.{HasStopped};
ghost use Rattle.embedded.specs.Engine.{IsClosed, StandsFor};
ghost use Rattle.embedded.specs.Spending.{HasFailed, Spends};
ghost use Rattle.session_words.specs.StandsFor.{RevealsSettled};
ghost use Rattle.embedded.specs.Stops.{Leaves};
ghost use Rattle.documents.specs.Course.{Led, is_look};
ghost use Rattle.documents.specs.Refusals.{HasNoHead, IsNoDocument};
ghost use Rattle.documents.specs.Stands.{HasRead, IsListed, StillFor, is_failure};

use crate::window::load_pages;
use crate::{Head, KIND};
use embedded::{Code, Engine};
use flat_machine::Reply;
use labelled_disk::{Disk, FileId, Halt};
use std::alloc::Allocator;

/// A file of the volume, and its head where it is a document.
#[derive(Debug, Drop)]
pub struct Listed {
    pub id: FileId,
    pub pages: u32,
    pub kind: u16,
    pub head: Option<Head>,
}

// The head of a file of so many pages, if its first page is one.
fn head_in<D: Disk + Drop, A: Allocator>(
    engine: &mut Engine<D, A>,
    id: FileId,
    pages: u32,
) -> Result<Option<Head>, Code>
    ensures pages { IfOk result (λ found. IfSome found (λ head. pages ≡ pages_of head.bytes)) }
    ensures headless { (m : Machine) → StandsFor engine.old m
        → IfOk result (λ found. found ≡ None → HasNoHead m id pages) }
    ensures read { (m : Machine) → StandsFor engine.old m → MatchResult result
        (λ found. IfSome found (λ head. HasRead m id 0 (head_page head.bytes head.name.bytes) engine.new)
        × StillFor m engine.new)
        (λ e. (e ≡ is_failure) ⊎ StillFor m engine.new) }
    ensures stops { (m : Machine) → StandsFor engine.old m → Leaves (λ d. RevealsSettled d m) engine.old engine.new }
    ensures led { OnOk result (Led is_look engine.old engine.new) }
    ensures stopped { (why : Halt) → result ≡ Err (Code.Halted why) → HasStopped why engine.new }
    ensures cause { result ≡ Err is_failure → HasFailed engine.old engine.new }
    ensures spends { Spends 4 1 engine.old engine.new }
{
    let mut page = [0; 512];
    match load_pages(engine, id, 0, &mut page) {
        Ok(()) => Ok(Head::of_file(&page, pages)),
        Err(code) => Err(code),
    }
}

/// What the file with this identifier is.
pub fn describe<D: Disk + Drop, A: Allocator>(
    engine: &mut Engine<D, A>,
    id: FileId,
) -> Result<Listed, Code>
    ensures id { IfOk result (λ file. file.id ≡ id) }
    ensures headless { (m : Machine) → StandsFor engine.old m
        → IfOk result (λ file. file.head ≡ None → IsNoDocument m id) }
    ensures pages { IfOk result (λ file. IfSome file.head (λ head. file.pages ≡ pages_of head.bytes)) }
    ensures listed { (m : Machine) → StandsFor engine.old m → MatchResult result
        (λ file. IsListed m id file.pages file.kind file.head engine.new)
        (λ e. (e ≡ is_failure) ⊎ StillFor m engine.new) }
    ensures stops { (m : Machine) → StandsFor engine.old m → Leaves (λ d. RevealsSettled d m) engine.old engine.new }
    ensures led { OnOk result (Led is_look engine.old engine.new) }
    ensures closed { IsClosed engine.old → (result ≡ Err Code.Closed) × (engine.new ≡ engine.old) }
    ensures stopped { (why : Halt) → result ≡ Err (Code.Halted why) → HasStopped why engine.new }
    ensures cause { result ≡ Err is_failure → HasFailed engine.old engine.new }
    ensures spends { Spends 5 1 engine.old engine.new }
{
    let (pages, kind) = match engine.attributes(id) {
        Ok(Reply::Attributes { pages, kind, .. }) => (pages, kind),
        Ok(_) => return Err(Code::Argument),
        Err(code) => return Err(code),
    };
    let mut file = Listed {
        id,
        pages,
        kind,
        head: None,
    };
    if kind != KIND || pages == 0 {
        return Ok(file);
    }
    match head_in(engine, id, pages) {
        Ok(head) => {
            file.head = head;
            Ok(file)
        }
        Err(code) => Err(code),
    }
}

/// What the file with the least identifier above this one is, if there is one.
pub fn next_listed<D: Disk + Drop, A: Allocator>(
    engine: &mut Engine<D, A>,
    cursor: FileId,
) -> Result<Option<Listed>, Code>
    ensures pages { IfOk result (λ found. IfSome found (λ file.
        IfSome file.head (λ head. file.pages ≡ pages_of head.bytes))) }
    ensures listed { (m : Machine) → StandsFor engine.old m → MatchResult result (λ found. MatchOption found
        ((next_file m cursor ≡ None) × StillFor m engine.new)
        (λ file. (next_file m cursor ≡ Some file.id) × IsListed m file.id file.pages file.kind file.head engine.new))
        (λ e. (e ≡ is_failure) ⊎ StillFor m engine.new) }
    ensures led { IfOk result (λ found. OnSome found (Led is_look engine.old engine.new)) }
    ensures closed { IsClosed engine.old → (result ≡ Err Code.Closed) × (engine.new ≡ engine.old) }
    ensures stopped { (why : Halt) → result ≡ Err (Code.Halted why) → HasStopped why engine.new }
    ensures cause { result ≡ Err is_failure → HasFailed engine.old engine.new }
    ensures spends { Spends 6 1 engine.old engine.new }
{
    let id = match engine.next(cursor) {
        Ok(Reply::File(id)) => id,
        Ok(_) => return Err(Code::Argument),
        Err(Code::NoFile) => return Ok(None),
        Err(code) => return Err(code),
    };
    match describe(engine, id) {
        Ok(file) => Ok(Some(file)),
        Err(code) => Err(code),
    }
}
