//! The line about a damaged volume.
ghost use Rattle.std.specs.Prelude.{◌≡◌, ◌≤◌, ◌++◌, codes, decimal, length};
ghost use Rattle.flat_machine.specs.Text.{id_text};
ghost use Rattle.pilot_top.specs.Last.{evidence_words, last_line};
ghost use Rattle.labelled_disk.specs.declared.evidence.Evidence.TheVariants as evidence;

use crate::digits::id_digits;
use crate::last::Cause;
use arrayvec::ArrayVec;
use itoa::Buffer;
use labelled_disk::{Evidence, FileId, Label, Structure, Wanted};

// A page of a file.
fn page_words(id: FileId, page: u32) -> ArrayVec<u8, 32>
    ensures text { result.items ≡ id_text id ++ codes " " ++ decimal page }
    ensures short { length result.items ≤ 27 }
{
    let mut words = ArrayVec::new();
    let _ = words.try_extend_from_slice(&id_digits(id));
    let _ = words.try_extend_from_slice(b" ");
    let _ = words.try_extend_from_slice(Buffer::new().format(page).as_bytes());
    words
}

// A label that is another than the wanted one.
fn mismatch_words(sector: u32, wanted: Wanted, found: Label) -> ArrayVec<u8, 80>
    ensures text { result.items ≡ evidence_words (evidence.Mismatch sector wanted found) }
    ensures short { length result.items ≤ 72 }
{
    let mut words = ArrayVec::new();
    let _ = words.try_extend_from_slice(b"label ");
    let _ = words.try_extend_from_slice(Buffer::new().format(sector).as_bytes());
    let _ = words.try_extend_from_slice(b" ");
    let _ = words.try_extend_from_slice(&page_words(wanted.id, wanted.page));
    let _ = words.try_extend_from_slice(b" ");
    let _ = words.try_extend_from_slice(&page_words(found.id, found.page));
    words
}

// A page of a structure that breaks its form.
fn malformed_words(structure: Structure, page: u32) -> ArrayVec<u8, 80>
    ensures text { result.items ≡ evidence_words (evidence.Malformed structure page) }
    ensures short { length result.items ≤ 72 }
{
    let mut words = ArrayVec::new();
    let _ = words.try_extend_from_slice(b"record ");
    let _ = words.try_extend_from_slice(Buffer::new().format(structure.number()).as_bytes());
    let _ = words.try_extend_from_slice(b" ");
    let _ = words.try_extend_from_slice(Buffer::new().format(page).as_bytes());
    words
}

// A page without a record.
fn missing_words(id: FileId, page: u32) -> ArrayVec<u8, 80>
    ensures text { result.items ≡ evidence_words (evidence.Missing id page) }
    ensures short { length result.items ≤ 72 }
{
    let mut words = ArrayVec::new();
    let _ = words.try_extend_from_slice(b"missing ");
    let _ = words.try_extend_from_slice(&page_words(id, page));
    words
}

/// What stands after `damaged `: what was read, and where.
pub(crate) fn evidence_words(evidence: Evidence) -> ArrayVec<u8, 80>
    ensures text { result.items ≡ evidence_words evidence }
    ensures short { length result.items ≤ 72 }
{
    match evidence {
        Evidence::Mismatch {
            sector,
            wanted,
            found,
        } => mismatch_words(sector, wanted, found),
        Evidence::Malformed { structure, page } => malformed_words(structure, page),
        Evidence::Missing { id, page } => missing_words(id, page),
    }
}

/// The line about a damaged volume.
pub(crate) fn damage_line(evidence: Evidence) -> ArrayVec<u8, 96>
    ensures { result.items ≡ last_line (Cause.Damaged evidence) }
{
    let mut line = ArrayVec::new();
    let _ = line.try_extend_from_slice(b"stopped damaged ");
    let _ = line.try_extend_from_slice(&evidence_words(evidence));
    let _ = line.try_extend_from_slice(b"\n");
    line
}
