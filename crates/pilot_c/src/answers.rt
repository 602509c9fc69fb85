//! What C gets of an answer.
ghost use Rattle.std.specs.Prelude.{◌≡◌, pos};
ghost use Rattle.pilot_c.specs.Answers.{finding_of, found_in, named_by, number_of, numbers, numbers_of};
ghost use Rattle.pilot_c.specs.Numbers.{report_of, reported};

use embedded::Code;
use flat_machine::{Refusal, Reply as Answered};
use labelled_disk::{Evidence, Halt};
use scavenger::Report as Found;
use std::alloc::Global;

/// The numbers of an answer; those that it does not have are 0.
#[repr(C)]
#[derive(Clone, Copy, Debug, PartialEq, Eq)]
pub struct Reply {
    pub file: u64,
    /// The handle of a space; of a refusal the space that it names.
    pub space: u32,
    /// The first page of a space; of a refusal the page that it names.
    pub page: u32,
    /// The pages of a file or a space; of a volume all sectors that files may have.
    pub pages: u32,
    /// How many of these no file has.
    pub free: u32,
    pub kind: u16,
    pub permanent: bool,
    pub immutable: bool,
}

/// What a restoration found.
#[repr(C)]
#[derive(Clone, Copy, Debug, PartialEq, Eq)]
pub struct Report {
    pub files: u32,
    pub pages: u32,
    pub freed: u32,
    pub lost: u32,
}

/// What stopped a session.
#[repr(C)]
#[derive(Clone, Copy, Debug, PartialEq, Eq)]
pub struct Finding {
    /// 0 nothing did; 1 the disk failed; 2 a label; 3 a record; 4 a missing page.
    pub what: u32,
    pub sector: u32,
    pub file: u64,
    pub found_file: u64,
    pub page: u32,
    pub found_page: u32,
}

// An answer without a number.
const NONE: Reply = Reply {
    file: 0,
    space: 0,
    page: 0,
    pages: 0,
    free: 0,
    kind: 0,
    permanent: false,
    immutable: false,
};

// Nothing.
const NOTHING: Finding = Finding {
    what: 0,
    sector: 0,
    file: 0,
    found_file: 0,
    page: 0,
    found_page: 0,
};

// The numbers of an answer.
fn numbers_of(answer: &Answered) -> Reply
    ensures { result ≡ numbers_of answer.now }
{
    match answer {
        Answered::File(id) => Reply { file: *id, ..NONE },
        Answered::Attributes {
            pages,
            kind,
            permanent,
            immutable,
        } => Reply {
            pages: *pages,
            kind: *kind,
            permanent: *permanent,
            immutable: *immutable,
            ..NONE
        },
        Answered::Volume { capacity, free } => Reply {
            pages: *capacity,
            free: *free,
            ..NONE
        },
        Answered::Space { handle, first } => Reply {
            space: *handle,
            page: *first,
            ..NONE
        },
        Answered::Place {
            handle,
            first,
            pages,
        } => Reply {
            space: *handle,
            page: *first,
            pages: *pages,
            ..NONE
        },
        _ => NONE,
    }
}

// The space or the page that a code names.
fn named_by(code: Code) -> Reply
    ensures { result ≡ named_by code }
{
    match code {
        Code::Refused(Refusal::Mapped(space)) => Reply { space, ..NONE },
        Code::Refused(Refusal::FileMapped(space)) => Reply { space, ..NONE },
        Code::Refused(Refusal::NoMap(page)) => Reply { page, ..NONE },
        Code::Refused(Refusal::ReadOnly(page)) => Reply { page, ..NONE },
        _ => NONE,
    }
}

/// The number of a code, or 0.
pub(crate) fn number<T>(answer: &Result<T, Code>) -> i32
    ensures { result ≡ pos (number_of answer.now) }
{
    match answer {
        Ok(_) => 0,
        Err(code) => i32::from(code.number()),
    }
}

/// The number of an answer; its other numbers are put in `reply`.
pub(crate) fn reply_with(answer: Result<Answered, Code>, reply: &mut Reply) -> i32
    ensures number { result ≡ pos (number_of answer) }
    ensures numbers { reply.new ≡ numbers answer }
{
    match answer {
        Ok(answered) => {
            *reply = numbers_of(&answered);
            0
        }
        Err(code) => {
            *reply = named_by(code);
            i32::from(code.number())
        }
    }
}

// The numbers of what a restoration found.
fn report_of(found: &Found<Global>) -> Report
    ensures { result ≡ report_of found.now }
{
    Report {
        files: found.files,
        pages: found.pages,
        freed: found.freed,
        lost: u32::try_from(found.lost().len()).unwrap_or(u32::MAX),
    }
}

/// The number of an answer to a restoration; what it found is put in `report`.
pub(crate) fn report_with(answer: &Result<Found<Global>, Code>, report: &mut Report) -> i32
    ensures number { result ≡ pos (number_of answer.now) }
    ensures report { report.new ≡ reported report.old answer.now }
{
    match answer {
        Ok(found) => {
            *report = report_of(found);
            0
        }
        Err(code) => i32::from(code.number()),
    }
}

/// What a halt shows.
pub(crate) fn finding_of(halt: Option<Halt>) -> Finding
    ensures { result ≡ finding_of halt }
{
    match halt {
        None => NOTHING,
        Some(Halt::Disk) => Finding { what: 1, ..NOTHING },
        Some(Halt::Damaged(found)) => found_in(found),
    }
}

fn found_in(found: Evidence) -> Finding
    ensures { result ≡ found_in found }
{
    match found {
        Evidence::Mismatch {
            sector,
            wanted,
            found,
        } => Finding {
            what: 2,
            sector,
            file: wanted.id,
            page: wanted.page,
            found_file: found.id,
            found_page: found.page,
        },
        Evidence::Malformed { structure, page } => Finding {
            what: 3,
            file: u64::from(structure.number()),
            page,
            ..NOTHING
        },
        Evidence::Missing { id, page } => Finding {
            what: 4,
            file: id,
            page,
            ..NOTHING
        },
    }
}
