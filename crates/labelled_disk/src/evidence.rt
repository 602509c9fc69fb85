//! What shows that a volume is damaged.

use crate::{FileId, Label, Structure, Wanted};
use thiserror::Error;

/// What was read and can't stand on a sound volume.
#[derive(Clone, Copy, Debug, PartialEq, Eq, Error)]
pub enum Evidence {
    /// The label that was read in a sector doesn't name the wanted page, or is not free where a
    /// free one is wanted, which is asked for as identifier 0 and page 0.
    #[error("sector {sector} has another label than the wanted one")]
    Mismatch {
        sector: u32,
        wanted: Wanted,
        found: Label,
    },
    /// A page of a structure breaks its form.
    #[error("page {page} of window {structure} breaks its form")]
    Malformed {
        structure: Structure,
        page: u32,
    },
    /// The file map has no record of a page that must be there.
    #[error("page {page} of file {id} is missing")]
    Missing {
        id: FileId,
        page: u32,
    },
}

/// Why a session stops for good.
#[derive(Clone, Copy, Debug, PartialEq, Eq, Error)]
pub enum Halt {
    /// The disk failed, and counted a fault.
    #[error("the disk failed")]
    Disk,
    #[error("the volume is damaged: {0}")]
    Damaged(Evidence),
}
