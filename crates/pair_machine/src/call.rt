//! What is asked of a pair of volumes, and what it answers.

use labelled_disk::FileId;

/// What is asked of a pair.
#[derive(Clone, Copy, Debug, PartialEq, Eq)]
pub enum PairCall {
    /// The second volume gets a copy of the first one's file.
    Copy { id: FileId },
    /// Are the pages of both volumes' files of this identifier the same?
    Compare { id: FileId },
}

/// Why a pair refuses.
#[derive(Clone, Copy, Debug, PartialEq, Eq)]
pub enum PairRefusal {
    /// The line is no call.
    Syntax,
    /// A volume that should have the file misses it.
    File,
    /// The file may change yet.
    Mutable,
    /// The second volume has a file of the identifier.
    Exists,
    /// The second volume gives out such identifiers itself.
    Serial,
    /// The second volume has no room for the file.
    Full,
}

/// What a pair answers.
#[derive(Clone, Copy, Debug, PartialEq, Eq)]
pub enum PairReply {
    Done,
    Same,
    /// The lowest page that one of the files misses, or whose bytes differ.
    Differs(u32),
    Refused(PairRefusal),
}
