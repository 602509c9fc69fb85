//! How the program ends.
ghost use Rattle.std.specs.Prelude.{◌≡◌};
ghost use Rattle.volume_look.specs.Status.{exit_of};

use volume_view::Condition;

/// How the program ends.
#[derive(Clone, Copy, Debug, PartialEq, Eq)]
pub(crate) enum Status {
    Done,
    Usage,
    DiskFault,
    StreamFault,
    NoImage,
    NoFile,
    NoMemory,
    NotClosed,
    Damaged,
    Refused,
}

impl Status {
    /// The exit status.
    pub(crate) fn exit(self) -> u8
        ensures { result ≡ exit_of self }
    {
        match self {
            Status::Done => 0,
            Status::Usage => 2,
            Status::DiskFault => 3,
            Status::StreamFault => 4,
            Status::NoImage => 5,
            Status::NoFile => 6,
            Status::NoMemory => 7,
            Status::NotClosed => 8,
            Status::Damaged => 9,
            Status::Refused => 10,
        }
    }
}

impl From<Condition> for Status {
    ghost use Rattle.volume_look.specs.Status.{status_of};

    ghost from_gives = { λ condition given. given ≡ status_of condition };

    fn from(condition: Condition) -> Status {
        match condition {
            Condition::Sound => Status::Done,
            Condition::NotClosed => Status::NotClosed,
            Condition::Damaged => Status::Damaged,
            Condition::Refused => Status::Refused,
        }
    }
}
