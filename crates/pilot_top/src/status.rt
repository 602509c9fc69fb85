//! How a command ended.
ghost use Rattle.std.specs.Prelude.{◌≡◌};
ghost use Rattle.pilot_top.specs.Status.{exit_of};

/// How a command ended.
#[derive(Clone, Copy, Debug, PartialEq, Eq)]
pub enum Status {
    /// The command did all its work.
    Done,
    /// The words are no command.
    Usage,
    /// The disk failed.
    DiskFault,
    /// The source or the sink failed.
    StreamFault,
    /// The disk has no volume that can be opened.
    NotOpened,
    /// The trace did not end within the first 2^32 bytes.
    Long,
    /// There was no memory left.
    NoMemory,
    /// The volume is damaged.
    Damaged,
    /// The files of an old volume have no room in a new one.
    Unfit,
}

impl Status {
    /// The exit status of the program.
    pub fn exit(self) -> u8
        ensures { result ≡ exit_of self }
    {
        match self {
            Status::Done => 0,
            Status::Usage => 2,
            Status::DiskFault => 3,
            Status::StreamFault => 4,
            Status::NotOpened => 5,
            Status::Long => 6,
            Status::NoMemory => 7,
            Status::Damaged => 8,
            Status::Unfit => 9,
        }
    }
}
