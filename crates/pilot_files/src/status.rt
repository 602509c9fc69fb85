//! How the program ends.
ghost use Rattle.std.specs.Prelude.{◌≡◌, ◌≢◌, ◌↔◌};

use documents::Fault;
use embedded::Code;
use labelled_disk::{Halt, RootFault};

/// How the program ends.
#[derive(Clone, Copy, Debug, PartialEq, Eq)]
pub(crate) enum Status {
    Done,
    /// The volume refused a call, or has no such document.
    Refused,
    Usage,
    DiskFault,
    /// A file of the host, or a standard stream, failed.
    StreamFault,
    NotOpened,
    NoMemory,
    Damaged,
}

impl Status {
    /// The exit status.
    pub(crate) fn exit(self) -> u8
        ensures { result ≡ 0 ↔ self ≡ Status.Done }
    {
        match self {
            Status::Done => 0,
            Status::Refused => 1,
            Status::Usage => 2,
            Status::DiskFault => 3,
            Status::StreamFault => 4,
            Status::NotOpened => 5,
            Status::NoMemory => 7,
            Status::Damaged => 8,
        }
    }

    /// What a call that was not carried out ends the program with.
    pub(crate) fn of_code(code: Code) -> Status
        ensures { result ≢ Status.Done }
    {
        match code {
            Code::Halted(Halt::Disk) | Code::Root(RootFault::Disk) => Status::DiskFault,
            Code::Halted(Halt::Damaged(_)) => Status::Damaged,
            Code::Root(_) | Code::Closed | Code::Open => Status::NotOpened,
            Code::NoMemory => Status::NoMemory,
            Code::Refused(_) | Code::NoFile | Code::Argument => Status::Refused,
        }
    }

    /// What a document that was not put or got ends the program with.
    pub(crate) fn of_fault(fault: Fault) -> Status
        ensures { result ≢ Status.Done }
    {
        match fault {
            Fault::Call(code) => Status::of_code(code),
            Fault::NoDocument | Fault::LongName => Status::Refused,
            Fault::Input | Fault::Output => Status::StreamFault,
            Fault::Buffer => Status::NoMemory,
        }
    }
}
