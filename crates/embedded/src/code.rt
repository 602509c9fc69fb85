//! Why a call was not carried out.
ghost use Rattle.std.specs.Prelude.{◌≡◌};
ghost use Rattle.embedded.specs.Answers.{code_number, refusal_number, root_number};

use flat_machine::Refusal;
use labelled_disk::{Halt, RootFault};
use thiserror::Error;

/// Why a call was not carried out.
#[derive(Clone, Copy, Debug, PartialEq, Eq, Error)]
pub enum Code {
    /// The call changed nothing.
    #[error("{0}")]
    Refused(Refusal),
    #[error("there is no further file")]
    NoFile,
    /// The session stopped for good, and its volume is left as it is.
    #[error("{0}")]
    Halted(Halt),
    /// There is no session on the volume.
    #[error("{0}")]
    Root(RootFault),
    #[error("there is no memory left")]
    NoMemory,
    #[error("there is no session")]
    Closed,
    #[error("there is a session already")]
    Open,
    /// A number that the call does not take.
    #[error("the call does not take such a number")]
    Argument,
}

// The place of a refusal among all, from 1 on.
fn refusal_number(why: Refusal) -> u8
    ensures { result ≡ refusal_number why }
{
    match why {
        Refusal::Syntax => 1,
        Refusal::Space => 2,
        Refusal::File => 3,
        Refusal::Size => 4,
        Refusal::Full => 5,
        Refusal::Spaces => 6,
        Refusal::Gap => 7,
        Refusal::Range => 8,
        Refusal::Children => 9,
        Refusal::Mapped(_) => 10,
        Refusal::Window => 11,
        Refusal::Immutable => 12,
        Refusal::NotMapped => 13,
        Refusal::NoMap(_) => 14,
        Refusal::ReadOnly(_) => 15,
        Refusal::FileMapped(_) => 16,
        Refusal::Root => 17,
        Refusal::Ids => 18,
    }
}

fn root_number(why: RootFault) -> u8
    ensures { result ≡ root_number why }
{
    match why {
        RootFault::Disk => 20,
        RootFault::NotVolume(_) => 22,
        RootFault::Unclean => 23,
        RootFault::Version(_) => 24,
        RootFault::BadCount(_) => 25,
    }
}

impl Code {
    /// The number of the code, from 1 on. A call that was carried out has 0.
    pub fn number(self) -> u8
        ensures { result ≡ code_number self }
    {
        match self {
            Code::Refused(why) => refusal_number(why),
            Code::NoFile => 19,
            Code::Halted(Halt::Disk) => 20,
            Code::Halted(Halt::Damaged(_)) => 21,
            Code::Root(why) => root_number(why),
            Code::NoMemory => 26,
            Code::Closed => 27,
            Code::Open => 28,
            Code::Argument => 29,
        }
    }
}
