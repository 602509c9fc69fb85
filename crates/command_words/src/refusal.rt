//! Why words were not read.
ghost use Rattle.std.specs.Prelude.{◌≡◌, ◌≢◌};
ghost use Rattle.clap.specs.Words.{kind_of};

use clap::Error;
use clap::error::ErrorKind;
use std::alloc::AllocError;

/// Why words were not read.
#[derive(Clone, Copy, Debug, PartialEq, Eq, thiserror::Error)]
pub enum Refused {
    /// They mean no command.
    #[error("the words are no command")]
    Usage,
    /// There was no memory to read them.
    #[error("there is no memory left")]
    NoMemory,
}

impl From<AllocError> for Refused {
    ghost use Rattle.command_words.specs.declared.refusal.Refused.TheVariants.{NoMemory};

    ghost from_gives = { λ error given. given ≡ NoMemory };

    fn from(_: AllocError) -> Self {
        Refused::NoMemory
    }
}

/// What an error of `clap` says.
pub(crate) fn refusal_of(error: &Error) -> Refused
    ensures memory { kind_of error.now ≡ ErrorKind.OutOfMemory → result ≡ Refused.NoMemory }
    ensures usage { kind_of error.now ≢ ErrorKind.OutOfMemory → result ≡ Refused.Usage }
{
    match error.kind() {
        ErrorKind::OutOfMemory => Refused::NoMemory,
        _ => Refused::Usage,
    }
}
