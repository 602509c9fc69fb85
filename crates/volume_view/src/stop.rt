//! Why the file map is not compared.
ghost use Rattle.std.specs.Prelude.{◌≡◌};

use std::alloc::AllocError;

/// Why the file map is not compared.
#[derive(Clone, Copy, Debug, PartialEq, Eq)]
pub(crate) enum Stop {
    NoMemory,
    /// This page of the map breaks its form.
    Broken { page: u32 },
}

impl From<AllocError> for Stop {
    ghost use Rattle.volume_view.specs.declared.stop.Stop.{Stop};

    ghost from_gives = { λ error given. given ≡ Stop.NoMemory };

    fn from(_: AllocError) -> Stop {
        Stop::NoMemory
    }
}
