//! What may be done with the pages of an interval, and the byte of a record that says it.
ghost use Rattle.std.specs.Prelude.{◌≡◌, Some, IfSome};
ghost use Rattle.swap_units.specs.Mode.{is_mapped, is_writable, is_read_only, code_of, mode_in};

/// Whether a window shows the pages, and what it lets through.
#[derive(Clone, Copy, Debug, Default, PartialEq, Eq)]
pub enum Mode {
    #[default]
    Unmapped,
    Mapped { writable: bool, anonymous: bool },
}

impl Mode {
    /// Whether a window shows the pages.
    pub fn is_mapped(self) -> bool
        ensures { result ≡ is_mapped self }
    {
        matches!(self, Mode::Mapped { .. })
    }

    /// Whether the pages are shown, and may be stored to.
    pub fn is_writable(self) -> bool
        ensures { result ≡ is_writable self }
    {
        matches!(self, Mode::Mapped { writable: true, .. })
    }

    /// Whether the pages are shown, and may be loaded only.
    pub fn is_read_only(self) -> bool
        ensures { result ≡ is_read_only self }
    {
        matches!(
            self,
            Mode::Mapped {
                writable: false,
                ..
            }
        )
    }

    /// The byte of the mode: 0 unmapped, 1 read-only, 2 writable, 3 anonymous and read-only, 4 anonymous and writable.
    pub fn to_code(self) -> u8
        ensures code { result ≡ code_of self }
        ensures back { mode_in result ≡ Some self }
    {
        match self {
            Mode::Unmapped => 0,
            Mode::Mapped {
                writable: false,
                anonymous: false,
            } => 1,
            Mode::Mapped {
                writable: true,
                anonymous: false,
            } => 2,
            Mode::Mapped {
                writable: false,
                anonymous: true,
            } => 3,
            Mode::Mapped {
                writable: true,
                anonymous: true,
            } => 4,
        }
    }

    /// The mode of a byte, or None where no mode has it.
    pub fn from_code(code: u8) -> Option<Mode>
        ensures mode { result ≡ mode_in code }
        ensures back { IfSome result (λ mode. code_of mode ≡ code) }
    {
        match code {
            0 => Some(Mode::Unmapped),
            1 => Some(Mode::Mapped {
                writable: false,
                anonymous: false,
            }),
            2 => Some(Mode::Mapped {
                writable: true,
                anonymous: false,
            }),
            3 => Some(Mode::Mapped {
                writable: false,
                anonymous: true,
            }),
            4 => Some(Mode::Mapped {
                writable: true,
                anonymous: true,
            }),
            _ => None,
        }
    }
}
