//! The marks of a file.
ghost use Rattle.std.specs.Prelude.{◌≡◌, ◌<◌};
ghost use Rattle.labelled_disk.specs.Marks.{flags_of, marks_of};

/// What a file is for good, once it is so.
#[derive(Clone, Copy, Debug, PartialEq, Eq)]
pub struct Marks {
    pub permanent: bool,
    pub immutable: bool,
}

impl Marks {
    pub(crate) const PERMANENT: Marks = Marks {
        permanent: true,
        immutable: false,
    };

    pub(crate) const IMMUTABLE: Marks = Marks {
        permanent: false,
        immutable: true,
    };

    /// The flags of a leader whose file has these marks.
    pub fn to_flags(self) -> u8
        ensures value { result ≡ flags_of self }
        ensures read_back { marks_of result ≡ self }
    {
        u8::from(self.permanent) + 2 * u8::from(self.immutable)
    }

    /// The marks that flags say. Six of the bits have no meaning, and are not read.
    pub fn from_flags(flags: u8) -> Marks
        ensures value { result ≡ marks_of flags }
        ensures written_back { flags < 4 → flags_of result ≡ flags }
    {
        Marks {
            permanent: flags % 2 == 1,
            immutable: flags / 2 % 2 == 1,
        }
    }
}
