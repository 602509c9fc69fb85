//! The structures of a volume whose pages have a form.
ghost use Rattle.std.specs.Prelude.{◌≡◌, Some, None, IfSome};
ghost use Rattle.labelled_disk.specs.Structure.{structure_number};

use std::fmt::{self, Display, Formatter, Write};

/// What a page belongs to. It is written as its number.
#[derive(Clone, Copy, Debug, PartialEq, Eq)]
pub enum Structure {
    /// Which sectors are used.
    AllocationMap,
    /// Which page of which file stands in which sector.
    FileMap,
    /// The spaces of a session, and what they show.
    SpaceTables,
}

impl Structure {
    ghost use Rattle.labelled_disk.specs.declared.structure.Structure.{Structure};

    /// The number that stands for it in a line about damage.
    pub fn number(self) -> u8
        ensures { result ≡ structure_number self }
    {
        match self {
            Structure::AllocationMap => 1,
            Structure::FileMap => 2,
            Structure::SpaceTables => 3,
        }
    }

    /// The structure of a number: `number` read back.
    pub fn from_number(number: u8) -> Option<Structure>
        ensures numbered { IfSome result (λ s. structure_number s ≡ number) }
        ensures read_back { (s : Structure) → structure_number s ≡ number → result ≡ Some s }
    {
        match number {
            1 => Some(Structure::AllocationMap),
            2 => Some(Structure::FileMap),
            3 => Some(Structure::SpaceTables),
            _ => None,
        }
    }
}

impl Display for Structure {
    fn fmt<W: Write>(&self, f: &mut Formatter<W>) -> fmt::Result {
        write!(f, "{}", self.number())
    }
}
