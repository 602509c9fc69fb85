//! What an error of the file map is to a session.
ghost use Rattle.std.specs.Prelude.{◌≡◌};
ghost use Rattle.filer_kernel.specs.Halted.{halted};

use file_map::MapError;
use labelled_disk::{Evidence, Halt, Structure};

/// The answer of a call of the file map. A map that is full is damaged, as one of which a page breaks its form.
pub fn halted<T>(answer: Result<T, MapError<Halt>>) -> Result<T, Halt>
    ensures { result ≡ halted answer }
{
    match answer {
        Ok(value) => Ok(value),
        Err(MapError::Full) => Err(Halt::Damaged(Evidence::Malformed {
            structure: Structure::FileMap,
            page: 0,
        })),
        Err(MapError::Malformed { page }) => Err(Halt::Damaged(Evidence::Malformed {
            structure: Structure::FileMap,
            page,
        })),
        Err(MapError::Mem(halt)) => Err(halt),
    }
}
