//! What the space tables answered, as a call over a core answers it.
ghost use Rattle.std.specs.Prelude.{◌≡◌};
ghost use Rattle.labelled_disk.specs.declared.evidence.Evidence.TheVariants as evidence;
ghost use Rattle.labelled_disk.specs.declared.evidence.Halt.TheVariants as halt;
ghost use Rattle.labelled_disk.specs.declared.structure.Structure.TheVariants as structures;
ghost use Rattle.table_calls.specs.Answers.{refused_or_halted};

use flat_machine::Refusal;
use labelled_disk::{Evidence, Halt, Structure};
use space_tables::SpaceError;

// A page of the space tables breaks its form.
fn broken(page: u32) -> Halt
    ensures { result ≡ halt.Damaged (evidence.Malformed structures.SpaceTables page) }
{
    Halt::Damaged(Evidence::Malformed {
        structure: Structure::SpaceTables,
        page,
    })
}

/// Reveals a refusal, which the client is given, from a halt.
pub(crate) fn refused_or_halted<T>(
    answer: Result<T, SpaceError<Halt>>,
) -> Result<Result<T, Refusal>, Halt>
    ensures { result ≡ refused_or_halted answer }
{
    match answer {
        Ok(given) => Ok(Ok(given)),
        Err(SpaceError::Refused(word)) => Ok(Err(word)),
        Err(SpaceError::Malformed { page }) => Err(broken(page)),
        Err(SpaceError::Mem(halt)) => Err(halt),
    }
}
