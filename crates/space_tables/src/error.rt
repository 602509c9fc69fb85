//! Why a call of the tables was refused or not done.

use flat_machine::Refusal;

/// The call is refused, a page breaks its form, or the memory failed.
#[derive(Debug, Drop)]
pub enum SpaceError<X> {
    Refused(Refusal),
    /// The page of the tables, from 0 to 95, that breaks its form; or page 32, where there would be too many intervals.
    Malformed { page: u32 },
    Mem(X),
}
