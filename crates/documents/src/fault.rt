//! Why a document was not put or got.

use embedded::Code;
use thiserror::Error;

/// Why a document was not put or got.
#[derive(Clone, Copy, Debug, PartialEq, Eq, Error)]
pub enum Fault {
    /// A call on the volume was not carried out.
    #[error("{0}")]
    Call(Code),
    #[error("the file is no document")]
    NoDocument,
    #[error("the name has more than 255 bytes")]
    LongName,
    #[error("the input failed")]
    Input,
    #[error("the output failed")]
    Output,
    /// The buffer that was handed in has no room for a page.
    #[error("the buffer is shorter than a page")]
    Buffer,
}
