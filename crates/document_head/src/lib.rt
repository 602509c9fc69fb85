//! The head of a document: what the first page of its file says.
#![tactic(auto)]

mod head;
mod laws;
mod page;

pub use head::{Head, KIND, NAME_MOST, Name, PAGE_BYTES};
pub use laws::read_back;
