//! Callers of a labelled disk, as another crate writes them.
#![tactic(auto)]

mod copy;
mod settled;
mod through;

pub use copy::copy_page;
pub use settled::sync_label;
pub use through::through_memory;
