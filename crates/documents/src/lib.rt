//! Documents: files of a volume whose first page says how many bytes they have, and what they are called.
#![tactic(auto)]

mod fault;
mod getting;
mod laws;
mod listing;
mod progress;
mod putting;
mod replacing;
mod streams;
mod window;

pub use document_head::{Head, KIND, NAME_MOST, Name};
pub use fault::Fault;
pub use getting::{get, get_pages};
pub use laws::{
    what_is_kept_is_got, what_is_put_is_found, what_is_put_is_got, what_is_put_lasts,
    what_is_put_stays, what_is_temporary_is_unseen,
};
pub use listing::{Listed, describe, next_listed};
pub use progress::{Progress, Silent};
pub use putting::put;
pub use replacing::{remove, replace};
