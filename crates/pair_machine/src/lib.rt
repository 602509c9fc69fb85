//! Two volumes, of which the second gets copies of files of the first: what is asked of them, and what they answer.
#![tactic(auto)]

mod call;
mod laws;

pub use call::{PairCall, PairRefusal, PairReply};
pub use laws::{agreeing_files_are_same, one_form_of_transcripts, pairs_stay};
