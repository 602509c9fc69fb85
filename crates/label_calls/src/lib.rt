//! Labels of data sectors, each read before it is written: pages made, freed, and marked. The page under a label.
#![tactic(auto)]

mod bytes;
mod cleared;
mod label;
mod page;
mod run;

pub use bytes::{read_page, write_page};
pub use cleared::make_cleared_pages;
pub use label::{read_label, sync};
pub use page::{Mark, free_page, make_page, mark_leader};
pub use run::{free_pages_down, free_pages_up, make_pages};
