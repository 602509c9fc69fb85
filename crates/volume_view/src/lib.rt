//! What a volume holds, as values: its root, its files, both maps beside the labels, and what a restoration would do.
#![tactic(auto)]

mod bit_runs;
mod bits;
mod condition;
mod differences;
mod fault;
mod files;
mod form;
mod found;
mod free_pages;
mod header;
mod leaves;
mod leftovers;
mod levels;
mod mapped;
mod names;
mod once;
mod pages;
mod record;
mod records;
mod rows;
mod stop;
mod unmapped;
mod view;

pub use bit_runs::BitRun;
pub use condition::Condition;
pub use differences::NameDifferences;
pub use fault::LookFault;
pub use files::FileLine;
pub use found::Found;
pub use names::Names;
pub use pages::{read_page, sector_of};
pub use view::{View, look};
