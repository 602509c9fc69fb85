//! A flat list of bytes that is read and written a piece at a time, each piece within one page.
#![tactic(auto)]

mod error;
mod flaky;
mod memory;
mod part;
mod vec_mem;

pub use error::TableError;
pub use flaky::{Failed, FlakyMem};
pub use memory::FlatMem;
pub use part::Part;
pub use vec_mem::{Never, NoPages, VecMem};

/// How many bytes a page has.
pub const PAGE_BYTES: usize = 512;

/// The bytes of a page.
pub type Page = [u8; PAGE_BYTES];
