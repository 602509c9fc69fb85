//! A disk of sectors, each a label and a page of 512 bytes, and the files that the labels name.
#![tactic(auto)]

mod disk;
mod evidence;
mod kept;
mod label;
mod laws;
mod layout;
mod marks;
mod memory;
mod structure;

pub use disk::{Disk, DiskError, DiskWrite};
pub use evidence::{Evidence, Halt};
pub use flat_mem::{PAGE_BYTES, Page};
pub use label::{FileId, LEADER, Label, NoMemory, TABLE_PAGES, TABLES, Wanted};
pub use laws::{
    example_files, files_are_as_revealed, files_are_looked_up, runs_go_one_way,
    syncs_are_revealed_once, unneeded_sectors_are_free, write_changes_files, write_keeps_volume,
};
pub use layout::{Difference, Layout, RootFault};
pub use marks::Marks;
pub use memory::MemoryDisk;
pub use structure::Structure;
