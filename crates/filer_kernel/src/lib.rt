//! Pages of files are found through the volume's maps, which are themselves pages in frames.
#![tactic(auto)]

mod cached;
mod edits;
mod filer;
mod files;
mod halted;
mod laws;
mod sectors;
mod tables;
mod window;

pub use cached::CachedRuns;
pub use filer::{Filer, LentFiler};
pub use laws::{maps_in_sectors, maps_stay, other_map_stays, runs_stay, tables_revealed_stay};
pub use window::{LentTableMemory, TableMemory};
