//! The tables of the spaces: the hierarchy and its projection, in 96 pages of a flat memory.
#![tactic(auto)]

mod add;
mod ask;
mod begin;
mod change;
mod code;
mod error;
mod handles;
mod join;
mod projection;
mod records;
mod remove;
mod rooms;
mod scan;
mod set;
mod show;
mod shown;
mod split;
mod tables;

pub use error::SpaceError;
pub use shown::Shown;
pub use tables::SpaceTables;
