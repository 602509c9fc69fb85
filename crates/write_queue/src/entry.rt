//! A page that waits.

use labelled_disk::{Label, Page, Wanted};

/// A page that waits to be written in a sector, and the label that was found there, which names
/// the wanted page.
#[derive(Clone, Copy, Debug, PartialEq, Eq)]
pub struct Entry {
    pub sector: u32,
    pub wanted: Wanted,
    pub label: Label,
    pub page: Page,
}
