//! The permanent files of a volume, a line each.
ghost use Rattle.std.specs.Prelude.{◌≡◌, ◌-◌, ◌≤◌, ◌<◌, List, length, map, slice_get, IfOk};
ghost use Rattle.labelled_disk.specs.FilesOn.{files_on};
ghost use Rattle.labelled_disk.specs.Layout.{data_sectors, first_data};
ghost use Rattle.labelled_disk.specs.Sectors.{Sector};
ghost use Rattle.volume_view.specs.Files.{AreLinesOf};
ghost use Rattle.volume_view.specs.Listed.{AreSorted, IsLineAt, IsPages};

use label_survey::Triple;
use labelled_disk::{FileId, LEADER, Label, files_are_as_revealed, files_are_looked_up};
use std::alloc::{AllocError, Allocator};

/// A permanent file, as its leader and its pages reveal it.
#[derive(Clone, Copy, Debug, PartialEq, Eq)]
pub struct FileLine {
    pub id: FileId,
    pub pages: u32,
    pub kind: u16,
    pub immutable: bool,
    /// The sector of its leader.
    pub leader: u32,
}

// The pages of the file that leader k is of: its last page stands before the leader.
fn pages_before(triples: &[Triple], k: usize) -> u32
    requires { k < length triples.now }
    ensures { (d : List Sector) → AreSorted d triples.now → IsPages d triples.now k result }
{
    files_are_as_revealed();
    if k == 0 {
        return 0;
    }
    let last = &triples[k - 1];
    if last.id == triples[k].id && last.page < LEADER {
        last.page + 1
    } else {
        0
    }
}

// The label of a sector, the first label being that of sector `first`.
fn label_at(first: u32, labels: &[Label], sector: u32) -> Option<Label>
    ensures { first ≤ sector → result ≡ slice_get labels.now (sector - first) }
{
    if sector < first {
        return None;
    }
    match labels.get((sector - first) as usize) {
        Some(label) => Some(*label),
        None => None,
    }
}

// The file of leader k.
fn line_of(first: u32, labels: &[Label], triples: &[Triple], k: usize) -> Option<FileLine>
    requires { k < length triples.now }
    ensures { (d : List Sector) → first ≡ first_data (length d)
        → labels.now ≡ map (λ s. s.0) (data_sectors d) → AreSorted d triples.now
        → IsLineAt d triples.now k result }
{
    files_are_as_revealed();
    let triple = &triples[k];
    if triple.page != LEADER {
        return None;
    }
    match label_at(first, labels, triple.sector) {
        Some(label) => Some(FileLine {
            id: triple.id,
            pages: pages_before(triples, k),
            kind: label.kind,
            immutable: label.marks().immutable,
            leader: triple.sector,
        }),
        None => None,
    }
}

/// A line for each leader among the leaders and pages that files need, in their order.
pub(crate) fn list_files<A: Allocator>(
    alloc: A,
    first: u32,
    labels: &[Label],
    triples: &[Triple],
) -> Result<Vec<FileLine, A>, AllocError>
    ensures { IfOk result (λ lines. (d : List Sector) → first ≡ first_data (length d)
        → labels.now ≡ map (λ s. s.0) (data_sectors d) → AreSorted d triples.now
        → AreLinesOf d lines.items (files_on d)) }
{
    files_are_as_revealed();
    files_are_looked_up();
    let mut files = Vec::new(alloc);
    for k in 0..triples.len() {
        match line_of(first, labels, triples, k) {
            Some(line) => {
                files.push(line)?;
            }
            None => {}
        }
    }
    Ok(files)
}
