//! The labels of files, in the order of a survey.
ghost use Rattle.std.specs.Prelude.{◌≡◌, ◌<◌, ◌^◌, length, IfOk};
ghost use Rattle.std.specs.List.Sorted.{IsPermutation};
ghost use Rattle.label_survey.specs.Entries.{place_of, entries_from, AreInOrder, AreOf};

use labelled_disk::{FileId, LEADER, Label};
use std::alloc::{AllocError, Allocator};

/// The place of a leader that is not permanent: past all pages.
pub(crate) const TEMPORARY: u64 = 0x1_0000_0000;

/// A data sector with the label of a file. The order is that of the fields.
#[derive(Clone, Copy, Debug, PartialEq, Eq, PartialOrd, Ord)]
pub struct Entry {
    pub id: FileId,
    /// 0 for a permanent leader, k + 1 for page k, 2 to the 32nd for another leader.
    pub place: u64,
    /// Counted from the first data sector.
    pub sector: u32,
}

fn place_of(label: &Label) -> u64
    ensures { result ≡ place_of label.now }
{
    if label.page != LEADER {
        u64::from(label.page) + 1
    } else if label.marks().permanent {
        0
    } else {
        TEMPORARY
    }
}

fn collect_entries<A: Allocator>(alloc: A, labels: &[Label]) -> Result<Vec<Entry, A>, AllocError>
    requires few { length labels.now < 2 ^ 32 }
    ensures { IfOk result (λ entries. entries.items ≡ entries_from 0 labels.now) }
{
    let mut entries = Vec::with_capacity(alloc, labels.len())?;
    for i in 0..labels.len() {
        let label = &labels[i];
        if label.is_file() {
            entries.push(Entry {
                id: label.id,
                place: place_of(label),
                sector: i as u32,
            })?;
        }
    }
    Ok(entries)
}

fn sort_entries(entries: &mut [Entry])
    ensures order { AreInOrder entries.new }
    ensures same { IsPermutation entries.old entries.new }
{
    entries.sort_unstable();
}

/// An entry for each label of a file, in order: 24 bytes for each label.
pub(crate) fn entries_in_order<A: Allocator>(
    alloc: A,
    labels: &[Label],
) -> Result<Vec<Entry, A>, AllocError>
    requires few { length labels.now < 2 ^ 32 }
    ensures order { IfOk result (λ entries. AreInOrder entries.items) }
    ensures of { IfOk result (λ entries. AreOf labels.now entries.items) }
{
    let mut entries = collect_entries(alloc, labels)?;
    sort_entries(&mut entries);
    Ok(entries)
}
