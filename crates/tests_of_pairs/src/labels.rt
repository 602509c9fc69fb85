//! What the labels of a disk say of files.

use crate::volume::{Volume, sector_at};
use anyhow::Result;
use labelled_disk::{Disk, FileId, Page};
use std::alloc::Global;

/// A leader or a page of a file. The order is that of the fields.
#[derive(Clone, Copy, Debug, PartialEq, Eq, PartialOrd, Ord)]
pub(crate) struct Leaf {
    pub id: FileId,
    /// 0 for the leader, and one more than its number for a page.
    pub place: u32,
    pub kind: u16,
    pub flags: u8,
    /// A sum over the bytes.
    pub sum: u32,
}

// A sum over the bytes of a page, which another order or another byte changes.
fn sum_of(page: &Page) -> u32 {
    let (words, _) = page.as_chunks::<4>();
    let mut sum = 0u32;
    for word in words {
        sum = sum
            .wrapping_mul(1_000_003)
            .wrapping_add(u32::from_be_bytes(*word));
    }
    sum
}

/// The leader or the page that the label of a sector names.
pub(crate) fn leaf_at(disk: &mut Volume, sector: u32) -> Result<Option<Leaf>> {
    let Some(found) = sector_at(disk, sector)? else {
        return Ok(None);
    };
    let (label, page) = found;
    if !label.is_file() {
        return Ok(None);
    }
    Ok(Some(Leaf {
        id: label.id,
        place: label.page.wrapping_add(1),
        kind: label.kind,
        flags: label.flags,
        sum: sum_of(&page),
    }))
}

/// All leaders and pages that labels name, each file's together, the leader first.
pub(crate) fn leaves_of(alloc: Global, disk: &mut Volume) -> Result<Vec<Leaf>> {
    let mut leaves = Vec::new(alloc);
    for sector in 0..disk.sectors() {
        if let Some(leaf) = leaf_at(disk, sector)? {
            leaves.push(leaf)?;
        }
    }
    leaves.sort_unstable();
    Ok(leaves)
}

/// These without that one.
pub(crate) fn all_but(alloc: Global, leaves: &[Leaf], one: Option<Leaf>) -> Result<Vec<Leaf>> {
    let mut others = Vec::new(alloc);
    for leaf in leaves {
        if Some(*leaf) != one {
            others.push(*leaf)?;
        }
    }
    Ok(others)
}
