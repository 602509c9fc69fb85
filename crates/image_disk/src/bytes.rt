//! Where a sector stands in the file, and what its bytes are.
ghost use Rattle.std.specs.Prelude.{◌≡◌, ◌+◌, ◌*◌, ◌++◌, take, drop};
ghost use Rattle.labelled_disk.specs.Label.{label_of, label_bytes};

use crate::SECTOR_BYTES;
use labelled_disk::{Label, Page};

const LABEL_BYTES: u64 = 16;

// Where the label of a sector begins in the file.
pub(crate) fn label_at(sector: u32) -> u64
    ensures { result ≡ sector * 528 }
{
    u64::from(sector) * SECTOR_BYTES
}

// Where its page begins.
pub(crate) fn page_at(sector: u32) -> u64
    ensures { result ≡ sector * 528 + 16 }
{
    label_at(sector) + LABEL_BYTES
}

// The bytes of a sector: those of the label and then those of the page.
pub(crate) fn joined(label: &Label, page: &Page) -> [u8; 528]
    ensures { result ≡ label_bytes label.now ++ page.now }
{
    let mut bytes = [0; 528];
    bytes[..16].copy_from_slice(&label.to_bytes());
    bytes[16..].copy_from_slice(page.as_slice());
    bytes
}

// The label of a sector of these bytes.
pub(crate) fn label_in(bytes: &[u8; 528]) -> Label
    ensures { result ≡ label_of (take 16 bytes.now) }
{
    let mut label = [0; 16];
    label.copy_from_slice(&bytes[..16]);
    Label::from_bytes(&label)
}

// The label of a sector of these bytes; its page is put in `page`.
pub(crate) fn parted(bytes: &[u8; 528], page: &mut Page) -> Label
    ensures label { result ≡ label_of (take 16 bytes.now) }
    ensures page { page.new ≡ drop 16 bytes.now }
{
    page.copy_from_slice(&bytes[16..]);
    label_in(bytes)
}
