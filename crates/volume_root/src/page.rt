//! The page of a root, byte by byte.
ghost use Rattle.std.specs.Prelude.{◌≡◌, ◌≤◌, ◌+◌, length};
ghost use Rattle.labelled_disk.specs.Root.{short_at, number_at};
ghost use Rattle.volume_root.specs.RootPage.{has_magic, first_rest};

use byteorder::{BigEndian, ByteOrder};
use flat_mem::PAGE_BYTES;

/// The page begins with this text.
pub(crate) const MAGIC: &[u8; 8] = b"PILOTVOL";

/// After this many bytes of fields the page is zero.
pub(crate) const FIELDS: usize = 24;

pub(crate) fn has_magic(page: &[u8]) -> bool
    requires { length page.now ≡ 512 }
    ensures { result ≡ has_magic page.now }
{
    &page[..8] == MAGIC.as_slice()
}

pub(crate) fn short_at(page: &[u8], at: usize) -> u16
    requires { at + 2 ≤ length page.now }
    ensures { result ≡ short_at page.now at }
{
    BigEndian::read_u16(&page[at..])
}

pub(crate) fn number_at(page: &[u8], at: usize) -> u32
    requires { at + 4 ≤ length page.now }
    ensures { result ≡ number_at page.now at }
{
    BigEndian::read_u32(&page[at..])
}

/// The place of the first byte after the fields that is not 0.
pub(crate) fn first_rest(page: &[u8]) -> Option<u16>
    requires { length page.now ≡ 512 }
    ensures { result ≡ first_rest page.now }
{
    for at in FIELDS..PAGE_BYTES {
        if page[at] != 0 {
            return Some(at as u16);
        }
    }
    None
}
