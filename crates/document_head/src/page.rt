//! The page of a head, byte by byte.
ghost use Rattle.std.specs.Prelude.{◌≡◌, ◌≤◌, ◌<◌, ◌+◌, ◌-◌, ◌^◌, ◌++◌, ℕ, List, IsUtf8, MatchOption, length, replicate};
ghost use Rattle.document_head.specs.Head.{head_page};

use crate::{Name, PAGE_BYTES};
use arrayvec::ArrayString;
use byteorder::{BigEndian, ByteOrder};

const MAGIC: &[u8; 8] = b"PilotDoc";

// Writes bytes at a place.
fn put(page: &mut [u8; PAGE_BYTES], place: usize, bytes: &[u8])
    requires { place + length bytes.now ≤ 512 }
    ensures { (prefix : List ℕ) → length prefix ≡ place → page.old ≡ prefix ++ replicate (512 - place) 0
        → page.new ≡ (prefix ++ bytes.now) ++ replicate (512 - (place + length bytes.now)) 0 }
{
    page[place..place + bytes.len()].copy_from_slice(bytes);
}

/// The page of a head.
pub(crate) fn page_of(bytes: u64, name: &Name) -> [u8; PAGE_BYTES]
    ensures { result ≡ head_page bytes name.now.bytes }
{
    let name = name.as_str().as_bytes();
    let mut number = [0; 8];
    BigEndian::write_u64(&mut number, bytes);
    let mut page = [0; PAGE_BYTES];
    put(&mut page, 0, MAGIC);
    put(&mut page, 8, &number);
    put(&mut page, 16, &[name.len() as u8]);
    put(&mut page, 17, name);
    page
}

/// How many bytes the document has, if the page is a head.
pub(crate) fn bytes_in(page: &[u8; PAGE_BYTES]) -> u64
    ensures { (bytes : ℕ) (name : List ℕ) → bytes < 2 ^ 64 → page.now ≡ head_page bytes name → result ≡ bytes }
{
    BigEndian::read_u64(&page[8..])
}

/// The name of the document, if the page is a head.
pub(crate) fn name_in(page: &[u8; PAGE_BYTES]) -> Option<Name>
    ensures { (bytes : ℕ) (name : List ℕ) → length name ≤ 255 → IsUtf8 name → page.now ≡ head_page bytes name
        → MatchOption result ⊥ (λ t. t.bytes ≡ name) }
{
    let count = usize::from(page[16]);
    let Ok(name) = str::from_utf8(&page[17..17 + count]) else {
        return None;
    };
    match ArrayString::from(name) {
        Ok(name) => Some(name),
        Err(_) => None,
    }
}
