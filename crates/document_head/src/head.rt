//! The head of a document: how many bytes it has, and its name.
ghost use Rattle.std.specs.Prelude.{◌≡◌, ◌≤◌, ◌<◌, ◌^◌, ℕ, List, IfSome, IsUtf8, MatchOption, length};
ghost use Rattle.document_head.specs.Head.{head_page, pages_of};
ghost use Rattle.document_head.specs.Says.{Says};

use crate::page::{bytes_in, name_in, page_of};
use arrayvec::ArrayString;

/// The type of a file that is a document: the letters `DC`.
pub const KIND: u16 = 0x4443;

/// The bytes of a page.
pub const PAGE_BYTES: usize = 512;

/// The most bytes of a name.
pub const NAME_MOST: usize = 255;

/// The name of a document.
pub type Name = ArrayString<255>;

/// How many bytes a document has, and its name.
#[derive(Debug, Drop, PartialEq, Eq)]
pub struct Head {
    pub bytes: u64,
    pub name: Name,
}

impl Head {
    /// The page that says so.
    pub fn to_page(&self) -> [u8; PAGE_BYTES]
        ensures { result ≡ head_page self.now.bytes self.now.name.bytes }
    {
        page_of(self.bytes, &self.name)
    }

    /// How many pages the file of such a document has.
    pub fn pages(&self) -> u64
        ensures { result ≡ pages_of self.now.bytes }
    {
        1 + self.bytes.div_ceil(512)
    }

    /// The head that a page says, if it says one.
    pub fn from_page(page: &[u8; PAGE_BYTES]) -> Option<Head>
        ensures said { IfSome result (λ h. page.now ≡ head_page h.bytes h.name.bytes) }
        ensures found { (bytes : ℕ) (name : List ℕ) → bytes < 2 ^ 64 → length name ≤ 255 → IsUtf8 name
            → page.now ≡ head_page bytes name → MatchOption result ⊥ (Says bytes name) }
    {
        let bytes = bytes_in(page);
        let Some(name) = name_in(page) else {
            return None;
        };
        let head = Head { bytes, name };
        if head.to_page() == *page {
            Some(head)
        } else {
            None
        }
    }

    /// The head of a file of so many pages whose first page this is, if it is a document.
    pub fn of_file(page: &[u8; PAGE_BYTES], pages: u32) -> Option<Head>
        ensures said { IfSome result (λ h. page.now ≡ head_page h.bytes h.name.bytes) }
        ensures pages { IfSome result (λ h. pages ≡ pages_of h.bytes) }
        ensures found { (bytes : ℕ) (name : List ℕ) → bytes < 2 ^ 64 → length name ≤ 255 → IsUtf8 name
            → page.now ≡ head_page bytes name → pages ≡ pages_of bytes → MatchOption result ⊥ (Says bytes name) }
    {
        let Some(head) = Head::from_page(page) else {
            return None;
        };
        if head.pages() == u64::from(pages) {
            Some(head)
        } else {
            None
        }
    }
}
