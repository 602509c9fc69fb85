//! That a page that was made of a head says that head.
ghost use Rattle.std.specs.Prelude.{MatchOption};
ghost use Rattle.document_head.specs.Says.{Says};

use crate::Head;

/// The head that the page of a head says: it is always there, and the same.
pub fn read_back(head: &Head) -> Option<Head>
    ensures { MatchOption result ⊥ (Says head.now.bytes head.now.name.bytes) }
{
    let _bytes = head.bytes;
    let _name = head.name.as_str();
    Head::from_page(&head.to_page())
}
