//! What is known of the frames of a session, by what its clients get.

use anyhow::Result;
use flat_machine::{Call, Reply};
use labelled_disk::PAGE_BYTES;
use std::alloc::Global;

/// Pages that are in frames, where there are so many frames that a page leaves its own for a call alone.
#[derive(Drop)]
pub(crate) struct Frames {
    suffice: bool,
    there: Vec<u32>,
}

// The first and the last page of a reference.
fn pages_of(call: &Call) -> Option<(u32, u32)> {
    let (address, count) = match call {
        Call::Load { address, count } => (*address, u32::from(*count)),
        Call::Store { address, bytes } => (*address, bytes.as_slice().len().min(64) as u32),
        _ => return None,
    };
    let last = address.saturating_add(count.saturating_sub(1));
    Some((address / PAGE_BYTES as u32, last / PAGE_BYTES as u32))
}

impl Frames {
    /// The frames suffice for all pages, or not.
    pub(crate) fn new(alloc: Global, suffice: bool) -> Frames {
        Frames {
            suffice,
            there: Vec::new(alloc),
        }
    }

    fn is_there(&self, page: u32) -> bool {
        self.there.iter().any(|p| *p == page)
    }

    fn add(&mut self, page: u32) -> Result<()> {
        if self.suffice && !self.is_there(page) {
            self.there.push(page)?;
        }
        Ok(())
    }

    /// A call was answered: the pages of a reference are in frames, and pages leave where a space is let go.
    pub(crate) fn answer(&mut self, call: &Call, reply: &Reply) -> Result<()> {
        if matches!(call, Call::Deactivate { .. }) {
            self.there.clear();
        }
        if let (Some((first, last)), false) = (pages_of(call), matches!(reply, Reply::Refused(_))) {
            self.add(first)?;
            self.add(last)?;
        }
        Ok(())
    }

    /// Whether a page of a reference may be in no frame.
    pub(crate) fn may_lack(&self, call: &Call) -> bool {
        match pages_of(call) {
            Some((first, last)) => !self.is_there(first) || !self.is_there(last),
            None => false,
        }
    }
}
