//! A pair as two plain lists of leaders and pages.

use crate::labels::{Leaf, all_but, leaves_of};
use crate::volume::Volume;
use anyhow::Result;
use labelled_disk::{Disk, FileId, Layout};
use pair_machine::{PairCall, PairRefusal, PairReply};
use std::alloc::Global;

/// Two lists, and the numbers of the second.
#[derive(Drop)]
pub(crate) struct PlainPair {
    alloc: Global,
    from: Vec<Leaf>,
    pub to: Vec<Leaf>,
    serial: u32,
    capacity: u32,
}

// The leader and the pages of a file.
fn file_of(alloc: Global, leaves: &[Leaf], id: FileId) -> Result<Vec<Leaf>> {
    let mut file = Vec::new(alloc);
    for leaf in leaves {
        if leaf.id == id {
            file.push(*leaf)?;
        }
    }
    Ok(file)
}

// The lowest page that one of both misses, or whose bytes differ.
fn difference(one: &[Leaf], other: &[Leaf]) -> Option<u32> {
    let count = one.len().max(other.len());
    for place in 1..count {
        let here = one.get(place).map(|leaf| leaf.sum);
        let there = other.get(place).map(|leaf| leaf.sum);
        if here != there {
            return u32::try_from(place)
                .ok()
                .map(|place| place.saturating_sub(1));
        }
    }
    None
}

impl PlainPair {
    /// The lists that the labels of two volumes make, the second of this serial.
    pub(crate) fn of(
        alloc: Global,
        from: &mut Volume,
        to: &mut Volume,
        serial: u32,
    ) -> Result<PlainPair> {
        let capacity = match Layout::of(to.sectors()) {
            Ok(layout) => layout.capacity,
            Err(_) => 0,
        };
        Ok(PlainPair {
            alloc,
            from: leaves_of(alloc, from)?,
            to: leaves_of(alloc, to)?,
            serial,
            capacity,
        })
    }

    /// The same lists, the second without this leader or page.
    pub(crate) fn without(&self, one: Option<Leaf>) -> Result<PlainPair> {
        let alloc = self.alloc;
        Ok(PlainPair {
            alloc,
            from: all_but(alloc, &self.from, None)?,
            to: all_but(alloc, &self.to, one)?,
            serial: self.serial,
            capacity: self.capacity,
        })
    }

    // Why the file is not copied.
    fn refusal(&self, id: FileId, file: &[Leaf]) -> Option<PairRefusal> {
        let Some(leader) = file.first() else {
            return Some(PairRefusal::File);
        };
        if leader.flags != 3 {
            return Some(PairRefusal::Mutable);
        }
        if self.to.iter().any(|leaf| leaf.id == id) {
            return Some(PairRefusal::Exists);
        }
        if id >> 32 == u64::from(self.serial) {
            return Some(PairRefusal::Serial);
        }
        let used = self.to.len().saturating_add(file.len());
        if used as u64 > u64::from(self.capacity) {
            return Some(PairRefusal::Full);
        }
        None
    }

    // The second list gets the file of the first.
    fn copy(&mut self, id: FileId) -> Result<PairReply> {
        let file = file_of(self.alloc, &self.from, id)?;
        if let Some(why) = self.refusal(id, &file) {
            return Ok(PairReply::Refused(why));
        }
        self.to.extend_from_slice(&file)?;
        self.to.sort_unstable();
        Ok(PairReply::Done)
    }

    fn compare(&self, id: FileId) -> Result<PairReply> {
        let one = file_of(self.alloc, &self.from, id)?;
        let other = file_of(self.alloc, &self.to, id)?;
        if one.is_empty() || other.is_empty() {
            return Ok(PairReply::Refused(PairRefusal::File));
        }
        Ok(match difference(&one, &other) {
            Some(page) => PairReply::Differs(page),
            None => PairReply::Same,
        })
    }

    /// What a call is replied.
    pub(crate) fn reply(&mut self, call: &PairCall) -> Result<PairReply> {
        match call {
            PairCall::Copy { id } => self.copy(*id),
            PairCall::Compare { id } => self.compare(*id),
        }
    }

    /// Whether these are the replies to the first calls.
    pub(crate) fn replies(&mut self, calls: &[PairCall], replies: &[PairReply]) -> Result<bool> {
        for (call, reply) in calls.iter().zip(replies) {
            if self.reply(call)? != *reply {
                return Ok(false);
            }
        }
        Ok(true)
    }
}
