//! The pool's one piece of memory: for each slot its frame, and a share of the index and of the order of the slots.
ghost use Rattle.std.specs.Prelude.{◌≡◌, ◌<◌, ◌≤◌, ◌+◌, length, true, false, IfOk, IfSome, IsSome, Some, None, slice_index_or, slice_set, option_map};
ghost use Rattle.frame_pool.specs.Table.{lists_of};
ghost use Rattle.frame_pool.specs.Frames.{frame_at, new_frame, clean, changed, shown, is_of, is_kept, IsPageBytes};
ghost use Rattle.flat_mem.specs.Memory.{overwritten};
ghost use Rattle.frame_pool.specs.Lists.{Lists, fresh_lists, found_at, nothing};

use crate::found::{FoundRun, NOTHING};
use crate::home::Home;
use labelled_disk::{FileId, Page};
use std::alloc::{AllocError, Allocator};
use std::cell::Cell;
use std::marker::Model;

/// The frame of a slot, and what the slot remembers of the pages from its own on. The fields lie so that a slot takes
/// 560 bytes.
#[derive(Clone, Copy)]
pub(crate) struct Kept {
    pub(crate) id: FileId,
    pub(crate) sector: u32,
    pub(crate) page: u32,
    pub(crate) found_time: u32,
    pub(crate) found_pages: u16,
    pub(crate) dirty: bool,
    pub(crate) bytes: Page,
}

impl Kept {
    fn overwrite(&mut self, at: usize, bytes: &[u8])
        requires { at + length bytes.now ≤ 512 }
        ensures { self.new ≡ record self.old { dirty = true; bytes = overwritten self.old.bytes at bytes.now } }
    {
        self.bytes[at..at + bytes.len()].copy_from_slice(bytes);
        self.dirty = true;
    }
}

/// So many pages of a file, from the first one on.
#[derive(Clone, Copy)]
pub(crate) struct Run {
    pub(crate) id: FileId,
    pub(crate) first: u32,
    pub(crate) pages: u32,
}

/// What the table has for one number: the slot's frame and its links, the head of the bucket with this number, and
/// the slot at this place of the order.
#[derive(Drop)]
pub(crate) struct Slot {
    kept: Option<Kept>,
    head: Option<u16>,
    next: Option<u16>,
    order: u16,
    position: u16,
    referenced: Cell<bool>,
}

/// 24 slots take 13,440 bytes.
const _: () = prove!(size_of::<Slot>() == 560);

#[derive(Drop)]
pub(crate) struct Table<A: Allocator> {
    slots: Vec<Slot, A>,
}

impl<A: Allocator> Model for Table<A> {
    ghost use Rattle.frame_pool.specs.Lists.{Lists};

    ghost Value = { Lists };

    ghost use Rattle.frame_pool.specs.Table.{lists_of};

    ghost view = { λ t. lists_of t.slots.items };
}

/// Empty slots: the memory of a table.
fn empty_slots<A: Allocator>(alloc: A, slots: u16) -> Result<Vec<Slot, A>, AllocError>
    ensures { IfOk result (λ s. lists_of s.items ≡ fresh_lists slots) }
{
    let mut all = Vec::with_capacity(alloc, slots as usize)?;
    for number in 0..slots {
        all.push(Slot {
            kept: None,
            head: None,
            next: None,
            order: number,
            position: number,
            referenced: Cell::new(false),
        })?;
    }
    Ok(all)
}

impl<A: Allocator> Table<A> {
    pub(crate) fn with_slots(alloc: A, slots: u16) -> Result<Table<A>, AllocError>
        ensures { IfOk result (λ t. t ≡ fresh_lists slots) }
    {
        let slots = empty_slots(alloc, slots)?;
        Ok(Table { slots })
    }

    pub(crate) fn len(&self) -> usize
        ensures { result ≡ length self.now.frames }
    {
        self.slots.len()
    }

    pub(crate) fn head(&self, bucket: u16) -> Option<u16>
        requires { bucket < length self.now.frames }
        ensures { result ≡ slice_index_or self.now.heads bucket None }
    {
        self.slots[bucket as usize].head
    }

    pub(crate) fn next(&self, slot: u16) -> Option<u16>
        requires { slot < length self.now.frames }
        ensures { result ≡ slice_index_or self.now.nexts slot None }
    {
        self.slots[slot as usize].next
    }

    pub(crate) fn order(&self, place: u16) -> u16
        requires { place < length self.now.frames }
        ensures { result ≡ slice_index_or self.now.orders place 0 }
    {
        self.slots[place as usize].order
    }

    pub(crate) fn position(&self, slot: u16) -> u16
        requires { slot < length self.now.frames }
        ensures { result ≡ slice_index_or self.now.positions slot 0 }
    {
        self.slots[slot as usize].position
    }

    pub(crate) fn found(&self, slot: u16) -> FoundRun
        requires { slot < length self.now.frames }
        ensures { result ≡ found_at self.now.founds slot }
    {
        match &self.slots[slot as usize].kept {
            Some(kept) => FoundRun {
                pages: kept.found_pages,
                time: kept.found_time,
            },
            None => NOTHING,
        }
    }

    pub(crate) fn set_head(&mut self, bucket: u16, head: Option<u16>)
        requires { bucket < length self.old.frames }
        ensures { self.new ≡ record self.old { heads = slice_set self.old.heads bucket head } }
    {
        self.slots[bucket as usize].head = head;
    }

    pub(crate) fn set_next(&mut self, slot: u16, next: Option<u16>)
        requires { slot < length self.old.frames }
        ensures { self.new ≡ record self.old { nexts = slice_set self.old.nexts slot next } }
    {
        self.slots[slot as usize].next = next;
    }

    pub(crate) fn set_order(&mut self, place: u16, slot: u16)
        requires { place < length self.old.frames }
        ensures { self.new ≡ record self.old { orders = slice_set self.old.orders place slot } }
    {
        self.slots[place as usize].order = slot;
    }

    pub(crate) fn set_position(&mut self, slot: u16, place: u16)
        requires { slot < length self.old.frames }
        ensures { self.new ≡ record self.old { positions = slice_set self.old.positions slot place } }
    {
        self.slots[slot as usize].position = place;
    }

    /// What a filled slot remembers from now on.
    pub(crate) fn set_found(&mut self, slot: u16, found: FoundRun)
        requires below { slot < length self.old.frames }
        requires filled { IsSome (frame_at self.old.frames slot) }
        ensures { self.new ≡ record self.old { founds = slice_set self.old.founds slot found } }
    {
        match &mut self.slots[slot as usize].kept {
            Some(kept) => {
                kept.found_pages = found.pages;
                kept.found_time = found.time;
            }
            None => unreachable!(),
        }
    }

    /// Whether the slot has the page.
    pub(crate) fn has(&self, slot: u16, id: FileId, page: u32) -> bool
        requires { slot < length self.now.frames }
        ensures { result ≡ is_of id page (frame_at self.now.frames slot) }
    {
        match &self.slots[slot as usize].kept {
            Some(kept) => kept.id == id && kept.page == page,
            None => false,
        }
    }

    /// Whether the slot has one of the pages of the run.
    pub(crate) fn is_kept(&self, slot: u16, run: &Run) -> bool
        requires { slot < length self.now.frames }
        ensures { result ≡ is_kept run.now.id run.now.first run.now.pages (frame_at self.now.frames slot) }
    {
        match &self.slots[slot as usize].kept {
            Some(kept) => kept.id == run.id
                && kept.page >= run.first
                && kept.page - run.first < run.pages,
            None => false,
        }
    }

    /// Gives the slot its second chance.
    pub(crate) fn mark(&self, slot: u16)
        requires { slot < length self.now.frames }
    {
        self.slots[slot as usize].referenced.set(true);
    }

    /// Takes the slot's second chance, and reveals whether it had one.
    pub(crate) fn take_mark(&self, slot: u16) -> bool
        requires { slot < length self.now.frames }
    {
        self.slots[slot as usize].referenced.replace(false)
    }

    /// Where the slot's page stands, and whether it is dirty.
    pub(crate) fn held(&self, slot: u16) -> Option<(Home, bool)>
        requires { slot < length self.now.frames }
        ensures { result ≡ option_map shown (frame_at self.now.frames slot) }
    {
        match &self.slots[slot as usize].kept {
            Some(kept) => {
                let Kept {
                    id,
                    sector,
                    page,
                    dirty,
                    ..
                } = *kept;
                Some((Home { sector, id, page }, dirty))
            }
            None => None,
        }
    }

    pub(crate) fn bytes(&self, slot: u16) -> &Page
        requires below { slot < length self.now.frames }
        requires filled { IsSome (frame_at self.now.frames slot) }
        ensures { IfSome (frame_at self.now.frames slot) (λ f. result.now ≡ f.bytes) }
    {
        match &self.slots[slot as usize].kept {
            Some(kept) => &kept.bytes,
            None => unreachable!(),
        }
    }

    /// Puts a clean frame into the slot, which remembers nothing.
    pub(crate) fn fill(&mut self, slot: u16, home: Home, bytes: &Page)
        requires { slot < length self.old.frames }
        ensures value { self.new ≡ record self.old {
          frames = slice_set self.old.frames slot (Some (new_frame home bytes.now));
          founds = slice_set self.old.founds slot nothing;
        } }
        ensures page { IsPageBytes bytes.now }
    {
        let Home { sector, id, page } = home;
        self.slots[slot as usize].kept = Some(Kept {
            id,
            sector,
            page,
            found_time: 0,
            found_pages: 0,
            dirty: false,
            bytes: *bytes,
        });
    }

    pub(crate) fn empty(&mut self, slot: u16)
        requires { slot < length self.old.frames }
        ensures { self.new ≡ record self.old
            { frames = slice_set self.old.frames slot None; founds = slice_set self.old.founds slot nothing } }
    {
        self.slots[slot as usize].kept = None;
    }

    /// Writes bytes over those from `at` on, and marks the frame dirty.
    pub(crate) fn overwrite(&mut self, slot: u16, at: usize, bytes: &[u8])
        requires below { slot < length self.old.frames }
        requires inside { at + length bytes.now ≤ 512 }
        ensures { self.new ≡ record self.old {
          frames = slice_set self.old.frames slot
              (option_map (λ f. changed f at bytes.now) (frame_at self.old.frames slot));
        } }
    {
        match &mut self.slots[slot as usize].kept {
            Some(kept) => kept.overwrite(at, bytes),
            None => {}
        }
    }

    pub(crate) fn clean(&mut self, slot: u16)
        requires { slot < length self.old.frames }
        ensures { self.new ≡ record self.old
            { frames = slice_set self.old.frames slot (option_map clean (frame_at self.old.frames slot)) } }
    {
        match &mut self.slots[slot as usize].kept {
            Some(kept) => kept.dirty = false,
            None => {}
        }
    }
}
