//! The pool of frames: a bounded map from the pages of files to their bytes, homes and dirty marks.
ghost use Rattle.std.specs.Prelude.{◌≡◌, ◌<◌, ◌≤◌, ◌+◌, ◌^◌, ◌↔◌, ℕ, length, true, IfOk, IfSome, IsSome, Some, None, slice_set, option_map, replicate};
ghost use Rattle.frame_pool.specs.Frames.{ArePages, Frame, Has, HasDistinct, HasPage, IsEmpty, IsNowhere, IsOutside, IsPageBytes, changed, changed_at, clean, cleaned_at, frame_at, new_frame, shown};
ghost use Rattle.frame_pool.specs.Runs.{HasRun};

use crate::found::FoundRun;
use crate::home::Home;
use crate::sweep::sweep;
use crate::table::{Run, Table};
use crate::{chain, fill};
use labelled_disk::{FileId, NoMemory, Page};
use std::alloc::Allocator;
use std::marker::Model;

/// Frames in numbered slots, each for one page of a file. No page is in two slots.
#[derive(Drop)]
pub struct FramePool<A: Allocator> {
    table: Table<A>,
    /// How many slots are empty: they are the first ones of the table's order.
    empties: u16,
    /// Where the next sweep for a victim begins.
    hand: u16,
    /// How many filled slots were emptied. A run of pages that was found at this time is still there: but at the greatest
    /// time, at which it stays, nothing is trusted.
    time: u32,
}

impl<A: Allocator> Model for FramePool<A> {
    ghost use Rattle.frame_pool.specs.Frames.{Slots};
    ghost use Rattle.frame_pool.specs.Pool.{IsPool};
    ghost use Rattle.frame_pool.specs.Runs.{HasRuns};

    ghost Value = { Slots };

    ghost view = { λ p. p.table.frames };

    ghost invariant = { λ p. IsPool p.table p.empties × HasRuns p.table.frames p.table.founds p.time };
}

impl<A: Allocator> FramePool<A> {
    /// So many empty slots, 24 to 4,096. This takes all the memory that the pool ever has.
    pub fn with_frames(alloc: A, frames: u32) -> Result<FramePool<A>, NoMemory>
        requires least { 24 ≤ frames }
        requires most { frames ≤ 4096 }
        ensures empty { IfOk result (λ pool. pool ≡ replicate frames None) }
    {
        let table = Table::with_slots(alloc, frames as u16)?;
        Ok(FramePool {
            table,
            empties: frames as u16,
            hand: 0,
            time: 0,
        })
    }

    /// How many slots there are.
    pub fn frames(&self) -> u32
        ensures count { result ≡ length self.now }
        ensures least { 24 ≤ result }
        ensures most { result ≤ 4096 }
        ensures distinct { HasDistinct self.now }
        ensures pages { ArePages self.now }
    {
        self.table.len() as u32
    }

    /// The slot that has the page, in constant time on average.
    pub fn find(&self, id: FileId, page: u32) -> Option<u32>
        ensures found { IfSome result (λ slot. HasPage self.now slot id page) }
        ensures below { IfSome result (λ slot. slot < length self.now) }
        ensures nowhere { result ≡ None ↔ IsNowhere self.now id page }
        ensures distinct { HasDistinct self.now }
        ensures pages { ArePages self.now }
    {
        match chain::find(&self.table, id, page) {
            Some(slot) => Some(u32::from(slot)),
            None => None,
        }
    }

    /// Whether pages in a row of a file are all there. That they are, if they are not more than 65,535, is remembered in
    /// the slot of the first one until a slot is emptied, and the run is found then with that page.
    pub fn has_run(&mut self, id: FileId, first: u32, pages: u32) -> bool
        requires fits { first + pages ≤ 2 ^ 32 }
        ensures there { result ≡ true ↔ HasRun self.old id first pages }
        ensures same { self.new ≡ self.old }
    {
        if pages == 0 {
            return true;
        }
        let Some(slot) = chain::find(&self.table, id, first) else {
            return false;
        };
        let time = self.time;
        if self.table.found(slot).reveals(pages, time) {
            return true;
        }
        let there = chain::has_run(&self.table, &Run { id, first, pages });
        if there && pages <= u32::from(u16::MAX) {
            let pages = pages as u16;
            self.table.set_found(slot, FoundRun { pages, time });
        }
        there
    }

    /// The home of the slot's page, and whether the frame is dirty.
    pub fn held(&self, slot: u32) -> Option<(Home, bool)>
        requires { slot < length self.now }
        ensures value { result ≡ option_map shown (frame_at self.now slot) }
        ensures filled { IfSome result
            (λ held. (frame : Frame) × Has self.now slot frame × (frame.home ≡ held.0) × (frame.dirty ≡ held.1)) }
        ensures empty { result ≡ None ↔ IsEmpty self.now slot }
    {
        self.table.held(slot as u16)
    }

    /// The bytes of a filled slot.
    pub fn bytes(&self, slot: u32) -> &Page
        requires below { slot < length self.now }
        requires filled { IsSome (frame_at self.now slot) }
        ensures value { IfSome (frame_at self.now slot) (λ frame. result.now ≡ frame.bytes) }
        ensures bytes { (frame : Frame) → Has self.now slot frame → result.now ≡ frame.bytes }
        ensures page { IsPageBytes result.now }
    {
        self.table.bytes(slot as u16)
    }

    /// A slot for another page, outside the run that is to stay: an empty one, else one chosen by second chance.
    pub fn victim(&mut self, keep_id: FileId, keep_first: u32, keep_pages: u32) -> u32
        requires { keep_pages < length self.old }
        ensures below { result < length self.new }
        ensures outside { IsOutside self.new result keep_id keep_first keep_pages }
        ensures empty_first { (frame : Frame) → Has self.new result frame → (other : ℕ) → IsEmpty self.new other → ⊥ }
        ensures same { self.new ≡ self.old }
    {
        if self.empties > 0 {
            return u32::from(self.table.order(self.empties - 1));
        }
        let run = Run {
            id: keep_id,
            first: keep_first,
            pages: keep_pages,
        };
        let slot = sweep(&self.table, &run, self.hand);
        self.hand = slot + 1;
        u32::from(slot)
    }

    /// Puts a page that was just read into an empty slot.
    pub fn put(&mut self, slot: u32, home: Home, bytes: &Page)
        requires below { slot < length self.old }
        requires empty { frame_at self.old slot ≡ None }
        requires nowhere { IsNowhere self.old home.id home.page }
        ensures { self.new ≡ slice_set self.old slot (Some (new_frame home bytes.now)) }
    {
        self.empties = fill::fill(&mut self.table, self.empties, slot as u16, home, bytes);
        self.table.mark(slot as u16);
    }

    /// Writes bytes over those of a filled slot from `at` on, and marks it dirty.
    pub fn change(&mut self, slot: u32, at: u32, bytes: &[u8])
        requires below { slot < length self.old }
        requires filled { IsSome (frame_at self.old slot) }
        requires inside { at + length bytes.now ≤ 512 }
        ensures value { self.new ≡ changed_at self.old slot at bytes.now }
        ensures changed { (frame : Frame) → Has self.old slot frame
            → self.new ≡ slice_set self.old slot (Some (changed frame at bytes.now)) }
        ensures distinct { HasDistinct self.old }
    {
        self.table.overwrite(slot as u16, at as usize, bytes);
        self.table.mark(slot as u16);
    }

    /// The home of a filled slot has the same bytes again.
    pub fn mark_clean(&mut self, slot: u32)
        requires below { slot < length self.old }
        requires filled { IsSome (frame_at self.old slot) }
        ensures value { self.new ≡ cleaned_at self.old slot }
        ensures clean { (frame : Frame) → Has self.old slot frame
            → self.new ≡ slice_set self.old slot (Some (clean frame)) }
    {
        self.table.clean(slot as u16);
    }

    /// Empties a slot. What was dirty in it is lost.
    pub fn clear(&mut self, slot: u32)
        requires { slot < length self.old }
        ensures value { self.new ≡ slice_set self.old slot None }
        ensures distinct { HasDistinct self.old }
    {
        let time = &mut self.time;
        self.empties = fill::clear(&mut self.table, time, self.empties, slot as u16);
    }
}
