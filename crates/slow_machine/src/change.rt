//! What unrefused calls change.

use crate::stored::StoredFile;
use crate::{SlowMachine, files, gap, look, spaces, unforced};
use flat_machine::{Piece, Reply, Space, Window};
use labelled_disk::{FileId, PAGE_BYTES};
use std::alloc::{AllocError, Allocator};

impl<A: Allocator + Clone> SlowMachine<A> {
    ghost use Rattle.std.specs.Prelude.{◌≡◌, ◌≢◌, ◌+◌, ◌≤◌, length, IfOk, OnOk, OnErr, None};
    ghost use Rattle.flat_machine.specs.declared.call.Call.TheVariants as call_of;
    ghost use Rattle.flat_machine.specs.Machine.{used};
    ghost use Rattle.flat_machine.specs.Refusal.{refusal};
    ghost use Rattle.flat_machine.specs.Next.{change, new_id, with_new_file, first_page_for};
    ghost use Rattle.flat_machine.specs.Allows.{plain_reply};

    /// Adds a file of zero pages.
    fn add_file(&mut self, pages: u32, kind: u16) -> Result<FileId, AllocError>
        requires room { used self.old + (pages + 1) ≤ self.old.capacity }
        requires ids { self.old.counter ≢ 4294967295 }
        ensures ok { IfOk result (λ id. (id ≡ new_id self.old) × (self.new ≡ with_new_file self.old pages kind)) }
        ensures err { OnErr result (self.new ≡ self.old) }
    {
        let id = u64::from(self.serial) * 4_294_967_296 + u64::from(self.counter);
        let file = StoredFile::new(self.alloc.clone()?, id, kind, pages)?;
        files::put(&mut self.files, file)?;
        self.counter += 1;
        Ok(id)
    }

    pub(crate) fn create(&mut self, pages: u32, kind: u16) -> Result<Reply, AllocError>
        requires { refusal self.old (call_of.Create pages kind) ≡ None }
        ensures ok { IfOk result
            (λ r.
            (r ≡ plain_reply self.old (call_of.Create pages kind))
            × (self.new ≡ change self.old (call_of.Create pages kind))) }
        ensures err { OnErr result (self.new ≡ self.old) }
    {
        let id = self.add_file(pages, kind)?;
        Ok(Reply::File(id))
    }

    pub(crate) fn delete(&mut self, id: FileId)
        ensures { self.new ≡ change self.old (call_of.Delete id) }
    {
        files::remove(&mut self.files, id);
    }

    pub(crate) fn set_size(&mut self, id: FileId, pages: u32) -> Result<(), AllocError>
        requires { refusal self.old (call_of.SetSize id pages) ≡ None }
        ensures ok { OnOk result (self.new ≡ change self.old (call_of.SetSize id pages)) }
        ensures err { OnErr result (self.new ≡ self.old) }
    {
        let resized = files::resized(&self.alloc, &self.files, id, pages)?;
        self.files = resized;
        Ok(())
    }

    pub(crate) fn make_permanent(&mut self, id: FileId)
        ensures { self.new ≡ change self.old (call_of.MakePermanent id) }
    {
        files::make_permanent(&mut self.files, id);
    }

    pub(crate) fn make_immutable(&mut self, id: FileId)
        ensures { self.new ≡ change self.old (call_of.MakeImmutable id) }
    {
        files::make_immutable(&mut self.files, id);
    }

    fn first_page_for(&self, parent: u32, pages: u32, first: Option<u32>) -> u32
        ensures { result ≡ first_page_for self.now.spaces parent pages first }
    {
        match first {
            Some(first) => first,
            None => match look::space_at(&self.spaces, parent) {
                Some(above) => gap::lowest_gap(&self.spaces, &above, pages).unwrap_or(0),
                None => 0,
            },
        }
    }

    pub(crate) fn make_space(
        &mut self,
        parent: u32,
        pages: u32,
        first: Option<u32>,
    ) -> Result<Reply, AllocError>
        requires { refusal self.old (call_of.MakeSpace parent pages first) ≡ None }
        ensures ok { IfOk result
            (λ r.
            (r ≡ plain_reply self.old (call_of.MakeSpace parent pages first))
            × (self.new ≡ change self.old (call_of.MakeSpace parent pages first))) }
        ensures err { OnErr result (self.new ≡ self.old) }
    {
        let place = self.first_page_for(parent, pages, first);
        let handle = gap::lowest_unused(&self.spaces);
        let space = Space {
            handle,
            parent,
            first: place,
            pages,
            unit: pages.min(16) as u8,
            window: None,
        };
        spaces::put(&mut self.spaces, space)?;
        Ok(Reply::Space {
            handle,
            first: place,
        })
    }

    pub(crate) fn remove_space(&mut self, space: u32)
        requires { space ≢ 0 }
        ensures { self.new ≡ change self.old (call_of.RemoveSpace space) }
    {
        spaces::remove(&mut self.spaces, space);
    }

    pub(crate) fn set_unit(&mut self, space: u32, pages: u8)
        ensures { self.new ≡ change self.old (call_of.Units space pages) }
    {
        spaces::set_unit(&mut self.spaces, space, pages);
    }

    pub(crate) fn map(&mut self, space: u32, id: FileId, page: u32, writable: bool)
        ensures { self.new ≡ change self.old (call_of.Map space id page writable) }
    {
        let window = Window {
            file: id,
            first: page,
            writable,
            anonymous: false,
        };
        spaces::set_window(&mut self.spaces, space, Some(window));
    }

    pub(crate) fn map_anonymous(&mut self, space: u32) -> Result<(), AllocError>
        requires { refusal self.old (call_of.MapAnonymous space) ≡ None }
        ensures ok { OnOk result (self.new ≡ change self.old (call_of.MapAnonymous space)) }
        ensures err { OnErr result (self.new ≡ self.old) }
    {
        let Some(found) = look::space_at(&self.spaces, space) else {
            return Ok(());
        };
        let id = self.add_file(found.pages, 0)?;
        let window = Window {
            file: id,
            first: 0,
            writable: true,
            anonymous: true,
        };
        spaces::set_window(&mut self.spaces, found.handle, Some(window));
        Ok(())
    }

    pub(crate) fn unmap(&mut self, space: u32)
        ensures { self.new ≡ change self.old (call_of.Unmap space) }
    {
        let Some(found) = look::space_at(&self.spaces, space) else {
            return;
        };
        files::remove_anonymous(&mut self.files, found.window);
        unforced::force_window(&found, &mut self.unforced);
        spaces::set_window(&mut self.spaces, found.handle, None);
    }

    pub(crate) fn protect(&mut self, space: u32, writable: bool)
        ensures { self.new ≡ change self.old (call_of.Protect space writable) }
    {
        let Some(found) = look::space_at(&self.spaces, space) else {
            return;
        };
        unforced::force_unless(writable, &found, &mut self.unforced);
        spaces::set_mode(&mut self.spaces, found.handle, writable);
    }

    pub(crate) fn store(&mut self, address: u32, bytes: &Piece) -> Result<(), AllocError>
        requires { (1 ≤ length bytes.now) × (length bytes.now ≤ 64) }
        ensures ok { OnOk result (self.new ≡ change self.old (call_of.Store address bytes.now)) }
        ensures err { OnErr result (self.new ≡ self.old) }
    {
        let piece = bytes.as_slice();
        let last = u64::from(address) + piece.len() as u64 - 1;
        let pages = (
            address / PAGE_BYTES as u32,
            (last / PAGE_BYTES as u64) as u32,
        );
        unforced::mark_both(&self.spaces, &mut self.unforced, pages.0, pages.1)?;
        files::store_bytes(&self.spaces, address, piece, &mut self.files);
        Ok(())
    }

    pub(crate) fn kill(&mut self, space: u32)
        ensures { self.new ≡ change self.old (call_of.Kill space) }
    {
        if let Some(range) = look::space_at(&self.spaces, space) {
            files::kill(&self.spaces, &range, &mut self.files);
        }
    }

    pub(crate) fn force_out(&mut self, space: u32)
        ensures { self.new ≡ change self.old (call_of.ForceOut space) }
    {
        if let Some(range) = look::space_at(&self.spaces, space) {
            unforced::force_range(&self.spaces, &range, &mut self.unforced);
        }
    }

    pub(crate) fn close(&mut self)
        ensures { self.new ≡ change self.old call_of.Close }
    {
        files::keep_permanent(&mut self.files);
        spaces::keep_root(&mut self.spaces);
        self.unforced.clear();
    }
}
