//! The calls of a client, one function each.
ghost use Rattle.embedded.specs.Called.{Called};

use crate::{Code, Engine};
use flat_machine::{Call, Reply};
use labelled_disk::{Disk, FileId};
use std::alloc::Allocator;

impl<D: Disk + Drop, A: Allocator> Engine<D, A> {
    /// Makes a temporary file of so many zero pages.
    pub fn create(&mut self, pages: u32, kind: u16) -> Result<Reply, Code>
        ensures { Called (Call.Create pages kind) self.old result self.new }
    {
        self.call(&Call::Create { pages, kind })
    }

    /// Removes a file.
    pub fn delete(&mut self, id: FileId) -> Result<Reply, Code>
        ensures { Called (Call.Delete id) self.old result self.new }
    {
        self.call(&Call::Delete { id })
    }

    /// Asks for the attributes of a file.
    pub fn attributes(&mut self, id: FileId) -> Result<Reply, Code>
        ensures { Called (Call.Attributes id) self.old result self.new }
    {
        self.call(&Call::Attributes { id })
    }

    /// Cuts a file, or appends zero pages to it.
    pub fn set_size(&mut self, id: FileId, pages: u32) -> Result<Reply, Code>
        ensures { Called (Call.SetSize id pages) self.old result self.new }
    {
        self.call(&Call::SetSize { id, pages })
    }

    /// Lets a file outlast the session.
    pub fn make_permanent(&mut self, id: FileId) -> Result<Reply, Code>
        ensures { Called (Call.MakePermanent id) self.old result self.new }
    {
        self.call(&Call::MakePermanent { id })
    }

    /// Lets nobody write to a file again.
    pub fn make_immutable(&mut self, id: FileId) -> Result<Reply, Code>
        ensures { Called (Call.MakeImmutable id) self.old result self.new }
    {
        self.call(&Call::MakeImmutable { id })
    }

    /// Asks for the file with the least identifier above this one.
    pub fn next(&mut self, id: FileId) -> Result<Reply, Code>
        ensures { Called (Call.Next id) self.old result self.new }
    {
        self.call(&Call::Next { id })
    }

    /// Asks for the capacity, and for what is free of it.
    pub fn volume(&mut self) -> Result<Reply, Code>
        ensures { Called Call.Volume self.old result self.new }
    {
        self.call(&Call::Volume)
    }

    /// Makes a space inside its parent, at a page or in the lowest gap that is long enough.
    pub fn make_space(&mut self, parent: u32, pages: u32, first: Option<u32>) -> Result<Reply, Code>
        ensures { Called (Call.MakeSpace parent pages first) self.old result self.new }
    {
        self.call(&Call::MakeSpace {
            parent,
            pages,
            first,
        })
    }

    /// Removes a space.
    pub fn remove_space(&mut self, space: u32) -> Result<Reply, Code>
        ensures { Called (Call.RemoveSpace space) self.old result self.new }
    {
        self.call(&Call::RemoveSpace { space })
    }

    /// Asks for the innermost space at a page.
    pub fn place(&mut self, page: u32) -> Result<Reply, Code>
        ensures { Called (Call.Place page) self.old result self.new }
    {
        self.call(&Call::Place { page })
    }

    /// Sets the number of pages that are swapped together.
    pub fn units(&mut self, space: u32, pages: u32) -> Result<Reply, Code>
        ensures { Called (Call.Units space pages) self.old result self.new }
    {
        self.call(&Call::Units { space, pages })
    }

    /// Shows a file in a space, from this page of the file on.
    pub fn map(&mut self, space: u32, id: FileId, page: u32, writable: bool) -> Result<Reply, Code>
        ensures { Called (Call.Map space id page writable) self.old result self.new }
    {
        self.call(&Call::Map {
            space,
            id,
            page,
            writable,
        })
    }

    /// Shows a new file that no other call can name.
    pub fn map_anonymous(&mut self, space: u32) -> Result<Reply, Code>
        ensures { Called (Call.MapAnonymous space) self.old result self.new }
    {
        self.call(&Call::MapAnonymous { space })
    }

    /// Takes the window of a space away.
    pub fn unmap(&mut self, space: u32) -> Result<Reply, Code>
        ensures { Called (Call.Unmap space) self.old result self.new }
    {
        self.call(&Call::Unmap { space })
    }

    /// Makes the window of a space writable or read-only.
    pub fn protect(&mut self, space: u32, writable: bool) -> Result<Reply, Code>
        ensures { Called (Call.Protect space writable) self.old result self.new }
    {
        self.call(&Call::Protect { space, writable })
    }

    /// Advises that the pages of a space will be used soon.
    pub fn activate(&mut self, space: u32) -> Result<Reply, Code>
        ensures { Called (Call.Activate space) self.old result self.new }
    {
        self.call(&Call::Activate { space })
    }

    /// Advises that the pages of a space will not be used soon.
    pub fn deactivate(&mut self, space: u32) -> Result<Reply, Code>
        ensures { Called (Call.Deactivate space) self.old result self.new }
    {
        self.call(&Call::Deactivate { space })
    }

    /// Advises that the contents of a space will not be wanted.
    pub fn kill(&mut self, space: u32) -> Result<Reply, Code>
        ensures { Called (Call.Kill space) self.old result self.new }
    {
        self.call(&Call::Kill { space })
    }

    /// Makes the files hold what the space holds.
    pub fn force(&mut self, space: u32) -> Result<Reply, Code>
        ensures { Called (Call.ForceOut space) self.old result self.new }
    {
        self.call(&Call::ForceOut { space })
    }
}
