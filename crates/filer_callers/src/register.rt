//! A filer, and how many entries a table in its space tables has.
ghost use Rattle.std.specs.Prelude.{◌≡◌, ◌≤◌, ◌+◌, ◌*◌, ◌↔◌, ℕ, if◌then◌else◌, List, Err, IfOk, IfErr, OnOk, is_ok};
ghost use Rattle.flat_mem.specs.Order.{IsFound, IsInKeyOrder};
ghost use Rattle.record_table.specs.Edits.{IfMem};
ghost use Rattle.record_table.specs.InPart.{IsInsertedIn, entries_in};
ghost use Rattle.filer_kernel.specs.Tables.{IsTableAccounted, TablesReveal};
ghost use Rattle.filer_kernel.specs.View.{FitsLayout, TablesBeside, view_of};

use filer_kernel::{Filer, TableMemory};
use flat_mem::Part;
use labelled_disk::{Disk, Halt};
use record_table::{RecordTable, TableError};
use std::alloc::Allocator;

/// A filer, and how many entries the table in pages 32 to 95 of its space tables has.
#[derive(Drop)]
pub struct RegisterOver<D: Disk, A: Allocator> {
    pub(crate) filer: Filer<D, A>,
    pub(crate) count: u32,
}

/// The same over a disk that is lent.
pub type Register<'d, D, A> = RegisterOver<&'d mut D, A>;

impl<D: Disk, A: Allocator> RegisterOver<D, A> {
    /// The last of the entries whose key is at most this one.
    pub fn find(&mut self, key: &[u8; 4]) -> Result<Option<u32>, Halt>
        requires size { FitsLayout (view_of self.old.filer) }
        requires few { self.old.count ≤ 1024 }
        ensures found { (b : List ℕ)
            → TablesReveal (view_of self.old.filer).disk (view_of self.old.filer).slots (view_of self.old.filer).layout
            (view_of self.old.filer).runs b
            → IsInKeyOrder 4 (entries_in 32 32 64 self.old.count b)
            → IfOk result (IsFound 4 (entries_in 32 32 64 self.old.count b) key.now) }
        ensures same { (b : List ℕ)
            → TablesReveal (view_of self.old.filer).disk (view_of self.old.filer).slots (view_of self.old.filer).layout
            (view_of self.old.filer).runs b
            → TablesReveal (view_of self.new.filer).disk (view_of self.new.filer).slots (view_of self.new.filer).layout
            (view_of self.new.filer).runs b }
        ensures count { self.new.count ≡ self.old.count }
        ensures kept { TablesBeside (view_of self.old.filer) (view_of self.new.filer) }
        ensures cause { IfErr result
            (λ e.
            IsTableAccounted (view_of self.old.filer).disk (view_of self.old.filer).slots
            (view_of self.old.filer).layout (view_of self.old.filer).runs (view_of self.new.filer).disk e) }
        ensures cost { (view_of self.new.filer).disk.transfers ≤ (view_of self.old.filer).disk.transfers + 7 * 28 }
    {
        let mut table = RecordTable::<Part<TableMemory<D, A>>, 32, 4>::over(
            Part::of(self.filer.table_memory(), 32, 64),
            self.count,
        );
        table.find_last_at_most(key)
    }

    /// One entry more. After an error of the disk the entries are open, and the count is what it was.
    pub fn add(&mut self, entry: &[u8; 32]) -> Result<(), TableError<Halt>>
        requires size { FitsLayout (view_of self.old.filer) }
        requires few { self.old.count ≤ 1024 }
        ensures inserted { (b : List ℕ)
            → TablesReveal (view_of self.old.filer).disk (view_of self.old.filer).slots (view_of self.old.filer).layout
            (view_of self.old.filer).runs b
            → OnOk result
            (IsInsertedIn 32 4 32 64
            (TablesReveal (view_of self.new.filer).disk (view_of self.new.filer).slots (view_of self.new.filer).layout
            (view_of self.new.filer).runs)
            b self.old.count entry.now) }
        ensures full { (result ≡ Err TableError.Full) ↔ (self.old.count ≡ 1024) }
        ensures count { self.new.count ≡ (if is_ok result then self.old.count + 1 else self.old.count) }
        ensures kept { TablesBeside (view_of self.old.filer) (view_of self.new.filer) }
        ensures cause { IfErr result
            (IfMem
            (IsTableAccounted (view_of self.old.filer).disk (view_of self.old.filer).slots
            (view_of self.old.filer).layout (view_of self.old.filer).runs (view_of self.new.filer).disk)) }
    {
        let mut table = RecordTable::<Part<TableMemory<D, A>>, 32, 4>::over(
            Part::of(self.filer.table_memory(), 32, 64),
            self.count,
        );
        let answer = table.insert(entry);
        self.count = table.count();
        answer
    }
}
