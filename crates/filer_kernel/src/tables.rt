//! The pages of the space tables, found through the file map and brought into frames.
ghost use Rattle.std.specs.Prelude.{◌≡◌, ℕ, ◌+◌, ◌*◌, ◌<◌, ◌≤◌, find, List, length, IfOk, IsOk, Some};
ghost use Rattle.labelled_disk.specs.Sectors.{Sector};
ghost use Rattle.flat_mem.specs.Memory.{part};
ghost use Rattle.frame_pool.specs.Frames.{ArePages, Frame, Has, HasPage};
ghost use Rattle.file_map.specs.declared.run.Run.{Run};
ghost use Rattle.file_map.specs.Run.{holds};
ghost use Rattle.swapper_kernel.specs.Homes.{IsNamed};
ghost use Rattle.swapper_kernel.specs.Stands.{Stands};
ghost use Rattle.filer_kernel.specs.Cached.{runs_of};
ghost use Rattle.filer_kernel.specs.Tables.{IsFoundHome, TablesReveal};

use crate::Filer;
use frame_pool::Home;
use labelled_disk::{Disk, Evidence, Halt, TABLES};
use std::alloc::Allocator;

impl<D: Disk, A: Allocator> Filer<D, A> {
    ghost use Rattle.filer_kernel.specs.View.{view_of};
    ghost use Rattle.filer_kernel.specs.Looks.{LooksForPage};

    // Where the map says that a page of the space tables stands.
    fn table_home(&mut self, page: u32) -> Result<Home, Halt>
        requires size { (D.state self.old.swapper.disk).sectors ≡ self.old.swapper.layout.sectors }
        requires page { page < 96 }
        requires pages { ArePages self.old.swapper.pool }
        ensures found { IfOk result
            (λ home.
            IsFoundHome self.old.swapper.layout (D.state self.old.swapper.disk) self.old.swapper.pool
            (runs_of self.old.swapper.layout.sectors self.old.runs) home) }
        ensures page { IfOk result (λ home. home.page ≡ page) }
        ensures named { (b : List ℕ)
            → TablesReveal (D.state self.old.swapper.disk) self.old.swapper.pool self.old.swapper.layout self.old.runs b
            → (m : List Sector) → Stands (D.state self.old.swapper.disk) self.old.swapper.pool m
            → IfOk result (IsNamed m) }
        ensures stays { (m : List Sector) → Stands (D.state self.old.swapper.disk) self.old.swapper.pool m
            → Stands (D.state self.new.swapper.disk) self.new.swapper.pool m }
        ensures looks { LooksForPage page (view_of self.old) (view_of self.new) result }
        ensures idle { (r : Run)
            → find (λ r. holds r 3 page) (runs_of self.old.swapper.layout.sectors self.old.runs) ≡ Some r
            → self.new.swapper ≡ self.old.swapper }
        ensures cost { (D.state self.new.swapper.disk).transfers ≤ (D.state self.old.swapper.disk).transfers + 14 }
    {
        let Some(run) = self.find(TABLES, page)? else {
            return Err(Halt::Damaged(Evidence::Missing { id: TABLES, page }));
        };
        Ok(Home {
            sector: run.sector + (page - run.first),
            id: TABLES,
            page,
        })
    }

    /// Makes a page of the space tables, one of 96, resident, and gives its slot, in at most 16 transfers. Where it is at
    /// home, the file map says.
    pub fn fetch_table_page(&mut self, page: u32) -> Result<u32, Halt>
        requires size { (D.state self.old.swapper.disk).sectors ≡ self.old.swapper.layout.sectors }
        requires page { page < 96 }
        ensures there { IfOk result
            (λ i. (f : Frame) × Has self.new.swapper.pool i f × (f.home.id ≡ 3) × (f.home.page ≡ page)) }
        ensures below { IfOk result (λ i. i < length self.new.swapper.pool) }
        ensures shown { (b : List ℕ)
            → TablesReveal (D.state self.old.swapper.disk) self.old.swapper.pool self.old.swapper.layout self.old.runs b
            → IfOk result (λ i. (f : Frame) × Has self.new.swapper.pool i f × (f.bytes ≡ part b (512 * page) 512)) }
        ensures looks { LooksForPage page (view_of self.old) (view_of self.new) result }
        ensures idle { (i : ℕ) → HasPage self.old.swapper.pool i 3 page
            → IsOk result × (self.new.swapper ≡ self.old.swapper) × (self.new.runs ≡ self.old.runs) }
        ensures cost { (D.state self.new.swapper.disk).transfers ≤ (D.state self.old.swapper.disk).transfers + 16 }
        // where a run that is kept has the page, no search is made: the page alone moves, and a page that yields to it
        ensures warm { (r : Run)
            → find (λ r. holds r 3 page) (runs_of self.old.swapper.layout.sectors self.old.runs) ≡ Some r
            → (D.state self.new.swapper.disk).transfers ≤ (D.state self.old.swapper.disk).transfers + 2 }
    {
        if let Some(slot) = self.swapper.frames().find(TABLES, page) {
            return Ok(slot);
        }
        let home = self.table_home(page)?;
        self.swapper.fetch(home, page, 1)
    }
}
