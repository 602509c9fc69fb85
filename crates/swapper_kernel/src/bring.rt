//! Pages of files, brought into frames, changed there, and written out to their homes.
ghost use Rattle.std.specs.Prelude.{◌≡◌, ◌≢◌, ◌<◌, ◌≤◌, ◌+◌, ◌*◌, ℕ, false, List, [], length, Ok, Err, Some, None, IfOk, IfErr, IfSome, OnOk, OnErr, IsSome, slice_set};
ghost use Rattle.labelled_disk.specs.declared.evidence.Halt.TheVariants as halt;
ghost use Rattle.labelled_disk.specs.Sectors.{Sector};
ghost use Rattle.frame_pool.specs.Frames.{Frame, Has, HasPage, IsNowhere, changed, cleaned_at, frame_at};
ghost use Rattle.swapper_kernel.specs.Maps.{id_of, map_home, pages_of};
ghost use Rattle.swapper_kernel.specs.Homes.{AreNamed, IsAmong, IsNamed, IsPlaced, no_home};
ghost use Rattle.swapper_kernel.specs.Bring.{AreThere, IsFileRun, IsShown, KeepsRun};
ghost use Rattle.swapper_kernel.specs.Moves.{KeepsFrames, MayBeFilled, SwapsFor};
ghost use Rattle.swapper_kernel.specs.Stands.{Stands, IsHome};
ghost use Rattle.swapper_kernel.specs.Goes.{Goes, Swaps, no_page, this_page};
ghost use Rattle.swapper_kernel.specs.Differs.{ChangesAt, Differs, of_run};
ghost use Rattle.swapper_kernel.specs.Steps.{Steps};
ghost use Rattle.swapper_kernel.specs.Halts.{Halts};

use crate::{Manager, Swapper};
use frame_pool::Home;
use labelled_disk::{Disk, DiskError, Evidence, Halt, PAGE_BYTES, Wanted};
use std::alloc::Allocator;

impl<D: Disk, A: Allocator> Swapper<D, A> {
    /// Writes a frame to its home, where it is dirty, and marks it clean. After an error it is dirty still.
    pub fn write_out(&mut self, slot: u32) -> Result<(), Halt>
        requires size { (D.state self.old.disk).sectors ≡ self.old.layout.sectors }
        requires below { slot < length self.old.pool }
        ensures clean { OnOk result ((f : Frame) → Has self.new.pool slot f → f.dirty ≡ false) }
        ensures cleaned { OnOk result (self.new.pool ≡ cleaned_at self.old.pool slot) }
        ensures kept { OnErr result (self.new.pool ≡ self.old.pool) }
        ensures sound { (m : List Sector) → Stands (D.state self.old.disk) self.old.pool m
            → IfErr result (λ e. e ≡ halt.Disk) }
        ensures cause { IfErr result (Halts no_home (D.state self.old.disk) self.old.pool (D.state self.new.disk)) }
        ensures moves { SwapsFor no_home (D.state self.old.disk) self.old.pool (D.state self.new.disk) self.new.pool }
        ensures keeps { KeepsFrames slot self.old.pool self.new.pool }
        ensures idle { ((f : Frame) → Has self.old.pool slot f → f.dirty ≡ false)
            → (self.new.disk ≡ self.old.disk) × (self.new.pool ≡ self.old.pool) }
        ensures layout { self.new.layout ≡ self.old.layout }
        ensures cost { (D.state self.new.disk).transfers ≤ (D.state self.old.disk).transfers + 1 }
    {
        let Some((home, dirty)) = self.pool.held(slot) else {
            return Ok(());
        };
        if !dirty {
            return Ok(());
        }
        let Home { sector, id, page } = home;
        let wanted = Wanted { id, page };
        match self.disk.write_data(sector, wanted, self.pool.bytes(slot)) {
            Ok(()) => {
                self.pool.mark_clean(slot);
                Ok(())
            }
            Err(DiskError::Failed) => Err(Halt::Disk),
            Err(DiskError::Wrong { found }) => Err(Halt::Damaged(Evidence::Mismatch {
                sector,
                wanted,
                found,
            })),
        }
    }

    /// Fills a slot with a page that no slot has. The page is read before the frame there is given up.
    fn load(&mut self, slot: u32, home: Home) -> Result<(), Halt>
        requires size { (D.state self.old.disk).sectors ≡ self.old.layout.sectors }
        requires below { slot < length self.old.pool }
        requires fillable { MayBeFilled self.old.pool slot }
        requires placed { IsPlaced self.old.layout home }
        requires nowhere { IsNowhere self.old.pool home.id home.page }
        ensures there { OnOk result ((f : Frame) × Has self.new.pool slot f × (f.home ≡ home)) }
        ensures sound { (m : List Sector) → Stands (D.state self.old.disk) self.old.pool m → IsNamed m home
            → IfErr result (λ e. e ≡ halt.Disk) }
        ensures cause { IfErr result
            (Halts (λ h. h ≡ home) (D.state self.old.disk) self.old.pool (D.state self.new.disk)) }
        ensures moves { SwapsFor (λ h. h ≡ home) (D.state self.old.disk) self.old.pool (D.state self.new.disk)
            self.new.pool }
        ensures others { (i : ℕ) (f : Frame) → i ≢ slot → Has self.old.pool i f → Has self.new.pool i f }
        ensures layout { self.new.layout ≡ self.old.layout }
        ensures cost { (D.state self.new.disk).transfers ≤ (D.state self.old.disk).transfers + 1 }
    {
        let Home { sector, id, page } = home;
        let wanted = Wanted { id, page };
        let mut bytes = [0; PAGE_BYTES];
        let Ok(found) = self.disk.read(sector, &mut bytes) else {
            return Err(Halt::Disk);
        };
        if !found.names(wanted) {
            return Err(Halt::Damaged(Evidence::Mismatch {
                sector,
                wanted,
                found,
            }));
        }
        self.pool.clear(slot);
        self.pool.put(slot, home, &bytes);
        Ok(())
    }

    /// Makes a page resident and gives its slot, in at most two transfers. A page that is resident already keeps its
    /// frame and its home, whatever home is given for it. The frames of a run of its file stay.
    pub fn fetch(&mut self, home: Home, keep_first: u32, keep_pages: u32) -> Result<u32, Halt>
        requires size { (D.state self.old.disk).sectors ≡ self.old.layout.sectors }
        requires placed { IsPlaced self.old.layout home }
        requires keep { keep_pages ≤ 16 }
        ensures there { IfOk result
            (λ i. (f : Frame) × Has self.new.pool i f × (f.home.id ≡ home.id) × (f.home.page ≡ home.page)) }
        ensures below { IfOk result (λ i. i < length self.new.pool) }
        ensures sound { (m : List Sector) → Stands (D.state self.old.disk) self.old.pool m → IsNamed m home
            → IfErr result (λ e. e ≡ halt.Disk) }
        ensures cause { IfErr result
            (Halts (λ h. h ≡ home) (D.state self.old.disk) self.old.pool (D.state self.new.disk)) }
        ensures moves { SwapsFor (λ h. h ≡ home) (D.state self.old.disk) self.old.pool (D.state self.new.disk)
            self.new.pool }
        ensures stays { KeepsRun self.old.pool self.new.pool home.id keep_first keep_pages }
        ensures idle { (i : ℕ) → HasPage self.old.pool i home.id home.page
            → (self.new.disk ≡ self.old.disk) × (self.new.pool ≡ self.old.pool) }
        ensures layout { self.new.layout ≡ self.old.layout }
        ensures cost { (D.state self.new.disk).transfers ≤ (D.state self.old.disk).transfers + 2 }
    {
        if let Some(slot) = self.pool.find(home.id, home.page) {
            return Ok(slot);
        }
        let slot = self.pool.victim(home.id, keep_first, keep_pages);
        self.write_out(slot)?;
        self.load(slot, home)?;
        Ok(slot)
    }

    /// The slot that has a page of a map, if one has it.
    pub(crate) fn resident(&self, which: Manager, page: u32) -> Option<u32>
        ensures there { IfSome result
            (λ i. (f : Frame) × Has self.now.pool i f × (f.home ≡ map_home which self.now.layout page)) }
        ensures below { IfSome result (λ i. i < length self.now.pool) }
    {
        self.pool.find(which.id(), page)
    }

    /// Makes a page of a map resident and gives its slot, in at most two transfers. Where it is at home, the layout says.
    pub fn fetch_map_page(&mut self, which: Manager, page: u32) -> Result<u32, Halt>
        requires size { (D.state self.old.disk).sectors ≡ self.old.layout.sectors }
        requires page { page < pages_of which self.old.layout }
        ensures there { IfOk result
            (λ i. (f : Frame) × Has self.new.pool i f × (f.home ≡ map_home which self.old.layout page)) }
        ensures below { IfOk result (λ i. i < length self.new.pool) }
        ensures pages { (m : List Sector) → Stands (D.state self.old.disk) self.old.pool m
            → IfOk result (λ i. (f : Frame) × Has self.new.pool i f × IsHome m f) }
        ensures sound { (m : List Sector) → Stands (D.state self.old.disk) self.old.pool m
            → IsNamed m (map_home which self.old.layout page) → IfErr result (λ e. e ≡ halt.Disk) }
        ensures cause { IfErr result
            (Halts (λ h. h ≡ map_home which self.old.layout page) (D.state self.old.disk) self.old.pool
            (D.state self.new.disk)) }
        ensures moves { SwapsFor (λ h. h ≡ map_home which self.old.layout page) (D.state self.old.disk)
            self.old.pool (D.state self.new.disk) self.new.pool }
        ensures idle { (i : ℕ) → HasPage self.old.pool i (id_of which) page
            → (self.new.disk ≡ self.old.disk) × (self.new.pool ≡ self.old.pool) }
        ensures layout { self.new.layout ≡ self.old.layout }
        ensures cost { (D.state self.new.disk).transfers ≤ (D.state self.old.disk).transfers + 2 }
    {
        let home = which.home(&self.layout, page);
        self.fetch(home, page, 0)
    }

    /// Makes 1 to 16 pages in a row of one file resident together, in at most two transfers each. They are at home on
    /// data sectors. A page that is resident already keeps its frame and its home, whatever home is given for it.
    pub fn bring(&mut self, homes: &[Home]) -> Result<(), Halt>
        requires size { (D.state self.old.disk).sectors ≡ self.old.layout.sectors }
        requires run { IsFileRun homes.now self.old.layout }
        ensures there { OnOk result (AreThere self.new.pool homes.now (length homes.now)) }
        ensures pages { (m : List Sector) → Stands (D.state self.old.disk) self.old.pool m
            → OnOk result ((h : Home) → IsAmong homes.now h → IsShown self.new.pool m h) }
        ensures sound { (m : List Sector) → Stands (D.state self.old.disk) self.old.pool m
            → AreNamed m (IsAmong homes.now) → IfErr result (λ e. e ≡ halt.Disk) }
        ensures cause { IfErr result
            (Halts (IsAmong homes.now) (D.state self.old.disk) self.old.pool (D.state self.new.disk)) }
        ensures moves { SwapsFor (IsAmong homes.now) (D.state self.old.disk) self.old.pool (D.state self.new.disk)
            self.new.pool }
        ensures idle { AreThere self.old.pool homes.now (length homes.now)
            → (D.state self.new.disk ≡ D.state self.old.disk) × (self.new.pool ≡ self.old.pool) }
        ensures layout { self.new.layout ≡ self.old.layout }
        ensures cost { (D.state self.new.disk).transfers ≤ (D.state self.old.disk).transfers + 2 * length homes.now }
    {
        let first = homes[0].page;
        let pages = homes.len() as u32;
        for k in 0..homes.len() {
            self.fetch(homes[k], first, pages)?;
        }
        Ok(())
    }

    /// Writes bytes over those of a frame from `at` on. The frame is dirty then.
    pub fn change(&mut self, slot: u32, at: u32, bytes: &[u8])
        requires below { slot < length self.old.pool }
        requires filled { IsSome (frame_at self.old.pool slot) }
        requires inside { at + length bytes.now ≤ 512 }
        ensures frame { (f : Frame) → Has self.old.pool slot f
            → self.new.pool ≡ slice_set self.old.pool slot (Some (changed f at bytes.now)) }
        ensures goes { (f : Frame) → Has self.old.pool slot f
            → Goes (ChangesAt f.home at bytes.now) (this_page f.home.id f.home.page) [] (D.state self.old.disk)
            self.old.pool (D.state self.new.disk) self.new.pool }
        ensures steps { (f : Frame) → Has self.old.pool slot f
            → Steps no_home (λ h. h ≡ f.home) (D.state self.old.disk) self.old.pool (D.state self.new.disk)
            self.new.pool }
        ensures disk { self.new.disk ≡ self.old.disk }
        ensures layout { self.new.layout ≡ self.old.layout }
    {
        self.pool.change(slot, at, bytes);
    }

    /// Empties a slot. What was dirty in it is lost: the page is what the disk has.
    pub fn clear(&mut self, slot: u32)
        requires below { slot < length self.old.pool }
        ensures slot { self.new.pool ≡ slice_set self.old.pool slot None }
        ensures swaps { ((f : Frame) → Has self.old.pool slot f → f.dirty ≡ false)
            → Swaps (D.state self.old.disk) self.old.pool (D.state self.new.disk) self.new.pool }
        ensures goes { (f : Frame) → Has self.old.pool slot f
            → Goes (Differs (of_run f.home.id f.home.page 1)) no_page [] (D.state self.old.disk) self.old.pool
            (D.state self.new.disk) self.new.pool }
        ensures disk { self.new.disk ≡ self.old.disk }
        ensures layout { self.new.layout ≡ self.old.layout }
    {
        self.pool.clear(slot);
    }
}
