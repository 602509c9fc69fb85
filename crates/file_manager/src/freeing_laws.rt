//! What the words of freed pages say, as the contract of a function that does nothing.
ghost use Rattle.std.specs.Prelude.{◌≡◌, ℕ, false, List, Some};
ghost use Rattle.labelled_disk.specs.declared.layout.Layout.{Layout};
ghost use Rattle.labelled_disk.specs.Sectors.{Sector};
ghost use Rattle.labelled_disk.specs.State.{DiskState};
ghost use Rattle.frame_pool.specs.Frames.{Slots};
ghost use Rattle.flat_machine.specs.declared.space.Space.{Space};
ghost use Rattle.swapper_kernel.specs.Homes.{IsLayout};
ghost use Rattle.filer_kernel.specs.declared.cached.CachedRuns.{CachedRuns as KeptRuns};
ghost use Rattle.session_words.specs.Parts.{Shape, Shapes};
ghost use Rattle.session_words.specs.FrameLaws.{is_shown};
ghost use Rattle.file_manager.specs.Book.{Books};
ghost use Rattle.file_manager.specs.Freeing.{MayFreeAll};

/// Where the maps are right and no window shows a file, its leader and all its pages may be freed.
pub fn files_may_be_freed()
    ensures { (disk : DiskState) (slots : Slots) (layout : Layout) (runs : KeptRuns) (shapes : Shapes)
        (spaces : List Space) (x : List Sector) (id : ℕ) (f : Shape)
        → IsLayout layout → (books : Books disk slots layout runs shapes spaces x)
        → ((page : ℕ) → is_shown spaces id page ≡ false) → shapes id ≡ Some f
        → MayFreeAll disk slots layout runs books.booked.named spaces id f.size x }
{}
