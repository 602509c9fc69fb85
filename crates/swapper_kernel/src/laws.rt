//! What the definitions say, as the contracts of functions that do nothing.
ghost use Rattle.std.specs.Prelude.{◌≡◌, List, length};
ghost use Rattle.labelled_disk.specs.declared.layout.Layout.{Layout};
ghost use Rattle.labelled_disk.specs.Sectors.{Sector, AreSectors};
ghost use Rattle.labelled_disk.specs.State.{DiskState};
ghost use Rattle.frame_pool.specs.Frames.{Slots};
ghost use Rattle.swapper_kernel.specs.declared.manager.Manager.{Manager};
ghost use Rattle.swapper_kernel.specs.Goes.{Swaps};
ghost use Rattle.swapper_kernel.specs.Homes.{IsLayout};
ghost use Rattle.swapper_kernel.specs.MoveLaws.{MoveLaws};
ghost use Rattle.swapper_kernel.specs.Stands.{Stands};
ghost use Rattle.swapper_kernel.specs.StepLaws.{StepLaws};
ghost use Rattle.swapper_kernel.specs.Window.{Reveals, map_bytes};

/// Swapping twice is swapping, and so is doing nothing.
pub fn swaps_keep_memory()
    ensures itself { (disk : DiskState) (slots : Slots) → Swaps disk slots disk slots }
    ensures next { (a b c : DiskState) (s t u : Slots) → Swaps a s b t → Swaps b t c u → Swaps a s c u }
{}

/// What the elementary moves of frames and disk do to the memory that both make.
pub fn frames_move()
    ensures { (sectors : List Sector) (slots : Slots) (memory : List Sector) → MoveLaws sectors slots memory }
{}

/// Each step of a swapper is swapping.
pub fn swapper_steps()
    ensures { StepLaws }
{}

/// Where a disk of the layout's size reveals its contents, the window over a map reveals its bytes: the pages of the map, one
/// after the other.
pub fn maps_are_revealed()
    ensures there { (which : Manager) (disk : DiskState) (slots : Slots) (layout : Layout) (m : List Sector)
        → IsLayout layout → disk.sectors ≡ layout.sectors → Stands disk slots m → length m ≡ layout.sectors
        → AreSectors m → Reveals which disk slots layout (map_bytes which layout m) }
{}
