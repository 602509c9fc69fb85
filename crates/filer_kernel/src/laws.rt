//! What the definitions say, as the contracts of functions that do nothing.
ghost use Rattle.std.specs.Prelude.{◌≡◌, ◌↔◌, ◌==◌, ◌<◌, ◌≤◌, ℕ, true, List, length, filter, not, Some, slice_get};
ghost use Rattle.labelled_disk.specs.declared.layout.Layout.{Layout};
ghost use Rattle.labelled_disk.specs.Sectors.{Sector, AreSectors};
ghost use Rattle.labelled_disk.specs.State.{DiskState};
ghost use Rattle.frame_pool.specs.Frames.{Slots};
ghost use Rattle.alloc_map.specs.Bits.{is_used};
ghost use Rattle.file_map.specs.declared.run.Run.{Run as RunIs};
ghost use Rattle.file_map.specs.FileMap.{Triples, with_run, without_from};
ghost use Rattle.file_map.specs.InSectors.{MapNames};
ghost use Rattle.swapper_kernel.specs.declared.manager.Manager.TheVariants.{AllocationMap, FileMap};
ghost use Rattle.swapper_kernel.specs.Homes.{IsLayout};
ghost use Rattle.swapper_kernel.specs.Differs.{Differs};
ghost use Rattle.swapper_kernel.specs.Stands.{Stands};
ghost use Rattle.swapper_kernel.specs.Window.{in_map, map_bytes};
ghost use Rattle.filer_kernel.specs.declared.cached.CachedRuns.{CachedRuns as CachedIs};
ghost use Rattle.filer_kernel.specs.Cached.{runs_of};
ghost use Rattle.filer_kernel.specs.Marks.{Marks, BitsAre};
ghost use Rattle.filer_kernel.specs.Triples.{MapIs, AreOf};
ghost use Rattle.filer_kernel.specs.Tables.{AreOverTables, TablesReveal};

/// Runs of a map are runs of it where it names more, and those of other files where a file is cut.
pub fn runs_stay()
    ensures more { (named : Triples) (runs : List RunIs) (run : RunIs) → AreOf named runs
        → AreOf (with_run named run) runs }
    ensures fewer { (named : Triples) (runs : List RunIs) (id from : ℕ) → AreOf named runs
        → AreOf (without_from named id from) (filter (λ r. not (r.id == id)) runs) }
{}

/// What the one map says stays where pages of the other change.
pub fn other_map_stays()
    ensures marks { (layout : Layout) (marks : Marks) (m n : List Sector) → Differs (in_map FileMap layout) m n
        → BitsAre layout marks m → BitsAre layout marks n }
    ensures named { (layout : Layout) (named : Triples) (m n : List Sector) → Differs (in_map AllocationMap layout) m n
        → MapIs layout named m → MapIs layout named n }
{}

/// What the maps of a memory of whole sectors say, by the bytes of their sectors.
pub fn maps_in_sectors()
    ensures marks { (layout : Layout) (marks : Marks) (m : List Sector) → IsLayout layout → length m ≡ layout.sectors
        → AreSectors m
        → BitsAre layout marks m ↔ ((sector : ℕ) → marks sector ≡ is_used (map_bytes AllocationMap layout m) sector) }
    ensures named { (layout : Layout) (named : Triples) (m : List Sector) → IsLayout layout → length m ≡ layout.sectors
        → AreSectors m → MapIs layout named m ↔ MapNames m named }
{}

/// What both maps say stays where the sectors before the data sectors do.
pub fn maps_stay()
    ensures marks { (layout : Layout) (marks : Marks) (m n : List Sector) → IsLayout layout
        → ((sector : ℕ) → sector < layout.first → slice_get n sector ≡ slice_get m sector) → BitsAre layout marks m
        → BitsAre layout marks n }
    ensures named { (layout : Layout) (named : Triples) (m n : List Sector) → IsLayout layout
        → ((sector : ℕ) → sector < layout.first → slice_get n sector ≡ slice_get m sector) → MapIs layout named m
        → MapIs layout named n }
{}

/// What the space tables reveal stays where no sector of file 3 changed, and the map, the runs and the frames still have its pages.
pub fn tables_revealed_stay()
    ensures { (old new : DiskState) (before after : Slots) (layout : Layout) (kept runs : CachedIs) (b : List ℕ)
        (n : List Sector) (named : Triples)
        → IsLayout layout → (revealed : TablesReveal old before layout kept b) → Stands new after n
        → new.sectors ≡ layout.sectors → MapIs layout named n → AreOf named (runs_of layout.sectors runs)
        → ((page sector : ℕ) → page < 96 → revealed.triples 3 page sector ≡ true → named 3 page sector ≡ true)
        → ((sector : ℕ) (s : Sector) → layout.first ≤ sector → s.0.id ≡ 3
        → slice_get revealed.memory sector ≡ Some s ↔ slice_get n sector ≡ Some s)
        → AreOverTables after named → TablesReveal new after layout runs b }
{}
