//! What the file map of a memory says, it says alone.
ghost use Rattle.std.specs.Prelude.{◌≡◌, ℕ, ◌^◌, ◌<◌, List, length};
ghost use Rattle.labelled_disk.specs.Sectors.{Sector};
ghost use Rattle.file_map.specs.FileMap.{Triples};
ghost use Rattle.file_map.specs.InSectors.{MapNames};

/// A memory's file map names one set of triples.
pub fn map_names_once()
    ensures { (m : List Sector) (named also : Triples) → length m < 2 ^ 32 → MapNames m named → MapNames m also
        → (id page sector : ℕ) → also id page sector ≡ named id page sector }
{}
