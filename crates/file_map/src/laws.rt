//! What the form of a map says, as the contracts of functions that do nothing.
ghost use Rattle.std.specs.Prelude.{ℕ};
ghost use Rattle.file_map.specs.FileMap.{Triples};
ghost use Rattle.file_map.specs.Laws.{AreFew};
ghost use Rattle.file_map.specs.Map.{map_sectors, Names, Counts};

use crate::map::FileMap;
use flat_mem::FlatMem;

/// A map has at most as many records as data sectors are named, where each is named for one page alone.
pub fn records_are_few<M: FlatMem>(map: &FileMap<M>)
    ensures { (named : Triples) → Names map.now named → (n : ℕ) → Counts map.now n
        → AreFew (map_sectors map.now) named n }
{}
