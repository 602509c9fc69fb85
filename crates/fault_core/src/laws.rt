//! What the definitions say, as the contracts of functions that do nothing.
ghost use Rattle.std.specs.Prelude.{ℕ, List};
ghost use Rattle.labelled_disk.specs.Sectors.{Sector};
ghost use Rattle.file_map.specs.FileMap.{Triples};
ghost use Rattle.swapper_kernel.specs.Homes.{IsLayout};
ghost use Rattle.session_words.specs.Volume.{Searches};
ghost use Rattle.filer_kernel.specs.View.{View};
ghost use Rattle.fault_core.specs.Range.{ForcedRanges, OwnAreKnown};
ghost use Rattle.fault_core.specs.Reach.{Reaches};
ghost use Rattle.fault_core.specs.ReferenceLaws.{LoadsAreAllowed, LoadsAreAnswered, LoadsAreTested, StoresAreAnswered, StoresAreTested, StoresStand};
ghost use Rattle.fault_core.specs.Revealed.{Known};

/// Pages that are found and brought in twice are so once, what was known of the memory is known, and it is the same.
pub fn reaches_in_turn()
    ensures itself { (v : View) → Reaches v v }
    ensures next { (v w x : View) → IsLayout v.layout → Reaches v w → Reaches w x → Reaches v x }
    ensures known { (v w : View) (m : List Sector) (named : Triples) (b : List ℕ) → IsLayout v.layout → Reaches v w
        → Known v m named b → Known w m named b }
    ensures searches { (v w : View) (m : List Sector) (named : Triples) (b : List ℕ) → IsLayout v.layout → Reaches v w
        → Known v m named b → Searches v.disk v.slots w.disk w.slots }
{}

/// A load and a store are refused by the machine exactly as a core refuses them.
pub fn references_are_tested()
    ensures loads { LoadsAreTested }
    ensures stores { StoresAreTested }
{}

/// The bytes that a load gives of a memory that has the machine's cells are bytes that the machine may reply.
pub fn loads_are_allowed()
    ensures bytes { LoadsAreAllowed }
    ensures reply { LoadsAreAnswered }
{}

/// The machine allows the reply to a store, and one that is done leads to the machine's next.
pub fn stores_are_allowed()
    ensures reply { StoresAreAnswered }
    ensures next { StoresStand }
{}

/// Where the pages of a space's range are forced, no dirty frame has a page that a window shows there.
pub fn ranges_are_forced()
    ensures forced { ForcedRanges }
    ensures came { OwnAreKnown }
{}
