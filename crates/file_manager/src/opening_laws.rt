//! What a volume is that was opened, as the contract of a function that does nothing.
ghost use Rattle.std.specs.Prelude.{◌≡◌, List, length};
ghost use Rattle.labelled_disk.specs.declared.layout.Layout.{Layout};
ghost use Rattle.labelled_disk.specs.FilesOn.{files_on};
ghost use Rattle.labelled_disk.specs.Sectors.{Sector, AreSectors};
ghost use Rattle.file_map.specs.declared.run.Run.{Run};
ghost use Rattle.swapper_kernel.specs.Stands.{labels_of};
ghost use Rattle.session_words.specs.Parts.{shapes_of};
ghost use Rattle.session_words.specs.OpenLaws.{CanOpen, FlagCleared};
ghost use Rattle.file_manager.specs.Book.{IsBookedUpto, AreTrue};

/// A volume that can be opened is, once its flag is cleared, one of its permanent files, with no page of the space tables.
pub fn opened_volumes_are_booked()
    ensures { (layout : Layout) (runs : List Run) (d x : List Sector) → CanOpen d → FlagCleared d x → AreSectors x
        → length x ≡ layout.sectors → AreTrue (labels_of x) runs
        → IsBookedUpto 0 layout runs (shapes_of (files_on d)) x }
{}
