//! What the words say, as the contracts of functions that do nothing.
ghost use Rattle.std.specs.Prelude.{List};
ghost use Rattle.labelled_disk.specs.declared.layout.Layout.{Layout};
ghost use Rattle.labelled_disk.specs.Sectors.{Sector, AreSectors};
ghost use Rattle.file_map.specs.declared.run.Run.{Run};
ghost use Rattle.session_words.specs.Parts.{Shapes};
ghost use Rattle.file_manager.specs.Book.{IsBooked};

/// Memories of files are lists of sectors in form.
pub fn booked_is_in_form()
    ensures { (layout : Layout) (runs : List Run) (shapes : Shapes) (m : List Sector) → IsBooked layout runs shapes m
        → AreSectors m }
{}
