//! What follows from what a session stands for, as the contracts of functions that do nothing.
ghost use Rattle.std.specs.Prelude.{◌≡◌, List, Some};
ghost use Rattle.labelled_disk.specs.declared.disk.DiskWrite.{DiskWrite};
ghost use Rattle.labelled_disk.specs.Sectors.{Sector};
ghost use Rattle.labelled_disk.specs.State.{DiskState};
ghost use Rattle.file_map.specs.InSectors.{label_triples};
ghost use Rattle.volume_root.specs.Sound.{Sound};
ghost use Rattle.pilot_engine.specs.Reasons.{IsBegun};
ghost use Rattle.pilot_engine.specs.Room.{SessionsHaveRoom};
ghost use Rattle.session_words.specs.Parts.{TablesMeaning};

/// What a machine's files may still have is what its session's memory has as free.
pub fn sessions_have_room()
    ensures { (spaces_of : TablesMeaning) → SessionsHaveRoom spaces_of }
{}

/// A sound volume, on a disk that reveals its writes, is one whose sessions have a reason for each label that they reveal.
pub fn sound_volumes_are_begun()
    ensures { (d : List Sector) (ws : List DiskWrite) (disk : DiskState) → Sound d → disk.contents ≡ Some d
        → disk.writes ≡ Some ws → IsBegun d (label_triples d) ws disk }
{}
