//! What the definitions say, as the contracts of functions that do nothing.
ghost use Rattle.std.specs.Prelude.{ℕ};
ghost use Rattle.labelled_disk.specs.Sectors.{Sector};
ghost use Rattle.volume_root.specs.Flag.{FlagKeepsVolume, SoundIsOpened};
ghost use Rattle.volume_root.specs.FormatLaws.{NewIsEmpty};
ghost use Rattle.volume_root.specs.Mapped.{SoundAreMapped};
ghost use Rattle.volume_root.specs.OldRoot.{IsOldOrNew};
ghost use Rattle.volume_root.specs.RootLaws.{ValidIsJudged, WrittenIsRead};
ghost use Rattle.volume_root.specs.ThreeFiles.{ThreeFilesAreSound};

/// The tests of a root are those that a valid root passes.
pub fn valid_roots_pass()
    ensures { (n : ℕ) (s : Sector) → ValidIsJudged n s }
{}

/// A root that is written is the one that is read.
pub fn written_root_is_read()
    ensures { WrittenIsRead }
{}

/// A root that `read_old_root` takes is refused by `read_root` for its version, and the other way
/// round.
pub fn old_roots_are_not_new()
    ensures { (n : ℕ) (s : Sector) → IsOldOrNew n s }
{}

/// A volume that was just made is sound, and has no file.
pub fn new_volume_is_empty()
    ensures { NewIsEmpty }
{}

/// With either clean flag a volume is the same, and one that was closed is sound again.
pub fn flag_keeps_volume()
    ensures { FlagKeepsVolume }
{}

/// A sound volume is opened.
pub fn sound_is_opened()
    ensures { SoundIsOpened }
{}

/// The file map of a sound volume names a sector for each page of each file.
pub fn sound_volumes_are_mapped()
    ensures { SoundAreMapped }
{}

/// A volume of 256 sectors with three files, written out sector by sector, is sound.
pub fn three_files_are_sound()
    ensures { ThreeFilesAreSound }
{}
