//! What the definitions say, as the contracts of functions that do nothing.
ghost use Rattle.std.specs.Prelude.{◌≡◌, ℕ, Bool, true, List, Some, None};
ghost use Rattle.labelled_disk.specs.Sectors.{Sector};
ghost use Rattle.swapper_kernel.specs.Kinds.{Kind, SameBut};
ghost use Rattle.session_words.specs.KindLaws.{Stays};
ghost use Rattle.session_words.specs.Parts.{HasLabels, Shape, Shapes, TablesMeaning};
ghost use Rattle.session_words.specs.SettledLaws.{SettledLaws};
ghost use Rattle.session_words.specs.CellLaws.{CellLaws};
ghost use Rattle.session_words.specs.PlaceLaws.{PlaceLaws};
ghost use Rattle.session_words.specs.StopLaws.{StopLaws};
ghost use Rattle.session_words.specs.CallLaws.{CallLaws};
ghost use Rattle.session_words.specs.StartLaws.{StartLaws};
ghost use Rattle.session_words.specs.SizeLaws.{SizeLaws};
ghost use Rattle.session_words.specs.CreateLaws.{CreateStands};
ghost use Rattle.session_words.specs.MarkLaws.{MarkLaws};
ghost use Rattle.session_words.specs.RunStops.{RunStops};
ghost use Rattle.session_words.specs.OpenLaws.{Opened};
ghost use Rattle.session_words.specs.CloseLaws.{Closed};
ghost use Rattle.session_words.specs.DeleteLaws.{DeleteStands};
ghost use Rattle.session_words.specs.GrowLaws.{GrowLaws};
ghost use Rattle.session_words.specs.ChangeLaws.{ChangeLaws};
ghost use Rattle.session_words.specs.FrameLaws.{FrameLaws};
ghost use Rattle.session_words.specs.ShownLaws.{ShownLaws};
ghost use Rattle.session_words.specs.SoundLaws.{SoundLaws};
ghost use Rattle.session_words.specs.FreeLaws.{FreeLaws};
ghost use Rattle.session_words.specs.Found.{AreShapes, IsFound};
ghost use Rattle.swapper_kernel.specs.Stands.{labels_of};
ghost use Rattle.labelled_disk.specs.File.{File};
ghost use Rattle.labelled_disk.specs.FilesOn.{disk_file};

/// Each part of what a session stands for stays where pages of other kinds change.
pub fn parts_stay()
    ensures { (spaces_of : TablesMeaning) (m n : List Sector) (kinds : Kind → Bool) (same : SameBut kinds m n)
        → Stays spaces_of m n kinds same }
{}

/// Labels that are those of some files reveal these files, and no others.
pub fn labels_reveal_files()
    ensures found { (d : List Sector) (shapes : Shapes) → HasLabels (labels_of d) shapes → AreShapes shapes
        → (id : ℕ) (f : Shape) → shapes id ≡ Some f → (g : File) × IsFound d id f g }
    ensures missing { (d : List Sector) (shapes : Shapes) → HasLabels (labels_of d) shapes → AreShapes shapes → (id : ℕ)
        → shapes id ≡ None → disk_file true d id ≡ None }
{}

/// The disk reveals the settled files of the machine that it and its frames stand for, in each crash state of swapping too.
pub fn disk_reveals_settled()
    ensures { (spaces_of : TablesMeaning) → SettledLaws spaces_of }
{}

/// A store and a kill change cells alone, and the pages of files alone.
pub fn cells_alone()
    ensures { (spaces_of : TablesMeaning) → CellLaws spaces_of }
{}

/// What the parts become where one data sector gets another label.
pub fn sector_relabelled()
    ensures { PlaceLaws }
{}

/// A stop among the writes of a call is, but for bytes that no file rests on, one among its label writes alone.
pub fn stops_between_writes()
    ensures { StopLaws }
{}

/// Calls of the space tables and a force lead to the machine after them.
pub fn calls_stand()
    ensures { (spaces_of : TablesMeaning) → CallLaws spaces_of }
{}

/// The labels of a sound volume are those of its files, and those of the space tables are made one by one.
pub fn sound_labels_are_files()
    ensures { StartLaws }
{}

/// A file that grows: labels, bits and triples together, and the machine after it.
pub fn files_grow()
    ensures { (spaces_of : TablesMeaning) → GrowLaws spaces_of }
{}

/// A change of a frame's bytes is a store in the page of a file.
pub fn bytes_change()
    ensures { (spaces_of : TablesMeaning) → ChangeLaws spaces_of }
{}

/// Which pages have frames, and over which sectors there is none.
pub fn frames_are_known()
    ensures { FrameLaws }
{}

/// What frames show of both maps is what the maps of the memory say.
pub fn maps_are_shown()
    ensures { ShownLaws }
{}

/// A sound volume can be opened, the write of the root with the clean flag 0 opens it, and one that can be opened is sound once its flag is clean.
pub fn sound_volumes_open()
    ensures { SoundLaws }
{}

/// A set of pages goes, whatever the order: what the parts become, and a file that is cut.
pub fn pages_freed()
    ensures { (spaces_of : TablesMeaning) → FreeLaws spaces_of }
{}

/// A call that gives a file another size leads to the machine after it.
pub fn files_resized()
    ensures { (spaces_of : TablesMeaning) → SizeLaws spaces_of }
{}

/// A creation leads to the machine after it.
pub fn files_made()
    ensures { (spaces_of : TablesMeaning) → CreateStands spaces_of }
{}

/// A call that makes a file permanent or immutable leads to the machine after it.
pub fn files_marked()
    ensures { (spaces_of : TablesMeaning) → MarkLaws spaces_of }
{}

/// In each crash state of a call that writes labels, the disk reveals the settled files of a machine.
pub fn stops_reveal_settled()
    ensures { RunStops }
{}

/// A start leads to the machine of the permanent files.
pub fn volume_opened()
    ensures { (spaces_of : TablesMeaning) → Opened spaces_of }
{}

/// Where a close has freed the tables and the temporary files, the volume can be opened, and its files are those of the machine after it.
pub fn volume_closed()
    ensures { (spaces_of : TablesMeaning) → Closed spaces_of }
{}

/// A deletion leads to the machine after it.
pub fn files_deleted()
    ensures { (spaces_of : TablesMeaning) → DeleteStands spaces_of }
{}
