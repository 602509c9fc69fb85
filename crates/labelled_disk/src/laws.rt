//! What the definitions say, as the contracts of functions that do nothing.

ghost use Rattle.std.specs.Prelude.{ℕ, Bool, List};
ghost use Rattle.labelled_disk.specs.Sectors.{Sector};
ghost use Rattle.labelled_disk.specs.Example.{ExampleFiles};
ghost use Rattle.labelled_disk.specs.Lowest.{FilesAreAsRevealed, NeededLaws};
ghost use Rattle.labelled_disk.specs.RootLaws.{RootLaws};
ghost use Rattle.labelled_disk.specs.Runs.{DataRuns, RunLaws, SectorsStay};
ghost use Rattle.labelled_disk.specs.Syncing.{AreSyncs, SyncingLaws};
ghost use Rattle.labelled_disk.specs.WriteLaws.{WriteLaws, FilesAreThose};

/// The list of files has what each identifier has, in ascending order.
pub fn files_are_looked_up()
    ensures { (with_temporary : Bool) (d : List Sector) → FilesAreThose with_temporary d }
{}

/// What one write makes of the files of a disk whose labels are right.
pub fn write_changes_files()
    ensures { (with_temporary : Bool) (serial counter : ℕ) → WriteLaws with_temporary serial counter }
{}

/// What one write makes of a volume's labels and files.
pub fn write_keeps_volume()
    ensures { (with_temporary : Bool) → RootLaws with_temporary }
{}

/// The files of a disk are those that the words reveal: of two sectors that may be a page, the lowest counts.
pub fn files_are_as_revealed()
    ensures { (with_temporary : Bool) (d : List Sector) → FilesAreAsRevealed with_temporary d }
{}

/// Which sectors the files of a disk need, whatever labels it has.
pub fn unneeded_sectors_are_free()
    ensures { (with_temporary : Bool) → NeededLaws with_temporary }
{}

/// The files in each crash state of a creation, a growth, a shrinking and a deletion.
pub fn runs_go_one_way()
    ensures files { (with_temporary : Bool) (serial counter : ℕ) → RunLaws with_temporary serial counter }
    ensures volume { (with_temporary : Bool) → DataRuns with_temporary }
    ensures sectors { SectorsStay }
{}

/// What a sync adds to the syncs of a disk, and what later writes leave of them.
pub fn syncs_are_revealed_once()
    ensures { (n : ℕ) (synced : Bool) (syncs : List ℕ) → AreSyncs n synced syncs → SyncingLaws n syncs }
{}

/// The files of a disk that is written out sector by sector.
pub fn example_files()
    ensures { ExampleFiles }
{}
