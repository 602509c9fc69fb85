//! Laws of cuts, as the contracts of functions that do nothing.

ghost use Rattle.std.specs.Prelude.{ℕ, Bool, List};
ghost use Rattle.labelled_disk.specs.Syncing.{AreSyncs};
ghost use Rattle.cut_laws.specs.ChangeRows.{ApartAreChangesApart, ApartLater, ApartThen, ApartWhetherFailed};
ghost use Rattle.cut_laws.specs.ChangesApart.{ChangesApartAreOfOneCrashState};
ghost use Rattle.cut_laws.specs.Common.{CommonStays};
ghost use Rattle.cut_laws.specs.CutLaws.{CutLaws, WindowLaws};
ghost use Rattle.cut_laws.specs.Example.{ExampleCuts};
ghost use Rattle.cut_laws.specs.Honest.{CutsAreHonest};
ghost use Rattle.cut_laws.specs.LabelsApart.{LabelsApartAreChangesApart, LabelsApartThen, PagesAreApart};
ghost use Rattle.cut_laws.specs.LeaderWrites.{LeadersChangeByLabels};
ghost use Rattle.cut_laws.specs.Mixes.{MixLaws};
ghost use Rattle.cut_laws.specs.NewPages.{NewIsPlain, NewPagesAreOwn, PagesAreAddedAsZeros, PlainFreeStays};
ghost use Rattle.cut_laws.specs.OneCrashState.{OneChangeIsOneCrashState, ResizedIsOfOneCrashState};
ghost use Rattle.cut_laws.specs.OwnBytes.{OwnBytes};
ghost use Rattle.cut_laws.specs.OwnRuns.{OwnRunLaws};
ghost use Rattle.cut_laws.specs.ResizeLaws.{ResizedHasSizeBetween};
ghost use Rattle.cut_laws.specs.Restored.{RestoredKeepsFiles};
ghost use Rattle.cut_laws.specs.RootWrites.{RootIsWhole};
ghost use Rattle.cut_laws.specs.Roots.{FlagLaws};
ghost use Rattle.cut_laws.specs.SettledDisks.{DiskSyncLaws, SyncedHasNoOther};
ghost use Rattle.cut_laws.specs.Syncs.{SyncLaws};
ghost use Rattle.cut_laws.specs.ShapeLaws.{LeaderFreed, LeaderWritten, NoLabelWritten, ShapesOfOneCrashState};
ghost use Rattle.cut_laws.specs.SizeLaws.{PagesAreOwn, RightIsWhole, SizeOfOneCrashState};
ghost use Rattle.cut_laws.specs.StayLaws.{NoneAppears, OthersStayInCuts, PagesOfFile};

/// What a cut is: any part of the writes since the last sync.
pub fn cuts_are_parts_of_writes()
    ensures cuts { CutLaws }
    ensures windows { WindowLaws }
    ensures mixes { MixLaws }
    ensures syncs { (syncs : List ℕ) (k : ℕ) → SyncLaws syncs k }
{}

/// The cuts of a disk that reveals its writes and when it was settled.
pub fn cuts_of_a_disk()
    ensures syncs { (n : ℕ) (synced : Bool) (syncs : List ℕ) → AreSyncs n synced syncs → DiskSyncLaws n synced syncs }
    ensures synced { SyncedHasNoOther }
{}

/// A file that no write is of is in a cut as it was, and one that there is in no crash state is not in it.
pub fn others_stay_in_cuts()
    ensures stays { (with_temporary : Bool) → OthersStayInCuts with_temporary }
    ensures none { (with_temporary : Bool) → NoneAppears with_temporary }
    ensures pages { (with_temporary : Bool) → PagesOfFile with_temporary }
{}

/// The shape and the bytes in a cut of a file of which no label, or that of its leader alone, was written.
pub fn shapes_stay_in_cuts()
    ensures no_label { (with_temporary : Bool) → NoLabelWritten with_temporary }
    ensures marks { (with_temporary : Bool) → LeaderWritten with_temporary }
    ensures leaves { (with_temporary : Bool) → LeaderFreed with_temporary }
    ensures all { (with_temporary : Bool) → ShapesOfOneCrashState with_temporary }
{}

/// A file that is whole in each crash state, with one shape, has it in a cut, and its pages stood there.
pub fn common_stays_in_cuts()
    ensures { (with_temporary : Bool) → CommonStays with_temporary }
{}

/// Where one file alone changed since the last sync, in one of the forms in which calls change one, the files of a cut are
/// those of one crash state. So is one file that is there throughout, whatever becomes of the others.
pub fn one_change_is_of_one_crash_state()
    ensures files { (with_temporary : Bool) → OneChangeIsOneCrashState with_temporary }
    ensures one { (with_temporary : Bool) → ResizedIsOfOneCrashState with_temporary }
{}

/// Where a sync was made between each two changes of files, but those of one file's size, so are those of each cut.
pub fn changes_apart_are_of_one_crash_state()
    ensures { (with_temporary : Bool) → ChangesApartAreOfOneCrashState with_temporary }
{}

/// Changes that are apart, of the writes of one call and then of another.
pub fn changes_of_calls_are_apart()
    ensures apart { (with_temporary : Bool) → ApartAreChangesApart with_temporary }
    ensures rows { (with_temporary : Bool) → ApartThen with_temporary }
    ensures later { (with_temporary : Bool) → ApartLater with_temporary }
    ensures failed { (with_temporary : Bool) → ApartWhetherFailed with_temporary }
{}

/// Which writes change which permanent files there are, and that syncs around their labels are syncs between changes.
pub fn labels_apart_are_changes_apart()
    ensures leaders { LeadersChangeByLabels }
    ensures apart { LabelsApartAreChangesApart }
    ensures rows { LabelsApartThen }
    ensures pages { PagesAreApart }
{}

/// A page that a file got since the last sync is made of what stood in it since. Where it was added, zeros stood there
/// first.
pub fn new_pages_are_own()
    ensures fresh { NewIsPlain }
    ensures plain { PlainFreeStays }
    ensures own { (with_temporary : Bool) → NewPagesAreOwn with_temporary }
    ensures zeros { (with_temporary : Bool) → PagesAreAddedAsZeros with_temporary }
{}

/// Sectors that no file needs are freed, and root and maps are written: each cut has the files.
pub fn restored_keep_files_in_cuts()
    ensures { (with_temporary : Bool) → RestoredKeepsFiles with_temporary }
{}

/// The root, and its clean flag, in a cut.
pub fn root_in_cuts()
    ensures laws { FlagLaws }
    ensures written { RootIsWhole }
{}

/// A file has bytes of its own in a cut, where its sectors were no other's since the last sync.
pub fn own_bytes_in_cuts()
    ensures { (id : ℕ) → OwnBytes id }
{}

/// A run opens the volume and may close it, with a sync after the first write and before the last: each cut that says closed is
/// sound.
pub fn flag_is_honest_in_cuts()
    ensures { CutsAreHonest }
{}

/// A file that gets more pages, or fewer, has a size in a cut that it had in some crash state.
pub fn sizes_in_cuts()
    ensures size { (with_temporary : Bool) → SizeOfOneCrashState with_temporary }
    ensures pages { PagesAreOwn }
    ensures whole { (with_temporary : Bool) → RightIsWhole with_temporary }
    ensures resized { (with_temporary : Bool) → ResizedHasSizeBetween with_temporary }
{}

/// Cuts of disks that are written out: a root with the new flag and the old counter, and bytes of another file.
pub fn example_cuts()
    ensures { ExampleCuts }
{}

/// The label writes of one file among writes of all: its runs, said of each write.
pub fn runs_of_one_file()
    ensures { (id : ℕ) → OwnRunLaws id }
{}
