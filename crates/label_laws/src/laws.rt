//! Laws of labels and writes, as the contracts of functions that do nothing.

ghost use Rattle.std.specs.Prelude.{ℕ, Bool, List};
ghost use Rattle.label_laws.specs.AllPermanent.{NoTemporaryLaws, PermanentLaws, SeenByPermanent};
ghost use Rattle.label_laws.specs.AnyDisk.{AnyDiskLaws, LeaderAdded};
ghost use Rattle.label_laws.specs.Assembly.{RightByRoom};
ghost use Rattle.label_laws.specs.Counts.{CountLaws, TakenByFiles, UnneededListLaws};
ghost use Rattle.label_laws.specs.LabelWrites.{LabelLaterLaws, LabelWritesAppended};
ghost use Rattle.label_laws.specs.StayLaws.{StayLaws};
ghost use Rattle.label_laws.specs.TemporaryRuns.{TemporaryRunLaws};
ghost use Rattle.label_laws.specs.Quiet.{QuietAppended, QuietCrashStates};
ghost use Rattle.label_laws.specs.Shape.{LabelsGiveShape, MixedShapes, PagesBySectors, SameByPages};
ghost use Rattle.label_laws.specs.SoundParts.{SoundByParts, SoundByRoom, SoundWhenClosed};
ghost use Rattle.label_laws.specs.PermittedOrders.{OrdersArePermitted};
ghost use Rattle.label_laws.specs.PermittedRuns.{PermittedLaws, LaterLaws};
ghost use Rattle.label_laws.specs.PermittedThere.{ThereLaws};
ghost use Rattle.label_laws.specs.MapLabels.{MappedOneMore, MappedAreMaps, MapRelabelled};
ghost use Rattle.label_laws.specs.Marks.{MarksAreAdded, MarksOfFiles};
ghost use Rattle.label_laws.specs.Mixed.{LabelsByLabelWrites, LastPageShows, LastPageStands, PageStands, PageStays, SectorStays};
ghost use Rattle.label_laws.specs.MixedRuns.{LabelCountRises, MixedRunLaws};
ghost use Rattle.label_laws.specs.MixedVolumes.{MixedLaws};
ghost use Rattle.label_laws.specs.OneFile.{OthersStay, OthersStayInRuns};
ghost use Rattle.labelled_disk.specs.Sectors.{Sector};
ghost use Rattle.label_laws.specs.Unneeded.{FreedAll, FreedCrashStates, FreedStayRight, NeededIfFiles};
ghost use Rattle.label_laws.specs.Unseen.{UnseenAppended, UnseenCreation, UnseenCrashStates, UnseenOrders};

/// Permitted writes in a row, and states of a disk that are as permitted later.
pub fn permitted_runs()
    ensures rows { PermittedLaws }
    ensures states { LaterLaws }
    ensures orders { OrdersArePermitted }
    ensures there { ThereLaws }
{}

/// A permitted write changes the file of one identifier at most: that of the sector that it is made on.
pub fn permitted_writes_leave_others()
    ensures one { (with_temporary : Bool) → OthersStay with_temporary }
    ensures runs { (with_temporary : Bool) → OthersStayInRuns with_temporary }
{}

/// A label with a mark more.
pub fn marks_are_added()
    ensures labels { MarksAreAdded }
    ensures files { (with_temporary : Bool) (serial counter : ℕ) → MarksOfFiles with_temporary serial counter }
{}

/// What a write of root or maps, or of a page's bytes, makes of the files of any disk.
pub fn any_disk_keeps_files()
    ensures any { (with_temporary : Bool) → AnyDiskLaws with_temporary }
    ensures leader { (with_temporary : Bool) (serial counter : ℕ) → LeaderAdded with_temporary serial counter }
{}

/// Label writes mixed with writes of page bytes.
pub fn labels_by_label_writes()
    ensures labels { LabelsByLabelWrites }
    ensures sectors { SectorStays }
    ensures stands { (with_temporary : Bool) (serial counter : ℕ) → PageStands with_temporary serial counter }
    ensures stays { (with_temporary : Bool) (serial counter : ℕ) → PageStays with_temporary serial counter }
    ensures last { LastPageStands }
    ensures shows { (with_temporary : Bool) (serial counter : ℕ) → LastPageShows with_temporary serial counter }
    ensures volumes { (with_temporary : Bool) → MixedLaws with_temporary }
    ensures rises { LabelCountRises }
    ensures runs { (with_temporary : Bool) (serial counter : ℕ) → MixedRunLaws with_temporary serial counter }
{}

/// Writes in a row of a file that does not count.
pub fn unseen_runs()
    ensures rows { (with_temporary : Bool) (id : ℕ) → UnseenAppended with_temporary id }
    ensures crash_states { (with_temporary : Bool) (id serial counter : ℕ)
        → UnseenCrashStates with_temporary id serial counter }
    ensures orders { (with_temporary : Bool) (id : ℕ) → UnseenOrders with_temporary id }
    ensures creation { (id : ℕ) → UnseenCreation id }
    ensures quiet_rows { (with_temporary : Bool) (id : ℕ) → QuietAppended with_temporary id }
    ensures quiet { (with_temporary : Bool) (id serial counter : ℕ)
        → QuietCrashStates with_temporary id serial counter }
{}

/// Sectors that no file needs are freed.
pub fn unneeded_are_freed()
    ensures crash_states { (with_temporary : Bool) → FreedCrashStates with_temporary }
    ensures all { (with_temporary : Bool) → FreedAll with_temporary }
    ensures right { (with_temporary : Bool) → FreedStayRight with_temporary }
    ensures needed { (with_temporary : Bool) → NeededIfFiles with_temporary }
{}

/// The labels of both maps.
pub fn map_labels()
    ensures sectors { (n : ℕ) (d : List Sector) → MappedAreMaps n d }
    ensures one_more { MappedOneMore }
    ensures written { (with_temporary : Bool) → MapRelabelled with_temporary }
{}

/// What labels alone say of the files of a disk.
pub fn labels_give_shape()
    ensures labels { (with_temporary : Bool) → LabelsGiveShape with_temporary }
    ensures mixed { (with_temporary : Bool) → MixedShapes with_temporary }
    ensures files { SameByPages }
    ensures pages { (with_temporary : Bool) → PagesBySectors with_temporary }
{}

/// The labels of a disk that was put in order are right exactly where there is room for its files.
pub fn right_by_room()
    ensures { (with_temporary : Bool) → RightByRoom with_temporary }
{}

/// What is sound but for its clean flag is sound exactly where the flag is set, and is so with a clean root.
pub fn sound_when_closed()
    ensures closed { SoundWhenClosed }
    ensures parts { SoundByParts }
    ensures by_room { SoundByRoom }
{}

/// The permanent files, and all files.
pub fn permanent_files()
    ensures permanent { PermanentLaws }
    ensures seen { SeenByPermanent }
    ensures no_temporary { NoTemporaryLaws }
{}

/// The label writes among the writes of calls in a row.
pub fn label_writes_in_a_row()
    ensures rows { LabelWritesAppended }
    ensures states { LabelLaterLaws }
{}

/// A temporary file is made, lengthened, shortened and removed, and the permanent files stay.
pub fn temporary_runs_are_unseen()
    ensures { (serial counter : ℕ) → TemporaryRunLaws serial counter }
{}

/// What is counted of a disk that is put in order.
pub fn needed_sectors_are_counted()
    ensures lists { (with_temporary : Bool) → UnneededListLaws with_temporary }
    ensures counts { (with_temporary : Bool) → CountLaws with_temporary }
    ensures taken { (with_temporary : Bool) → TakenByFiles with_temporary }
{}

/// Runs of label writes that keep the permanent files, and right labels, in each crash state.
pub fn permanent_files_stay()
    ensures { StayLaws }
{}
