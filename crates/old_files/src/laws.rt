//! What the labels of an old volume say, as the contracts of functions that do nothing.
ghost use Rattle.std.specs.Prelude.{List};
ghost use Rattle.labelled_disk.specs.Sectors.{Sector};
ghost use Rattle.old_files.specs.Conversion.{CrashStatesBeforeRoot, RootIsOverwritten};
ghost use Rattle.old_files.specs.Placing.{OldLeadersAre, PlacedAreSettled};
ghost use Rattle.old_files.specs.Arranging.{SettledAreNeeded, SettledHasFiles, SpareCrashStates};
ghost use Rattle.old_files.specs.Reread.{RereadAsToday};
ghost use Rattle.old_files.specs.Laws.{OldFilesAreThose, OldFilesStay, LeadersMakeFiles};

/// The list of old files has what each identifier has, in ascending order.
pub fn old_files_are_listed()
    ensures { (d : List Sector) → OldFilesAreThose d }
{}

/// While sectors that no old file needs become free, or get leaders, all old files stay.
pub fn old_files_stay()
    ensures { OldFilesStay }
{}

/// Where each old file has its leader, and no page 0 is another's, the old files are the files of today.
pub fn leaders_make_files()
    ensures { LeadersMakeFiles }
{}

/// With the page before in each label, an old volume's labels need the same sectors as those of today.
pub fn old_labels_are_reread()
    ensures { RereadAsToday }
{}

/// In each crash state of the first writes of a conversion the old files stay; and where each has its leader, they are the files of today.
pub fn leaders_are_settled()
    ensures crash_states { SpareCrashStates }
    ensures files { SettledHasFiles }
    ensures needed { SettledAreNeeded }
{}

/// Before the last write of a conversion root and old files stay; and the last writes make the same of a disk that has another root.
pub fn conversions_go_one_way()
    ensures crash_states { CrashStatesBeforeRoot }
    ensures root { RootIsOverwritten }
{}

/// Leaders that are placed in the lowest sectors that no old file needs, one for each file.
pub fn placed_leaders_are_settled()
    ensures settled { PlacedAreSettled }
    ensures leaders { OldLeadersAre }
{}
