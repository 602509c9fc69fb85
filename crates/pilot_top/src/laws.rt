//! What the definitions say, as the contracts of functions that do nothing.
ghost use Rattle.std.specs.Prelude.{◌≡◌, ℕ, List};
ghost use Rattle.labelled_disk.specs.Layout.{IsCount};
ghost use Rattle.labelled_disk.specs.Right.{OnlyMaps};
ghost use Rattle.labelled_disk.specs.Root.{LabelsRight};
ghost use Rattle.labelled_disk.specs.Sectors.{Sector};
ghost use Rattle.flat_machine.specs.declared.call.Reply.{Reply};
ghost use Rattle.flat_machine.specs.Machine.{Machine};
ghost use Rattle.session_words.specs.StandsFor.{RevealsSettled};
ghost use Rattle.volume_root.specs.Sound.{Sound};
ghost use Rattle.scavenger.specs.Restored.{IsRestored};
ghost use Rattle.pilot_top.specs.Lasting.{WaitedForLasts};
ghost use Rattle.pilot_top.specs.Scavenging.{HasFilesOf};
ghost use Rattle.pilot_top.specs.Trial.{IsTrial};

/// Whatever then stands in both maps of a volume with right labels, a restoration gives it back
/// sound, with its files: with the machine's settled files, where a run left it.
pub fn lost_maps_are_restored()
    ensures files { (e g h : List Sector) → LabelsRight e → OnlyMaps e g → IsRestored g h
        → HasFilesOf e h }
    ensures run { (m : Machine) (e g h : List Sector) → RevealsSettled e m
        → OnlyMaps e g → IsRestored g h → Sound h × RevealsSettled h m }
{}

/// A trial gets one list of replies, so its line is a function of seed and number of calls, whatever the frames and the sectors.
pub fn trials_have_one_line()
    ensures { (n k seed calls : ℕ) (rs ss : List Reply) → IsCount n → IsCount k
        → IsTrial n seed calls rs → IsTrial k seed calls ss → rs ≡ ss }
{}

/// Of a run that answered `force`, `unmap`, `protect` to read-only or `close`: bytes that are forced from that line on are in each cut
/// from the sync on that was made for that line, after its last write and before any of a later line.
pub fn what_was_waited_for_is_in_cuts()
    ensures { WaitedForLasts }
{}
