//! What the definitions of the machine say, shown on functions that do nothing.

ghost use Rattle.flat_machine.specs.Laws.{SomeReplyIsAllowed, RefusedChangesNothing, TranscriptBegins, TranscriptGrows, AfterGrows};
ghost use Rattle.flat_machine.specs.Form.{IsTyped};
ghost use Rattle.flat_machine.specs.Rows.{WorkedRows};
ghost use Rattle.flat_machine.specs.MoreRows.{MoreRows};
ghost use Rattle.flat_machine.specs.Laws.{OpenedIsMachine, StartAgrees, ProjectionIsUnique, LowestGapIsLeast, LowestUnusedIsLeast};
ghost use Rattle.flat_machine.specs.Laws.{NextKeepsMachine, AfterIsMachine, StartIsMachine, UnitHoldsItsPage, ProjectionCovers};
ghost use Rattle.flat_machine.specs.Laws.{ProjectionExists, SharingIsOnePath, ReferenceTouches, ShownIsThere, ForcedIsSettled, SectorStateFilesAgree};
ghost use Rattle.flat_machine.specs.Laws.{RepliesAreLines, TranscriptsCount};
ghost use Rattle.flat_machine.specs.SpaceLaws.{InnermostIsOne, LeastIsLeast, LowestHandleIsLowest};
ghost use Rattle.flat_machine.specs.SettledLaws.{SettledByIdentifier, SettledByPage};
ghost use Rattle.flat_machine.specs.References.{TouchedAreShown};
ghost use Rattle.flat_machine.specs.StoreLaws.{StoredIsShown, StoredIsLoaded};
ghost use Rattle.flat_machine.specs.PageLaws.{CreatedPages, DeletedPages, SizedPages, KilledPages, StoredPages, StoredCells};

use crate::Call;

/// Every call has an allowed reply.
pub fn some_reply_is_allowed()
    ensures { SomeReplyIsAllowed }
{}

/// A refused call leaves the machine as it is.
pub fn refused_changes_nothing()
    ensures { RefusedChangesNothing }
{}

/// A transcript grows by an allowed reply to the next line.
pub fn transcript_grows()
    ensures begins { TranscriptBegins }
    ensures grows { TranscriptGrows }
    ensures after { AfterGrows }
{}

/// Each reply is one line, so the bytes of a transcript fix the number of its replies.
pub fn replies_are_lines()
    ensures lines { RepliesAreLines }
    ensures count { TranscriptsCount }
{}

/// A volume without files is a machine.
pub fn opened_is_machine()
    ensures { OpenedIsMachine }
{}

/// A disk's own files are the settled files of the machine that it starts.
pub fn start_agrees()
    ensures { StartAgrees }
{}

/// Spaces have exactly one projection, and it covers the root.
pub fn projection_is_one()
    ensures exists { ProjectionExists }
    ensures unique { ProjectionIsUnique }
    ensures covers { ProjectionCovers }
{}

/// The worked rows come out as they are written.
pub fn worked_rows()
    ensures rows { WorkedRows }
    ensures more { MoreRows }
{}

/// A new space stands as low as it can, and has the least handle; a refusal names the lowest
/// handle.
pub fn lowest_is_least()
    ensures gap { LowestGapIsLeast }
    ensures handle { LowestUnusedIsLeast }
    ensures number { LeastIsLeast }
    ensures named { LowestHandleIsLowest }
{}

/// Each page of the root has exactly one innermost space.
pub fn innermost_is_one()
    ensures { InnermostIsOne }
{}

/// What a call does to one page of the files, and that all others stay.
pub fn pages_change()
    ensures created { CreatedPages }
    ensures deleted { DeletedPages }
    ensures sized { SizedPages }
    ensures killed { KilledPages }
    ensures stored { StoredPages }
    ensures cells { StoredCells }
{}

/// What is stored is what a load after it replies.
pub fn stored_is_loaded()
    ensures shown { StoredIsShown }
    ensures loaded { StoredIsLoaded }
{}

/// What holds of every machine holds after every call.
pub fn next_keeps_machine()
    ensures next { NextKeepsMachine }
    ensures after { AfterIsMachine }
{}

/// A disk with right labels starts a machine.
pub fn start_is_machine()
    ensures { StartIsMachine }
{}

/// A swap unit lies in its span, and holds its page.
pub fn unit_holds_its_page()
    ensures { UnitHoldsItsPage }
{}

/// To share a page is to lie on one path from the root.
pub fn sharing_is_one_path()
    ensures { SharingIsOnePath }
{}

/// A reference touches two pages at most; where it is not refused, a window shows each.
pub fn reference_touches()
    ensures pages { ReferenceTouches }
    ensures shown { TouchedAreShown }
{}

/// A page that is shown is one of its file.
pub fn shown_is_there()
    ensures { ShownIsThere }
{}

/// After forcing everything, the settled files are the permanent ones; and files that stand for
/// the machine's agree with the settled ones. A settled file is one of the machine's, page by page.
pub fn settled_files()
    ensures forced { ForcedIsSettled }
    ensures sector_state { SectorStateFilesAgree }
    ensures file { SettledByIdentifier }
    ensures page { SettledByPage }
{}

/// The numbers of every call fit their types.
pub fn every_call_is_typed(call: &Call)
    ensures { IsTyped call.now }
{
    match call {
        Call::Create { kind, .. } => {
            let _kind = *kind;
        }
        Call::Store { bytes, .. } => {
            bytes.as_slice();
        }
        _ => {}
    }
}
