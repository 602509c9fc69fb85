//! The leader of a file, with its label, and how many pages the file has.
ghost use Rattle.std.specs.Prelude.{◌≡◌, ℕ, ◌+◌, ◌≤◌, ◌<◌, true, List, Ok, None, IfOk, IfErr, OnOk, IfSome, MatchResult};
ghost use Rattle.labelled_disk.specs.Label.{leader_page, is_permanent, names};
ghost use Rattle.labelled_disk.specs.Sectors.{Sector};
ghost use Rattle.labelled_disk.specs.State.{HasLabel};
ghost use Rattle.labelled_disk.specs.declared.evidence.Halt.TheVariants as halt;
ghost use Rattle.flat_machine.specs.declared.space.Space.{Space};
ghost use Rattle.swapper_kernel.specs.Halts.{HasCause};
ghost use Rattle.swapper_kernel.specs.Stands.{labels_of};
ghost use Rattle.label_calls.specs.Labels.{HasOne, IsNotOf, ones_of};
ghost use Rattle.session_words.specs.Parts.{Shapes};
ghost use Rattle.file_manager.specs.Grounds.{MakesFor};
ghost use Rattle.file_manager.specs.Taking.{no_page_of};
ghost use Rattle.filer_kernel.specs.Evidence.{MayBeIn, ShowsEvidence};
ghost use Rattle.filer_kernel.specs.Triples.{MapIs, AreOf};
ghost use Rattle.file_map.specs.FileMap.{Triples, IsSize};
ghost use Rattle.file_manager.specs.Finding.{IsFoundFile, FileHalts};
ghost use Rattle.file_manager.specs.Book.{BooksUpto};
ghost use Rattle.file_manager.specs.Causes.{NamesNone};
ghost use Rattle.file_manager.specs.Reasons.{Keeps, InitialState, ShowsReason};
ghost use Rattle.file_manager.specs.Synced.{SyncsQuietly};
ghost use Rattle.filer_kernel.specs.View.{FitsLayout, HasMemory, kept_by, view_of};
ghost use Rattle.file_manager.specs.Stays.{ReadsAlone, Searches};
ghost use Rattle.filer_kernel.specs.Fails.{Fails};

use crate::leader::leader_of;
use crate::syncing::sync_disk;
use filer_kernel::Filer;
use label_calls::read_label;
use labelled_disk::{Disk, Evidence, FileId, Halt, LEADER, Label, Wanted};
use std::alloc::Allocator;

// A file, as its leader and the file map reveal it.
#[derive(Clone, Copy)]
pub(crate) struct FoundFile {
    // The sector of the leader.
    pub sector: u32,
    pub leader: Label,
    pub pages: u32,
}

// The label of the leader of a file, which stands in this sector.
fn read_leader<D: Disk, A: Allocator>(
    filer: &mut Filer<D, A>,
    id: FileId,
    sector: u32,
) -> Result<Label, Halt>
    requires inside { sector < (view_of filer.old).disk.sectors }
    ensures found { IfOk result
        (λ label.
        HasLabel (view_of filer.old).disk sector label
        × (names label (record { id = id; page = leader_page }) ≡ true)) }
    ensures sound { (m : List Sector) → HasMemory (view_of filer.old) m
        → HasOne (ones_of (record { id = id; page = leader_page })) m sector → IfErr result (λ e. e ≡ halt.Disk) }
    ensures cause { IfErr result
        (HasCause (IsNotOf sector (record { id = id; page = leader_page }) (view_of filer.old).disk)
        (view_of filer.old).disk (view_of filer.new).disk) }
    ensures keeps_to { (o : InitialState) (named : Triples) → Keeps o filer.old named
        → OnOk result (Keeps o filer.new named) }
    ensures reasons { (o : InitialState) (named : Triples) → Keeps o filer.old named
        → named id leader_page sector ≡ true
        → IfErr result (ShowsReason o (view_of filer.old).layout (view_of filer.new).disk) }
    ensures evidence_seen { MayBeIn (view_of filer.old).disk.sectors sector (record { id = id; page = leader_page })
        → IfErr result (ShowsEvidence (view_of filer.new).disk) }
    ensures stays { ReadsAlone (view_of filer.old) (view_of filer.new) }
    ensures cost { (view_of filer.new).disk.transfers ≤ (view_of filer.old).disk.transfers + 1 }
{
    let wanted = Wanted { id, page: LEADER };
    let swapper = filer.swapper_over();
    let found = match read_label(swapper, sector) {
        Ok(found) => found,
        Err(halt) => return Err(halt),
    };
    if !found.names(wanted) {
        return Err(Halt::Damaged(Evidence::Mismatch {
            sector,
            wanted,
            found,
        }));
    }
    Ok(found)
}

// The same. Where the file is permanent, all that was written is on the medium, if it is to be.
fn leader_label<D: Disk, A: Allocator>(
    filer: &mut Filer<D, A>,
    id: FileId,
    sector: u32,
    syncs: bool,
) -> Result<Label, Halt>
    requires inside { sector < (view_of filer.old).disk.sectors }
    ensures found { IfOk result
        (λ label.
        HasLabel (view_of filer.old).disk sector label
        × (names label (record { id = id; page = leader_page }) ≡ true)) }
    ensures sound { (m : List Sector) → HasMemory (view_of filer.old) m
        → HasOne (ones_of (record { id = id; page = leader_page })) m sector → IfErr result (λ e. e ≡ halt.Disk) }
    ensures cause { IfErr result
        (HasCause (IsNotOf sector (record { id = id; page = leader_page }) (view_of filer.old).disk)
        (view_of filer.old).disk (view_of filer.new).disk) }
    ensures keeps_to { (o : InitialState) (named : Triples) → Keeps o filer.old named
        → OnOk result (Keeps o filer.new named) }
    ensures reasons { (o : InitialState) (named : Triples) → Keeps o filer.old named
        → named id leader_page sector ≡ true
        → IfErr result (ShowsReason o (view_of filer.old).layout (view_of filer.new).disk) }
    ensures evidence_seen { MayBeIn (view_of filer.old).disk.sectors sector (record { id = id; page = leader_page })
        → IfErr result (ShowsEvidence (view_of filer.new).disk) }
    ensures stays { ReadsAlone (view_of filer.old) (view_of filer.new) }
    ensures cost { (view_of filer.new).disk.transfers ≤ (view_of filer.old).disk.transfers + 1 }
    ensures synced { syncs ≡ true
        → IfOk result
        (λ label. is_permanent label ≡ true → SyncsQuietly (view_of filer.old).disk (view_of filer.new).disk) }
{
    let found = match read_leader(filer, id, sector) {
        Ok(found) => found,
        Err(halt) => return Err(halt),
    };
    if !syncs {
        return Ok(found);
    }
    if !found.marks().permanent {
        return Ok(found);
    }
    match sync_disk(filer) {
        Ok(()) => Ok(found),
        Err(halt) => Err(halt),
    }
}

// A file, or none where the file map has no leader of it. Where the file is permanent, all that was written before is on the
// medium, if it is to be.
pub(crate) fn find_file<D: Disk, A: Allocator>(
    filer: &mut Filer<D, A>,
    id: FileId,
    syncs: bool,
) -> Result<Option<FoundFile>, Halt>
    requires size { FitsLayout (view_of filer.old) }
    requires client { 16 ≤ id }
    ensures revealed { (tables : ℕ) (x : List Sector) (shapes : Shapes) (spaces : List Space)
        → BooksUpto tables (view_of filer.old).disk (view_of filer.old).slots (view_of filer.old).layout
        (view_of filer.old).runs shapes spaces x
        → MatchResult result (IsFoundFile (labels_of x) shapes id) (λ e. e ≡ halt.Disk)
        × BooksUpto tables (view_of filer.new).disk (view_of filer.new).slots (view_of filer.old).layout
        (view_of filer.new).runs shapes spaces x }
    ensures found { IfOk result
        (λ found.
        IfSome found
        (λ file. ((view_of filer.old).layout.first ≤ file.sector) × (file.sector < (view_of filer.old).layout.sectors))
        × IfSome found
        (λ file.
        HasLabel (view_of filer.new).disk file.sector file.leader
        × (names file.leader (record { id = id; page = leader_page }) ≡ true))) }
    ensures named { (m : List Sector) (named : Triples) → HasMemory (view_of filer.old) m
        → MapIs (view_of filer.old).layout named m
        → IfOk result
        (λ found.
        IfSome found (λ file. IsSize named id file.pages)
        × (AreOf named (kept_by (view_of filer.old))
        → IfSome found (λ file. named id leader_page file.sector ≡ true))) }
    ensures missing { result ≡ Ok None
        → NamesNone (view_of filer.old).layout (view_of filer.old).disk (view_of filer.old).slots id leader_page }
    ensures stays { Searches id (view_of filer.old) (view_of filer.new) }
    ensures takes { OnOk result
        (MakesFor (view_of filer.old).layout id no_page_of (view_of filer.old).disk (view_of filer.old).slots
        (view_of filer.new).disk (view_of filer.new).slots) }
    ensures fails { IfErr result
        (Fails
        (FileHalts (view_of filer.old).layout (kept_by (view_of filer.old)) id (view_of filer.old).disk
        (view_of filer.old).slots (view_of filer.new).disk)
        (view_of filer.old) (view_of filer.new)) }
    ensures accounts { (o : InitialState) (named : Triples) → Keeps o filer.old named
        → MatchResult result (λ _. Keeps o filer.new named)
        (ShowsReason o (view_of filer.old).layout (view_of filer.new).disk) }
    ensures cost { (view_of filer.new).disk.transfers ≤ (view_of filer.old).disk.transfers + 29 }
    ensures synced { syncs ≡ true
        → IfOk result
        (λ found.
        IfSome found
        (λ file. is_permanent file.leader ≡ true → SyncsQuietly (view_of filer.old).disk (view_of filer.new).disk)) }
{
    let sector = match leader_of(filer, id) {
        Ok(Some(sector)) => sector,
        Ok(None) => return Ok(None),
        Err(halt) => return Err(halt),
    };
    let leader = match leader_label(filer, id, sector, syncs) {
        Ok(leader) => leader,
        Err(halt) => return Err(halt),
    };
    match filer.size(id) {
        Ok(pages) => Ok(Some(FoundFile {
            sector,
            leader,
            pages,
        })),
        Err(halt) => Err(halt),
    }
}
