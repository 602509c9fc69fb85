//! The pages of the space tables, which a session makes at its start and frees at its close.
ghost use Rattle.std.specs.Prelude.{◌≡◌, ℕ, ◌+◌, ◌*◌, ◌≤◌, ◌==◌, not, List, [], filter, IfErr, OnOk, Err, None, ◌<◌, MatchResult};
ghost use Rattle.labelled_disk.specs.declared.evidence.Halt.TheVariants as halt;
ghost use Rattle.labelled_disk.specs.Sectors.{Sector, AreSectors};
ghost use Rattle.frame_pool.specs.Frames.{Frame, Has, IsWithin};
ghost use Rattle.file_map.specs.FileMap.{Triples, most_records};
ghost use Rattle.flat_machine.specs.declared.space.Space.{Space};
ghost use Rattle.label_calls.specs.Own.{RelabelsOwn};
ghost use Rattle.swapper_kernel.specs.Differs.{Differs, of_run};
ghost use Rattle.swapper_kernel.specs.Goes.{no_page};
ghost use Rattle.session_words.specs.Parts.{Shapes};
ghost use Rattle.file_manager.specs.Grounds.{AreTables, CreateHalts, CutFileHalts, IsUnframed, MakeHalts};
ghost use Rattle.filer_kernel.specs.Cached.{runs_of};
ghost use Rattle.file_manager.specs.Book.{Books};
ghost use Rattle.file_manager.specs.Freeing.{MakesFree, MakesSomeFree};
ghost use Rattle.file_manager.specs.Making.{MakesAll, MakesSome};
ghost use Rattle.file_manager.specs.Tables.{MayBegin, BegunBy, EndedBy, EndedSome};
ghost use Rattle.file_manager.specs.Reasons.{Keeps, KeepsBare, KeepsOn, KeepsRevealed, MissesNone, NamesTables, InitialState, ShowsReason, telling};
ghost use Rattle.file_manager.specs.Taking.{NamesNoneOf};
ghost use Rattle.filer_kernel.specs.View.{disk_of, FitsLayout, GoesTo, HasMemory, kept_by, view_of};
ghost use Rattle.file_manager.specs.Stays.{RunsStay, KeepsRoot, KeepsRootAndRuns};
ghost use Rattle.filer_kernel.specs.Fails.{Fails};

use crate::growth::{frames_of, make_run};
use crate::release::free_up;
use filer_kernel::Filer;
use force_calls::discard;
use labelled_disk::{Disk, Halt, TABLE_PAGES, TABLES};
use std::alloc::Allocator;

// Makes these pages in free data sectors, where the file map names none of them.
fn make_pages<D: Disk, A: Allocator>(filer: &mut Filer<D, A>) -> Result<(), Halt>
    requires size { FitsLayout (view_of filer.old) }
    ensures made { (x : List Sector) (shapes : Shapes) (spaces : List Space)
        → MayBegin (view_of filer.old).disk (view_of filer.old).slots (view_of filer.old).layout
        (view_of filer.old).runs shapes spaces x
        → MatchResult result
        (λ _.
        BegunBy (view_of filer.old).disk (view_of filer.old).slots (view_of filer.old).layout (view_of filer.new).disk
        (view_of filer.new).slots (view_of filer.new).runs)
        (λ e. e ≡ halt.Disk) }
    ensures writes { MatchResult result
        (λ _.
        MakesAll 3 0 0 96 (view_of filer.old).disk (view_of filer.old).slots (view_of filer.new).disk
        (view_of filer.new).slots)
        (λ _.
        MakesSome 3 0 0 96 (view_of filer.old).disk (view_of filer.old).slots (view_of filer.new).disk
        (view_of filer.new).slots) }
    ensures fails { IfErr result
        (Fails
        (MakeHalts (view_of filer.old).layout 3 (λ p. p < 96) (λ p. p < 96) (view_of filer.old).disk
        (view_of filer.old).slots (view_of filer.new).disk (view_of filer.new).slots)
        (view_of filer.old) (view_of filer.new)) }
    ensures accounts { (o : InitialState) (named : Triples) → Keeps o filer.old named → o.tables ≡ None
        → NamesNoneOf 3 (λ p. p < 96) named
        → MatchResult result (λ _. KeepsOn o filer.new)
        (ShowsReason o (view_of filer.old).layout (view_of filer.new).disk) }
    ensures tables { (o : InitialState) (named : Triples) → Keeps (telling o []) filer.old named
        → NamesNoneOf 3 (λ p. p < 96) named → OnOk result (KeepsRevealed o filer.new) }
    ensures stays { KeepsRootAndRuns (view_of filer.old) (view_of filer.new) }
    ensures cost { (view_of filer.new).disk.transfers ≤ (view_of filer.old).disk.transfers + 96
        * (8 * (view_of filer.old).layout.vam + 100) }
{
    let mut page = 0;
    while page < TABLE_PAGES {
        match make_run(filer, TABLES, 0, page, TABLE_PAGES - page, false) {
            Ok(run) => page += run.pages,
            Err(halt) => return Err(halt),
        }
    }
    Ok(())
}

/// Makes the pages of the space tables, in free data sectors: zeros, with labels of file 3, and in the file map. What
/// that might have of file 3 goes first.
pub fn make_tables<D: Disk, A: Allocator>(filer: &mut Filer<D, A>) -> Result<(), Halt>
    requires size { FitsLayout (view_of filer.old) }
    ensures made { (x : List Sector) (shapes : Shapes) (spaces : List Space)
        → MayBegin (view_of filer.old).disk (view_of filer.old).slots (view_of filer.old).layout
        (view_of filer.old).runs shapes spaces x
        → MatchResult result
        (λ _.
        BegunBy (view_of filer.old).disk (view_of filer.old).slots (view_of filer.old).layout (view_of filer.new).disk
        (view_of filer.new).slots (view_of filer.new).runs)
        (λ e. e ≡ halt.Disk) }
    ensures writes { MatchResult result
        (λ _.
        MakesAll 3 0 0 96 (view_of filer.old).disk (view_of filer.old).slots (view_of filer.new).disk
        (view_of filer.new).slots)
        (λ _.
        MakesSome 3 0 0 96 (view_of filer.old).disk (view_of filer.old).slots (view_of filer.new).disk
        (view_of filer.new).slots) }
    ensures fails { IfErr result
        (Fails
        (CreateHalts (view_of filer.old).layout 3 (λ p. p < 96) (view_of filer.old).disk (view_of filer.old).slots
        (view_of filer.new).disk (view_of filer.new).slots)
        (view_of filer.old) (view_of filer.new)) }
    ensures accounts { (o : InitialState) (named : Triples) → Keeps o filer.old named
        → IsUnframed (view_of filer.old).slots 3 → o.tables ≡ None
        → MatchResult result (λ _. KeepsOn o filer.new)
        (ShowsReason o (view_of filer.old).layout (view_of filer.new).disk) }
    ensures tables { (o : InitialState) (named : Triples) → Keeps (telling o []) filer.old named
        → IsUnframed (view_of filer.old).slots 3 → OnOk result (KeepsRevealed o filer.new) }
    ensures stays { KeepsRoot (view_of filer.old) (view_of filer.new) }
    ensures runs { (n : ℕ)
        → runs_of n (view_of filer.new).runs ≡ filter (λ r. not (r.id == 3)) (runs_of n (view_of filer.old).runs) }
    ensures cost { (view_of filer.new).disk.transfers ≤ (view_of filer.old).disk.transfers
        + (2 * (1 + 51 * most_records (view_of filer.old).layout.sectors) + 96
        * (8 * (view_of filer.old).layout.vam + 100)) }
{
    match filer.cut(TABLES, 0) {
        Ok(()) => (),
        Err(halt) => return Err(halt),
    }
    frames_of(filer);
    match make_pages(filer) {
        Ok(()) => (),
        Err(halt) => return Err(halt),
    }
    Ok(())
}

// Gives up the frames of the pages of the space tables, dirty or not: these pages are what the disk has.
fn discard_tables<D: Disk, A: Allocator>(filer: &mut Filer<D, A>)
    ensures gone { (i : ℕ) (f : Frame) → Has (view_of filer.new).slots i f → IsWithin 3 0 96 f.home → ⊥ }
    ensures left { (i : ℕ) (f : Frame) → Has (view_of filer.new).slots i f → Has (view_of filer.old).slots i f }
    ensures goes { GoesTo (Differs (of_run 3 0 96)) no_page [] (view_of filer.old) (view_of filer.new) }
    ensures form { (m : List Sector) → HasMemory (view_of filer.new) m → AreSectors m }
    ensures disk { (disk_of filer.new) ≡ (disk_of filer.old) }
    ensures stays { RunsStay (view_of filer.old) (view_of filer.new) }
{
    let swapper = filer.swapper_over();
    discard(swapper, TABLES, 0, TABLE_PAGES);
    frames_of(filer);
}

/// Frees the pages of the space tables, from page 0 up, and takes them out of the file map. Their frames are given up, and
/// nothing of them is written.
pub fn free_tables<D: Disk, A: Allocator>(filer: &mut Filer<D, A>) -> Result<(), Halt>
    requires size { FitsLayout (view_of filer.old) }
    ensures freed { (x : List Sector) (shapes : Shapes) (spaces : List Space)
        → Books (view_of filer.old).disk (view_of filer.old).slots (view_of filer.old).layout (view_of filer.old).runs
        shapes spaces x
        → MatchResult result
        (λ _.
        EndedBy x (view_of filer.old).disk (view_of filer.old).slots (view_of filer.old).layout (view_of filer.new).disk
        (view_of filer.new).slots (view_of filer.new).runs)
        (λ e.
        (e ≡ halt.Disk)
        × EndedSome x (view_of filer.old).disk (view_of filer.old).slots (view_of filer.new).disk
        (view_of filer.new).slots) }
    ensures writes { MatchResult result
        (λ _.
        MakesFree 96 (view_of filer.old).disk (view_of filer.old).slots (view_of filer.new).disk
        (view_of filer.new).slots)
        (λ _.
        MakesSomeFree (view_of filer.old).disk (view_of filer.old).slots (view_of filer.new).disk
        (view_of filer.new).slots) }
    ensures fails { IfErr result
        (Fails
        (CutFileHalts (AreTables (view_of filer.old).slots) (view_of filer.old).layout (kept_by (view_of filer.old)) 3 0
        (λ page. page < 96) (view_of filer.old).disk (view_of filer.old).slots (view_of filer.new).disk)
        (view_of filer.old) (view_of filer.new)) }
    ensures accounts { (o : InitialState) (named : Triples) → Keeps o filer.old named → o.tables ≡ None
        → MatchResult result (λ _. KeepsBare o filer.new)
        (λ e. NamesTables named → ShowsReason o (view_of filer.old).layout (view_of filer.new).disk e × MissesNone e) }
    ensures stays { KeepsRoot (view_of filer.old) (view_of filer.new) }
    ensures cost { (view_of filer.new).disk.transfers ≤ (view_of filer.old).disk.transfers
        + (96 * (16 + 4 * (view_of filer.old).layout.vam) + 2
        * (1 + 51 * most_records (view_of filer.old).layout.sectors)) }
    ensures own { RelabelsOwn 3 (view_of filer.old).disk (view_of filer.new).disk }
{
    discard_tables(filer);
    match free_up(filer, TABLES, 0, TABLE_PAGES) {
        Ok(()) => (),
        Err(halt) => return Err(halt),
    }
    match filer.cut(TABLES, 0) {
        Ok(()) => (),
        Err(halt) => return Err(halt),
    }
    frames_of(filer);
    Ok(())
}
