//! The tables.
ghost use Rattle.std.specs.Prelude.{◌≡◌, ℕ, ◌+◌, ◌*◌, ◌<◌, ◌≤◌, ◌↔◌, ◌⊎◌, true, List, [], ◌∷◌, Option, Some, None, IfOk, IfErr, IfSome, OnOk, MatchResult, option_map};
ghost use Rattle.flat_machine.specs.declared.space.Space.{Space};
ghost use Rattle.flat_machine.specs.Space.{root, root_pages, space_at, innermost};
ghost use Rattle.flat_machine.specs.Refusal.{first_of, past_root};
ghost use Rattle.flat_machine.specs.Next.{put_space, without_space, change_space, set_window};
ghost use Rattle.projection_laws.specs.Spaces.{MayHaveWindow};
ghost use Rattle.projection_laws.specs.Laws.{WindowFits};
ghost use Rattle.projection_laws.specs.Tests.{no_space, add_row, made, remove_row, unit_row, map_row, window_row};
ghost use Rattle.space_tables.specs.Form.{in_form, lies_in_root, first_in_slot, IsRecorded, Breaks, BreaksSlot, BreaksHierarchy, BreaksLookUp, BreaksFor, BreaksAt, MakesTooMany};
ghost use Rattle.swap_units.specs.Unit.{has_page};
ghost use Rattle.space_tables.specs.Shows.{window_of, shows, IsFirstWith, IsShownAt, IsRunAt};
ghost use Rattle.space_tables.specs.Answer.{FromMemory, NotRefused, IfMem, IfMalformed, Answers, Replies};
ghost use Rattle.space_tables.specs.Looks.{Looks};
ghost use Rattle.space_tables.specs.Stored.{RevealSpaces};

use crate::add::add;
use crate::ask::{existing, place, unmapped};
use crate::begin::begin;
use crate::remove::remove;
use crate::set::{set_unit, set_window};
use crate::show::showing;
use crate::shown::{Shown, shown_in, window_in};
use crate::{SpaceError, projection};
use flat_machine::Refusal;
use flat_mem::FlatMem;
use labelled_disk::FileId;
use swap_units::{Interval, ROOT_PAGES};

/// The spaces and their projection in the first 96 pages of a memory.
#[derive(Drop)]
pub struct SpaceTables<M: FlatMem> {
    mem: M,
    intervals: u32,
    ghost size: { 49152 ≤ M.size mem },
    ghost some: { 1 ≤ intervals },
    ghost few: { intervals ≤ 1023 },
}

impl<M: FlatMem + Drop> SpaceTables<M> {
    ghost use Rattle.space_tables.specs.SpaceTables.{tables_memory, interval_count, Reveals};

    /// The tables of the root alone, over any bytes.
    pub fn begin(mem: M) -> Result<SpaceTables<M>, SpaceError<M::Error>>
        requires size { 49152 ≤ M.size mem }
        ensures begun { (b : List ℕ) → M.reveals mem b → IfOk result (λ t. Reveals t (root ∷ [])) }
        ensures cause { IfErr result
            (λ why. (m : M) × M.beside mem m × FromMemory why × IfMem (M.accounted mem m) why) }
        ensures kept { IfOk result (λ t. M.beside mem (tables_memory t)) }
        ensures count { IfOk result (λ t. interval_count t ≡ 1) }
        ensures cost { IfOk result (λ t. M.spent (tables_memory t) ≤ M.spent mem + 514 * M.cost) }
    {
        let mut mem = mem;
        begin(&mut mem)?;
        Ok(SpaceTables { mem, intervals: 1 })
    }
}

impl<M: FlatMem> SpaceTables<M> {
    ghost use Rattle.space_tables.specs.SpaceTables.{tables_memory, interval_count, Reveals, IsIntervalAt};

    /// Writes the tables of the root alone, with one interval, over any bytes of a memory, which is used on afterwards, whether that
    /// was done or the memory failed.
    pub fn begin_in(mem: &mut M) -> Result<(), SpaceError<M::Error>>
        requires size { 49152 ≤ M.size mem.old }
        ensures begun { (b : List ℕ) → M.reveals mem.old b
            → OnOk result (RevealSpaces (M.reveals mem.new) 1 (root ∷ [])) }
        ensures memory { IfErr result FromMemory }
        ensures cause { IfErr result (IfMem (M.accounted mem.old mem.new)) }
        ensures kept { M.beside mem.old mem.new }
        ensures cost { M.spent mem.new ≤ M.spent mem.old + 514 * M.cost }
    {
        begin(mem)
    }

    /// The tables that stand in a memory, with so many intervals.
    pub fn over(mem: M, intervals: u32) -> SpaceTables<M>
        requires size { 49152 ≤ M.size mem }
        requires some { 1 ≤ intervals }
        requires few { intervals ≤ 1023 }
        ensures memory { tables_memory result ≡ mem }
        ensures intervals { interval_count result ≡ intervals }
    {
        SpaceTables { mem, intervals }
    }

    /// How many intervals the projection has, 1 to 1,023.
    pub fn intervals(&self) -> u32
        ensures count { result ≡ interval_count self.now }
        ensures form { (1 ≤ result) × (result ≤ 1023) }
    {
        self.intervals
    }

    /// The interval that holds a page, or None where the page is not one of the root.
    pub fn describe(&mut self, page: u32) -> Result<Option<Interval>, SpaceError<M::Error>>
        ensures interval { (ss : List Space) → Reveals self.old ss
            → IfOk result (λ o. IfSome o (IsIntervalAt ss page)) }
        ensures right { (ss : List Space) → Reveals self.old ss → IfErr result FromMemory }
        ensures none { IfOk result (λ o. (o ≡ None) ↔ (root_pages ≤ page)) }
        ensures form { IfOk result (λ o. IfSome o (λ x. (in_form x ≡ true) × (has_page page x ≡ true))) }
        ensures read { (b : List ℕ) → M.reveals (tables_memory self.old) b
            → IfOk result (λ o. IfSome o (IsRecorded (interval_count self.old) b)) }
        ensures malformed { (b : List ℕ) → M.reveals (tables_memory self.old) b
            → IfErr result (IfMalformed (BreaksLookUp page (interval_count self.old) b)) }
        ensures refused { IfErr result NotRefused }
        ensures looks { Looks M.FlatMem (7 * M.cost) (tables_memory self.old) (tables_memory self.new) result }
        ensures count { interval_count self.new ≡ interval_count self.old }
    {
        if page >= ROOT_PAGES {
            return Ok(None);
        }
        let (_, interval) = projection::find(&mut self.mem, self.intervals, page)?;
        Ok(Some(interval))
    }

    /// The first page of a space, and how many pages it has.
    pub fn bounds(&mut self, space: u32) -> Result<(u32, u32), SpaceError<M::Error>>
        ensures answer { (ss : List Space) → Reveals self.old ss
            → Replies (no_space ss space)
            (λ run. (s : Space) × (space_at ss space ≡ Some s) × (run ≡ (s.first, s.pages))) result }
        ensures form { IfOk result (λ run. lies_in_root run.0 run.1 ≡ true) }
        ensures read { (b : List ℕ) → M.reveals (tables_memory self.old) b → IfOk result (IsRunAt b space) }
        ensures malformed { (b : List ℕ) → M.reveals (tables_memory self.old) b
            → IfErr result (IfMalformed (λ page. BreaksSlot b page space)) }
        ensures cause { IfErr result (IfMem (M.accounted (tables_memory self.old) (tables_memory self.new))) }
        ensures unchanged { (b : List ℕ) → M.reveals (tables_memory self.old) b → M.reveals (tables_memory self.new) b }
        ensures count { interval_count self.new ≡ interval_count self.old }
        ensures kept { M.beside (tables_memory self.old) (tables_memory self.new) }
        ensures looked { M.only_reads (tables_memory self.old) (tables_memory self.new) }
        ensures cost { M.spent (tables_memory self.new) ≤ M.spent (tables_memory self.old) + M.cost }
    {
        let found = existing(&mut self.mem, space)?;
        Ok((found.first, found.pages))
    }

    /// The innermost space that holds a page: its handle, its first page, and how many pages it has.
    pub fn place(&mut self, page: u32) -> Result<(u32, u32, u32), SpaceError<M::Error>>
        ensures answer { (ss : List Space) → Reveals self.old ss → Replies (first_of (past_root page ∷ []))
            (λ at. (s : Space) × (innermost ss page ≡ Some s) × (at ≡ (s.handle, s.first, s.pages))) result }
        ensures form { IfOk result (λ at. lies_in_root at.1 at.2 ≡ true) }
        ensures malformed { (b : List ℕ) → M.reveals (tables_memory self.old) b
            → IfErr result (IfMalformed (BreaksFor page (interval_count self.old) b)) }
        ensures cause { IfErr result (IfMem (M.accounted (tables_memory self.old) (tables_memory self.new))) }
        ensures unchanged { (b : List ℕ) → M.reveals (tables_memory self.old) b → M.reveals (tables_memory self.new) b }
        ensures count { interval_count self.new ≡ interval_count self.old }
        ensures kept { M.beside (tables_memory self.old) (tables_memory self.new) }
        ensures looked { M.only_reads (tables_memory self.old) (tables_memory self.new) }
        ensures cost { M.spent (tables_memory self.new) ≤ M.spent (tables_memory self.old) + 8 * M.cost }
    {
        let found = place(&mut self.mem, self.intervals, page)?;
        Ok((found.handle, found.first, found.pages))
    }

    /// The tests of a call that maps a space, as far as they ask of spaces; then its first page and how many it has.
    pub fn can_map(&mut self, space: u32) -> Result<(u32, u32), SpaceError<M::Error>>
        ensures answer { (ss : List Space) → Reveals self.old ss
            → Replies (first_of (map_row ss space))
            (λ run. (s : Space) × (space_at ss space ≡ Some s) × (run ≡ (s.first, s.pages))) result }
        ensures form { IfOk result (λ run. lies_in_root run.0 run.1 ≡ true) }
        ensures read { (b : List ℕ) → M.reveals (tables_memory self.old) b → IfOk result (IsRunAt b space) }
        ensures malformed { (b : List ℕ) → M.reveals (tables_memory self.old) b
            → IfErr result (IfMalformed (BreaksHierarchy b)) }
        ensures cause { IfErr result (IfMem (M.accounted (tables_memory self.old) (tables_memory self.new))) }
        ensures unchanged { (b : List ℕ) → M.reveals (tables_memory self.old) b → M.reveals (tables_memory self.new) b }
        ensures count { interval_count self.new ≡ interval_count self.old }
        ensures kept { M.beside (tables_memory self.old) (tables_memory self.new) }
        ensures looked { M.only_reads (tables_memory self.old) (tables_memory self.new) }
        ensures cost { M.spent (tables_memory self.new) ≤ M.spent (tables_memory self.old) + 513 * M.cost }
    {
        let found = unmapped(&mut self.mem, self.intervals, space)?;
        Ok((found.first, found.pages))
    }

    /// What a space itself shows.
    pub fn shown(&mut self, space: u32) -> Result<Shown, SpaceError<M::Error>>
        ensures answer { (ss : List Space) → Reveals self.old ss → Replies (first_of (window_row ss space))
            (λ shown. (s : Space) × (space_at ss space ≡ Some s) × (s.window ≡ Some (window_of shown))) result }
        ensures form { IfOk result (λ shown. 16 ≤ shown.id) }
        ensures read { (b : List ℕ) → M.reveals (tables_memory self.old) b → IfOk result (IsShownAt b space) }
        ensures malformed { (b : List ℕ) → M.reveals (tables_memory self.old) b
            → IfErr result (IfMalformed (λ page. BreaksSlot b page space)) }
        ensures cause { IfErr result (IfMem (M.accounted (tables_memory self.old) (tables_memory self.new))) }
        ensures unchanged { (b : List ℕ) → M.reveals (tables_memory self.old) b → M.reveals (tables_memory self.new) b }
        ensures count { interval_count self.new ≡ interval_count self.old }
        ensures kept { M.beside (tables_memory self.old) (tables_memory self.new) }
        ensures looked { M.only_reads (tables_memory self.old) (tables_memory self.new) }
        ensures cost { M.spent (tables_memory self.new) ≤ M.spent (tables_memory self.old) + M.cost }
    {
        let found = existing(&mut self.mem, space)?;
        match found.window {
            Some(window) => Ok(shown_in(window)),
            None => Err(SpaceError::Refused(Refusal::NotMapped)),
        }
    }

    /// The lowest handle whose space shows a file, and what it shows there; or only one that shows it writable.
    pub fn shows_file(
        &mut self,
        id: FileId,
        writable_only: bool,
    ) -> Result<Option<(u32, Shown)>, SpaceError<M::Error>>
        ensures answer { (ss : List Space) → Reveals self.old ss
            → IfOk result (IsFirstWith (shows id writable_only) ss) }
        ensures right { (ss : List Space) → Reveals self.old ss → IfErr result FromMemory }
        ensures form { IfOk result
            (λ o. IfSome o (λ at. (16 ≤ at.1.id) × (at.1.id ≡ id) × (writable_only ≡ true → at.1.writable ≡ true))) }
        ensures read { (b : List ℕ) → M.reveals (tables_memory self.old) b
            → IfOk result (λ o. IfSome o (λ at. IsShownAt b at.0 at.1)) }
        ensures malformed { (b : List ℕ) → M.reveals (tables_memory self.old) b
            → IfErr result (IfMalformed (BreaksHierarchy b)) }
        ensures refused { IfErr result NotRefused }
        ensures cause { IfErr result (IfMem (M.accounted (tables_memory self.old) (tables_memory self.new))) }
        ensures unchanged { (b : List ℕ) → M.reveals (tables_memory self.old) b → M.reveals (tables_memory self.new) b }
        ensures count { interval_count self.new ≡ interval_count self.old }
        ensures kept { M.beside (tables_memory self.old) (tables_memory self.new) }
        ensures looked { M.only_reads (tables_memory self.old) (tables_memory self.new) }
        ensures cost { M.spent (tables_memory self.new) ≤ M.spent (tables_memory self.old) + 512 * M.cost }
    {
        showing(&mut self.mem, self.intervals, id, writable_only)
    }

    /// Adds a space of so many pages inside a parent, at the given first page or in the lowest gap that is long enough.
    /// Gives its handle and its first page.
    pub fn add(
        &mut self,
        parent: u32,
        pages: u32,
        first: Option<u32>,
    ) -> Result<(u32, u32), SpaceError<M::Error>>
        ensures answer { (ss : List Space) → Reveals self.old ss
            → Answers (first_of (add_row ss parent pages first))
            (λ at.
            Reveals self.new (put_space (made ss parent pages first) ss) × (at.0 ≡ (made ss parent pages first).handle)
            × (at.1 ≡ (made ss parent pages first).first))
            (Reveals self.new ss) result }
        ensures form { IfOk result (λ at. lies_in_root at.1 pages ≡ true) }
        ensures malformed { (b : List ℕ) → M.reveals (tables_memory self.old) b
            → IfErr result
            (IfMalformed
            (λ page.
            BreaksHierarchy b page
            ⊎ (BreaksAt first (interval_count self.old) b page
            ⊎ MakesTooMany (interval_count self.old) b parent pages first page))) }
        ensures cause { IfErr result (IfMem (M.accounted (tables_memory self.old) (tables_memory self.new))) }
        ensures kept { M.beside (tables_memory self.old) (tables_memory self.new) }
        ensures cost { M.spent (tables_memory self.new) ≤ M.spent (tables_memory self.old) + 1793 * M.cost }
    {
        let (handle, first, intervals) = add(&mut self.mem, self.intervals, parent, pages, first)?;
        self.intervals = intervals;
        Ok((handle, first))
    }

    /// Removes a space that has no children and is not mapped.
    pub fn remove(&mut self, space: u32) -> Result<(), SpaceError<M::Error>>
        ensures answer { (ss : List Space) → Reveals self.old ss → Answers (first_of (remove_row ss space))
            (λ _. Reveals self.new (without_space space ss)) (Reveals self.new ss) result }
        ensures malformed { (b : List ℕ) → M.reveals (tables_memory self.old) b
            → IfErr result (IfMalformed (BreaksFor (first_in_slot b space) (interval_count self.old) b)) }
        ensures cause { IfErr result (IfMem (M.accounted (tables_memory self.old) (tables_memory self.new))) }
        ensures kept { M.beside (tables_memory self.old) (tables_memory self.new) }
        ensures cost { M.spent (tables_memory self.new) ≤ M.spent (tables_memory self.old) + 783 * M.cost }
    {
        self.intervals = remove(&mut self.mem, self.intervals, space)?;
        Ok(())
    }

    /// Gives a space another unit size, 1 to 16 pages.
    pub fn set_unit(&mut self, space: u32, unit: u32) -> Result<(), SpaceError<M::Error>>
        ensures answer { (ss : List Space) → Reveals self.old ss
            → Answers (first_of (unit_row ss space unit))
            (λ _. Reveals self.new (change_space space (λ s. record s { unit = unit }) ss)) (Reveals self.new ss)
            result }
        ensures malformed { (b : List ℕ) → M.reveals (tables_memory self.old) b
            → IfErr result (IfMalformed (Breaks (interval_count self.old) b)) }
        ensures cause { IfErr result (IfMem (M.accounted (tables_memory self.old) (tables_memory self.new))) }
        ensures count { interval_count self.new ≡ interval_count self.old }
        ensures kept { M.beside (tables_memory self.old) (tables_memory self.new) }
        ensures cost { M.spent (tables_memory self.new) ≤ M.spent (tables_memory self.old) + 2048 * M.cost }
    {
        set_unit(&mut self.mem, self.intervals, space, unit)
    }

    /// Gives a space another window, or none. The space is mapped, or no space on its path is.
    pub fn set_window(
        &mut self,
        space: u32,
        shown: Option<Shown>,
    ) -> Result<(), SpaceError<M::Error>>
        ensures done { (ss : List Space) (x : Space) → Reveals self.old ss → MayHaveWindow ss x → x.handle ≡ space
            → IfSome shown (λ w. WindowFits x.pages (window_of w))
            → MatchResult result (λ _. Reveals self.new (set_window space (option_map window_of shown) ss)) FromMemory }
        ensures malformed { (b : List ℕ) → M.reveals (tables_memory self.old) b
            → IfErr result (IfMalformed (Breaks (interval_count self.old) b)) }
        ensures cause { IfErr result (IfMem (M.accounted (tables_memory self.old) (tables_memory self.new))) }
        ensures count { interval_count self.new ≡ interval_count self.old }
        ensures kept { M.beside (tables_memory self.old) (tables_memory self.new) }
        ensures cost { M.spent (tables_memory self.new) ≤ M.spent (tables_memory self.old) + 2048 * M.cost }
    {
        set_window(&mut self.mem, self.intervals, space, window_in(shown))
    }
}
