//! What is proved of the intervals of the projection, shown on functions that do nothing.

ghost use Rattle.projection_laws.specs.Laws.{IntervalsReveal, WindowsAreFormed};
ghost use Rattle.projection_laws.specs.Laws.{AddedSplits, RemovedJoins, WindowReshows, UnitRefits, RootIsOne};
ghost use Rattle.projection_laws.specs.Laws.{LastHolds, FirstsAreAscending, FewIntervals, PutInSteps, JoinedInSteps};
ghost use Rattle.projection_laws.specs.Laws.{PairedInSteps, IntervalsAreFormed, UnitsAgree, FitsInOne, GapIsFirst};
ghost use Rattle.projection_laws.specs.Slots.{SlotWritten, SlotCleared, SlotChanged, SlotFound, SlotFree};
ghost use Rattle.projection_laws.specs.Tests.{TestsOnSpaces, AddPasses, RemovePasses, MapPasses, WindowPasses};
ghost use Rattle.projection_laws.specs.Stored.{EntriesRise, LookedUpHolds, SomeIsLookedUp, PlacedAfter, IntervalReadsBack, SlotReadsBack};
ghost use Rattle.projection_laws.specs.Worked.{WorkedRow};
ghost use Rattle.projection_laws.specs.Fits.{WindowsStayFit};
ghost use Rattle.projection_laws.specs.One.{IntervalsAreOne, IntervalsExist, InnermostExists, ModeIsWindow};

/// A space more splits one interval into three at most.
pub fn added_splits()
    ensures { AddedSplits }
{}

/// A space fewer joins its interval with those beside it that are then alike.
pub fn removed_joins()
    ensures { RemovedJoins }
{}

/// Another window of a space: its intervals show it, and none is split or joined.
pub fn window_reshows()
    ensures { WindowReshows }
{}

/// Another unit of a space.
pub fn unit_refits()
    ensures { UnitRefits }
{}

/// The root alone is one interval.
pub fn root_is_one()
    ensures { RootIsOne }
{}

/// The last interval that begins at or before a page holds it.
pub fn last_holds()
    ensures holds { LastHolds }
    ensures ascending { FirstsAreAscending }
{}

/// There are at most two intervals for each space, less one.
pub fn few_intervals()
    ensures { FewIntervals }
{}

/// Which writes of a table make the lists.
pub fn writes_of_a_table()
    ensures put { PutInSteps }
    ensures joined { JoinedInSteps }
    ensures paired { PairedInSteps }
{}

/// What each interval says of its innermost space, and that its units are those of the space.
pub fn intervals_are_formed()
    ensures form { IntervalsAreFormed }
    ensures windows { WindowsAreFormed }
    ensures units { UnitsAgree }
{}

/// Where a space may be placed, by the intervals.
pub fn places_by_intervals()
    ensures fits { FitsInOne }
    ensures gap { GapIsFirst }
{}

/// The hierarchy is a list of spaces.
pub fn slots_are_spaces()
    ensures written { SlotWritten }
    ensures cleared { SlotCleared }
    ensures changed { SlotChanged }
    ensures found { SlotFound }
    ensures free { SlotFree }
{}

/// Tests that read the spaces alone, and what passing them gives.
pub fn tests_on_spaces()
    ensures same { TestsOnSpaces }
    ensures add { AddPasses }
    ensures remove { RemovePasses }
    ensures map { MapPasses }
    ensures window { WindowPasses }
{}

/// The intervals as entries of a table: a look-up finds the one that holds the page.
pub fn entries_are_intervals()
    ensures rise { EntriesRise }
    ensures holds { LookedUpHolds }
    ensures some { SomeIsLookedUp }
    ensures placed { PlacedAfter }
{}

/// A record reads back what was written.
pub fn records_read_back()
    ensures interval { IntervalReadsBack }
    ensures slot { SlotReadsBack }
{}

/// The spaces have one list of intervals, and a mode is set as a window.
pub fn intervals_are_one()
    ensures one { IntervalsAreOne }
    ensures exist { IntervalsExist }
    ensures innermost { InnermostExists }
    ensures mode { ModeIsWindow }
{}

/// What an interval reveals of each of its pages.
pub fn intervals_reveal()
    ensures { IntervalsReveal }
{}

/// A space added and removed again, in numbers.
pub fn worked_row()
    ensures { WorkedRow }
{}

/// Windows that fit stay so, whatever is changed.
pub fn windows_stay_fit()
    ensures { WindowsStayFit }
{}
