//! What a client writes as calls is read as those calls, and how texts of other lines are read.
ghost use Rattle.std.specs.Prelude.{◌≡◌, ◌≤◌, List, length, map, Some};
ghost use Rattle.std.specs.List.{AllByRecursion};
ghost use Rattle.flat_machine.specs.declared.call.Call.{Call};
ghost use Rattle.trace_io.specs.Stream.{Misses};
ghost use Rattle.trace_io.specs.Grammar.{call_of};
ghost use Rattle.trace_io.specs.Reading.{reading, through_last};
ghost use Rattle.trace_io.specs.EventReading.{EventsGoOn, EventsEnd};
ghost use Rattle.trace_io.specs.PairReading.{PairLinesGoOn, PairLinesEnd};
ghost use Rattle.trace_io.specs.CallText.{call_text, trace_text, IsWritable};

/// The text of a call says that call, has no line feed, and is short enough to be read. The lines
/// of some calls are read as these calls, up to the first that ends a session. So no line is read
/// as two calls, and no two as one.
pub fn calls_are_read_back()
    ensures reads { (c : Call) → IsWritable c → call_of (call_text c) ≡ Some c }
    ensures misses { (c : Call) → IsWritable c → Misses 10 (call_text c) }
    ensures short { (c : Call) → IsWritable c → length (call_text c) ≤ 255 }
    ensures trace { (calls : List Call) → AllByRecursion IsWritable calls
        → reading (trace_text calls) ≡ through_last (map Some calls) }
{}

/// A text of events is read line by line: a whole line says its event, and what follows is read
/// after it, unless it is the last.
pub fn events_are_read_by_lines()
    ensures line { EventsGoOn }
    ensures last { EventsEnd }
{}

/// A text for a pair of volumes is read line by line, in the same way.
pub fn pair_lines_are_read_by_lines()
    ensures line { PairLinesGoOn }
    ensures last { PairLinesEnd }
{}
