//! A whole trace, read into memory.
ghost use Rattle.std.specs.Prelude.{◌≡◌, ◌≤◌, ◌⊎◌, Some, None, Err, IfOk, OnErr, IfSome};
ghost use Rattle.trace_io.specs.Stream.{Rose};
ghost use Rattle.trace_io.specs.Reading.{is_last};
ghost use Rattle.trace_io.specs.Trace.{Reads, TakesItem, TakesSomeLines};

use crate::{Line, Lines, Source, Stop};
use flat_machine::Call;
use labelled_disk::NoMemory;
use std::alloc::Allocator;

fn is_last(item: &Option<Call>) -> bool
    ensures { result ≡ is_last item.now }
{
    matches!(item, Some(Call::Close | Call::Halt))
}

// The next item, or why no more come.
fn take_item<S: Source>(lines: &mut Lines, source: &mut S) -> Result<Option<Call>, Stop>
    requires { (lines.old.stopped ≡ None) ⊎ (lines.old.stopped ≡ Some Stop.End) }
    ensures takes { TakesItem result (S.left source.old) (S.left source.new) lines.old lines.new }
    ensures bound { lines.new.taken ≤ lines.new.limit }
    ensures fault { result ≡ Err Stop.ReadFault → Rose (S.faults source.old) (S.faults source.new) }
    ensures faults { S.faults source.old ≤ S.faults source.new }
{
    match lines.next(source) {
        Line::Call(call) => Ok(Some(call)),
        Line::Bad => Ok(None),
        Line::End => Err(Stop::End),
        Line::ReadFault => Err(Stop::ReadFault),
        Line::Long => Err(Stop::Long),
    }
}

/// Reads a trace line by line up to its end, or to the line `close` or `halt`, and takes at most
/// that many bytes. Each item is the call of a line, or None where the line is no call. Where the
/// source fails or more bytes are needed, the items are those of the lines before. Where memory for an
/// item is short, its line is taken, and the items are lost.
pub fn read_trace<S: Source, A: Allocator>(
    alloc: A,
    source: &mut S,
    limit: u64,
) -> Result<(Vec<Option<Call>, A>, Stop), NoMemory>
    ensures reads { IfOk result (λ r. IfSome (S.left source.old) (λ b.
        Reads r.1 limit b (S.left source.new) r.0.items)) }
    // Without memory some lines were taken, and what is left stands after them.
    ensures memory { OnErr result (IfSome (S.left source.old) (λ b.
        TakesSomeLines limit b (S.left source.new))) }
    ensures fault { IfOk result (λ r. r.1 ≡ Stop.ReadFault → Rose (S.faults source.old) (S.faults source.new)) }
    ensures faults { S.faults source.old ≤ S.faults source.new }
{
    let mut lines = Lines::with_limit(limit);
    let mut items = Vec::new(alloc);
    'lines: loop {
        let item = match take_item(&mut lines, source) {
            Ok(item) => item,
            Err(why) => return Ok((items, why)),
        };
        let last = is_last(&item);
        let Ok(()) = items.push(item) else {
            return Err(NoMemory);
        };
        if last {
            return Ok((items, Stop::End));
        }
    }
}
