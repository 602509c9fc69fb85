//! The lines about a restoration.
ghost use Rattle.std.specs.Prelude.{◌≡◌, ◌≤◌, ◌++◌, codes, decimal, length, OnOk, OnErr};
ghost use Rattle.std.specs.Io.KnownBytes.{Appends};
ghost use Rattle.trace_io.specs.Stream.{AppendsPrefix, HasCause};
ghost use Rattle.pilot_top.specs.Reporting.{lost_line, lost_lines, count_line, report_text};

use crate::digits::id_digits;
use arrayvec::ArrayVec;
use itoa::Buffer;
use scavenger::{Lost, Report};
use std::alloc::Allocator;
use trace_io::{Sink, SinkFault};

fn lost_line(lost: &Lost) -> ArrayVec<u8, 64>
    ensures { result.items ≡ lost_line lost.now }
{
    let mut line = ArrayVec::new();
    let _ = line.try_extend_from_slice(b"lost ");
    let _ = line.try_extend_from_slice(Buffer::new().format(lost.sector).as_bytes());
    let _ = line.try_extend_from_slice(b" ");
    let _ = line.try_extend_from_slice(&id_digits(lost.id));
    let _ = line.try_extend_from_slice(b" ");
    let _ = line.try_extend_from_slice(Buffer::new().format(lost.page).as_bytes());
    let _ = line.try_extend_from_slice(b"\n");
    line
}

// The first words of that line.
fn count_prefix(files: u32, pages: u32, freed: u32) -> ArrayVec<u8, 64>
    ensures text { result.items ≡ codes "scavenged " ++ decimal files ++ codes " " ++ decimal pages
        ++ codes " " ++ decimal freed ++ codes " " }
    ensures short { length result.items ≤ 43 }
{
    let mut line = ArrayVec::new();
    let _ = line.try_extend_from_slice(b"scavenged ");
    let _ = line.try_extend_from_slice(Buffer::new().format(files).as_bytes());
    let _ = line.try_extend_from_slice(b" ");
    let _ = line.try_extend_from_slice(Buffer::new().format(pages).as_bytes());
    let _ = line.try_extend_from_slice(b" ");
    let _ = line.try_extend_from_slice(Buffer::new().format(freed).as_bytes());
    let _ = line.try_extend_from_slice(b" ");
    line
}

fn count_line(files: u32, pages: u32, freed: u32, lost: usize) -> ArrayVec<u8, 64>
    ensures { result.items ≡ count_line files pages freed lost }
{
    let mut line = count_prefix(files, pages, freed);
    let _ = line.try_extend_from_slice(Buffer::new().format(lost).as_bytes());
    let _ = line.try_extend_from_slice(b"\n");
    line
}

// A line for each of these sectors.
fn put_lost<K: Sink>(sink: &mut K, lost: &[Lost]) -> Result<(), SinkFault>
    ensures ok { OnOk result (Appends (K.took sink.old) (K.took sink.new) (lost_lines lost.now)) }
    ensures err { OnErr result (AppendsPrefix (K.took sink.old) (K.took sink.new) (lost_lines lost.now)) }
    ensures cause { HasCause (K.faults sink.old) (K.faults sink.new) result }
{
    for sector in lost {
        sink.put(&lost_line(sector))?;
    }
    Ok(())
}

/// Writes the lines of a report, each as one piece.
pub(crate) fn put_report<A: Allocator, K: Sink>(
    sink: &mut K,
    report: &Report<A>,
) -> Result<(), SinkFault>
    ensures ok { OnOk result (Appends (K.took sink.old) (K.took sink.new) (report_text report.now)) }
    ensures err { OnErr result (AppendsPrefix (K.took sink.old) (K.took sink.new) (report_text report.now)) }
    ensures cause { HasCause (K.faults sink.old) (K.faults sink.new) result }
{
    let lost = report.lost();
    put_lost(sink, lost)?;
    sink.put(&count_line(report.files, report.pages, report.freed, lost.len()))
}
