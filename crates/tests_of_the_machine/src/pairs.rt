//! Lines for two volumes and what they say, and the lines that are replied.

use anyhow::Result;
use pair_machine::{PairCall, PairRefusal, PairReply};
use std::alloc::Global;
use trace_io::{MemorySink, MemorySource, PairLine, PairLines, write_pair};

/// What a line says.
fn text(alloc: Global, line: &PairLine) -> Result<String> {
    match line {
        PairLine::Call(PairCall::Copy { id }) => Ok(format!(in alloc; "copy {id}\n")?),
        PairLine::Call(PairCall::Compare { id }) => Ok(format!(in alloc; "compare {id}\n")?),
        PairLine::Close => Ok(String::from_str(alloc, "close\n")?),
        PairLine::Bad => Ok(String::from_str(alloc, "bad\n")?),
        _ => Ok(String::from_str(alloc, "end\n")?),
    }
}

/// What the first two lines of a text say.
pub(crate) fn read(alloc: Global, trace: &[u8]) -> Result<(String, String)> {
    let mut source = MemorySource::new(alloc, trace, &[])?;
    let mut lines = PairLines::with_limit(1 << 32);
    let first = text(alloc, &lines.next(&mut source))?;
    let second = text(alloc, &lines.next(&mut source))?;
    Ok((first, second))
}

/// A line of each kind that is replied.
pub(crate) fn report(alloc: Global) -> Result<String> {
    let mut sink = MemorySink::new(alloc, 192, &[])?;
    let replies = [
        PairReply::Done,
        PairReply::Same,
        PairReply::Differs(u32::MAX),
        PairReply::Refused(PairRefusal::Syntax),
        PairReply::Refused(PairRefusal::File),
        PairReply::Refused(PairRefusal::Mutable),
        PairReply::Refused(PairRefusal::Exists),
        PairReply::Refused(PairRefusal::Serial),
        PairReply::Refused(PairRefusal::Full),
    ];
    for reply in &replies {
        let _ = write_pair(&mut sink, reply);
    }
    Ok(String::from_str(alloc, std::str::from_utf8(sink.taken())?)?)
}
