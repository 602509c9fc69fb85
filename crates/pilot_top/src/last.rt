//! The last line of a command that stopped.
ghost use Rattle.std.specs.Prelude.{◌≡◌, ◌≤◌, ◌+◌, ◌++◌, codes, length};
ghost use Rattle.labelled_disk.specs.Calls.{Rose};
ghost use Rattle.pilot_top.specs.Last.{difference_word, last_line, other_words, root_words, Puts};

use crate::damage::{damage_line, evidence_words};
use arrayvec::ArrayVec;
use itoa::Buffer;
use labelled_disk::{Difference, Evidence, RootFault};
use trace_io::Sink;

/// Why a command stopped.
#[derive(Clone, Copy)]
pub(crate) enum Cause {
    Usage,
    DiskFault,
    Long,
    /// The volume is damaged, as this shows.
    Damaged(Evidence),
    /// The files of an old volume want more sectors than a new one has for files.
    Unfit { wanted: u32, capacity: u32 },
    /// The volume can't be opened.
    Root(RootFault),
    /// It stopped on the second volume.
    Other(OtherCause),
}

/// Why a command stopped on the second volume.
#[derive(Clone, Copy)]
pub(crate) enum OtherCause {
    DiskFault,
    /// The volume is damaged, as this shows.
    Damaged(Evidence),
    /// The volume can't be opened.
    Root(RootFault),
}

fn difference_word(what: Difference) -> &'static [u8]
    ensures value { result.now ≡ difference_word what }
    ensures short { length result.now ≤ 8 }
{
    match what {
        Difference::Label => b"label",
        Difference::Magic => b"magic",
        Difference::Count(_) => b"count",
        Difference::Serial => b"serial",
        Difference::Counter => b"counter",
        Difference::Flag(_) => b"flag",
        Difference::Rest(_) => b"rest",
    }
}

// Two parts in a row.
fn both(word: &[u8], more: &[u8]) -> ArrayVec<u8, 80>
    requires { length word.now + length more.now ≤ 80 }
    ensures text { result.items ≡ word.now ++ more.now }
    ensures short { length result.items ≡ length word.now + length more.now }
{
    let mut words = ArrayVec::new();
    let _ = words.try_extend_from_slice(word);
    let _ = words.try_extend_from_slice(more);
    words
}

fn root_words(why: RootFault) -> ArrayVec<u8, 80>
    ensures text { result.items ≡ root_words why }
    ensures short { length result.items ≤ 80 }
{
    match why {
        RootFault::NotVolume(what) => both(b"notvolume ", difference_word(what)),
        RootFault::Unclean => both(b"unclean", b""),
        RootFault::Version(version) => both(b"version ", Buffer::new().format(version).as_bytes()),
        RootFault::BadCount(count) => both(b"count ", Buffer::new().format(count).as_bytes()),
        RootFault::Disk => both(b"disk", b""),
    }
}

fn other_words(why: OtherCause) -> ArrayVec<u8, 80>
    ensures text { result.items ≡ other_words why }
    ensures short { length result.items ≤ 80 }
{
    match why {
        OtherCause::DiskFault => both(b"disk", b""),
        OtherCause::Damaged(evidence) => both(b"damaged ", &evidence_words(evidence)),
        OtherCause::Root(why) => root_words(why),
    }
}

// The line of a command that stopped, of its first words and the others.
fn line_of(first: &[u8], words: &[u8]) -> ArrayVec<u8, 96>
    requires { length first.now + length words.now ≤ 95 }
    ensures { result.items ≡ first.now ++ words.now ++ codes "\n" }
{
    let mut line = ArrayVec::new();
    let _ = line.try_extend_from_slice(first);
    let _ = line.try_extend_from_slice(words);
    let _ = line.try_extend_from_slice(b"\n");
    line
}

fn root_line(why: RootFault) -> ArrayVec<u8, 96>
    ensures { result.items ≡ last_line (Cause.Root why) }
{
    line_of(b"stopped ", &root_words(why))
}

fn other_line(why: OtherCause) -> ArrayVec<u8, 96>
    ensures { result.items ≡ last_line (Cause.Other why) }
{
    line_of(b"stopped other ", &other_words(why))
}

fn unfit_line(wanted: u32, capacity: u32) -> ArrayVec<u8, 64>
    ensures { result.items ≡ last_line (Cause.Unfit wanted capacity) }
{
    let mut line = ArrayVec::new();
    let _ = line.try_extend_from_slice(b"stopped unfit ");
    let _ = line.try_extend_from_slice(Buffer::new().format(wanted).as_bytes());
    let _ = line.try_extend_from_slice(b" ");
    let _ = line.try_extend_from_slice(Buffer::new().format(capacity).as_bytes());
    let _ = line.try_extend_from_slice(b"\n");
    line
}

/// Writes the last line. A sink that fails here changes nothing else.
pub(crate) fn put_last<K: Sink>(sink: &mut K, cause: Cause)
    ensures put { Puts (Rose (K.faults sink.old) (K.faults sink.new)) (K.took sink.old)
        (K.took sink.new) (last_line cause) }
    ensures later { K.faults sink.old ≤ K.faults sink.new }
{
    let _ = match cause {
        Cause::Usage => sink.put(b"stopped usage\n"),
        Cause::DiskFault => sink.put(b"stopped disk\n"),
        Cause::Long => sink.put(b"stopped long\n"),
        Cause::Damaged(evidence) => sink.put(&damage_line(evidence)),
        Cause::Unfit { wanted, capacity } => sink.put(&unfit_line(wanted, capacity)),
        Cause::Root(why) => sink.put(&root_line(why)),
        Cause::Other(why) => sink.put(&other_line(why)),
    };
}
