//! An old volume is converted, and what was found is revealed.
ghost use Rattle.std.specs.Prelude.{◌≡◌, ◌≢◌, ℕ, List, Option, String};
ghost use Rattle.std.specs.declared.alloc.Global.{Global};
ghost use Rattle.command_words.specs.Meaning.{Means};
ghost use Rattle.command_words.specs.declared.words.Command.TheVariants as command;
ghost use Rattle.pilot_top.specs.Causes.{HasReason};
ghost use Rattle.pilot_top.specs.Converting.{ConvertedBy, conversion_line};
ghost use Rattle.pilot_top.specs.World.{world};

use crate::Status;
use crate::last::{Cause, put_last};
use arrayvec::ArrayVec;
use itoa::Buffer;
use labelled_disk::Disk;
use std::alloc::Allocator;
use trace_io::Sink;
use volume_convert::{ConvertFault, Converted, convert};

fn conversion_line(found: Converted) -> ArrayVec<u8, 64>
    ensures { result.items ≡ conversion_line found.files found.pages found.freed }
{
    let mut line = ArrayVec::new();
    let _ = line.try_extend_from_slice(b"converted ");
    let _ = line.try_extend_from_slice(Buffer::new().format(found.files).as_bytes());
    let _ = line.try_extend_from_slice(b" ");
    let _ = line.try_extend_from_slice(Buffer::new().format(found.pages).as_bytes());
    let _ = line.try_extend_from_slice(b" ");
    let _ = line.try_extend_from_slice(Buffer::new().format(found.freed).as_bytes());
    let _ = line.try_extend_from_slice(b"\n");
    line
}

/// Brings the old volume of a disk to the version of today, and writes what was found. A root that is
/// refused comes before running out of memory.
pub(crate) fn convert_volume<A: Allocator + Clone, D: Disk, K: Sink>(
    alloc: A,
    disk: &mut D,
    sink: &mut K,
) -> Status
    // What it does, and why it ended so, whatever the source has.
    ensures converts { (left : Option (List ℕ)) (faults : ℕ) → ConvertedBy result
        (world (D.state disk.old) left faults (K.took sink.old) (K.faults sink.old))
        (world (D.state disk.new) left faults (K.took sink.new) (K.faults sink.new)) }
    ensures cause { (words : List (String Global)) → Means words command.Convert
        → (left : Option (List ℕ)) (faults : ℕ) → HasReason words result
        (world (D.state disk.old) left faults (K.took sink.old) (K.faults sink.old))
        (world (D.state disk.new) left faults (K.took sink.new) (K.faults sink.new)) }

    ensures understood { result ≢ Status.Usage }
    ensures keeps_sink { result ≡ Status.NoMemory → sink.new ≡ sink.old }
{
    match convert(alloc, disk) {
        Ok(found) => match sink.put(&conversion_line(found)) {
            Ok(()) => Status::Done,
            Err(_) => Status::StreamFault,
        },
        Err(why) => match why {
            ConvertFault::Root(why) => {
                put_last(sink, Cause::Root(why));
                Status::NotOpened
            }
            ConvertFault::Unfit { wanted, capacity } => {
                put_last(sink, Cause::Unfit { wanted, capacity });
                Status::Unfit
            }
            ConvertFault::Disk => {
                put_last(sink, Cause::DiskFault);
                Status::DiskFault
            }
            ConvertFault::NoMemory => Status::NoMemory,
        },
    }
}
