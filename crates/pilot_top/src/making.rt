//! New volumes.
ghost use Rattle.std.specs.Prelude.{◌≡◌, ◌⊎◌, ℕ, ◌≤◌, ◌++◌, List, codes, decimal};
ghost use Rattle.cut_words.specs.Between.{EachCutFromFirstSync};
ghost use Rattle.labelled_disk.specs.Calls.{Rose};
ghost use Rattle.std.specs.Io.KnownBytes.{Appends};
ghost use Rattle.trace_io.specs.Stream.{IsPrefixOf};
ghost use Rattle.volume_root.specs.Format.{format_writes, IsNoneOrNew, PartMade};
ghost use Rattle.pilot_top.specs.Last.{last_line, Puts};
ghost use Rattle.pilot_top.specs.Making.{IsMade, RefusesCount, made_line};

use crate::Status;
use crate::last::{Cause, put_last};
use arrayvec::ArrayVec;
use itoa::Buffer;
use labelled_disk::{Disk, RootFault};
use trace_io::Sink;
use volume_root::format;

fn made_line(capacity: u32) -> ArrayVec<u8, 32>
    ensures { result.items ≡ codes "formatted " ++ decimal capacity ++ codes "\n" }
{
    let mut line = ArrayVec::new();
    let _ = line.try_extend_from_slice(b"formatted ");
    let _ = line.try_extend_from_slice(Buffer::new().format(capacity).as_bytes());
    let _ = line.try_extend_from_slice(b"\n");
    line
}

/// Makes a volume of all sectors of the disk, without a file, and writes how many sectors it has
/// for files.
pub(crate) fn make_volume<D: Disk, K: Sink>(
    disk: &mut D,
    serial: u32,
    counter: u32,
    sink: &mut K,
) -> Status
    requires serial { 1 ≤ serial }
    requires counter { 1 ≤ counter }
    ensures ends { (result ≡ Status.Done) ⊎ (result ≡ Status.StreamFault)
        ⊎ (result ≡ Status.DiskFault) ⊎ (result ≡ Status.NotOpened) }
    ensures made { (result ≡ Status.Done) ⊎ (result ≡ Status.StreamFault)
        → IsMade serial counter (D.state disk.old) (D.state disk.new) }
    ensures line { result ≡ Status.Done
        → Appends (K.took sink.old) (K.took sink.new) (made_line (D.state disk.old).sectors) }
    ensures part_of_line { result ≡ Status.StreamFault
        → (prefix : List ℕ) × IsPrefixOf prefix (made_line (D.state disk.old).sectors)
        × Appends (K.took sink.old) (K.took sink.new) prefix }
    ensures stream_cause { result ≡ Status.StreamFault
        → Rose (K.faults sink.old) (K.faults sink.new) }

    // What stands where the power went, whatever it answers.
    ensures cuts { EachCutFromFirstSync (λ d e. IsNoneOrNew (D.state disk.old).sectors serial counter e)
        (D.state disk.old) (D.state disk.new) }

    // A count of sectors that no volume has.
    ensures refuses { RefusesCount result (D.state disk.old) (D.state disk.new)
        (Puts (Rose (K.faults sink.old) (K.faults sink.new)) (K.took sink.old) (K.took sink.new)) }

    // The disk failed.
    ensures part { result ≡ Status.DiskFault
        → PartMade (format_writes (D.state disk.old).sectors serial counter)
        (D.state disk.old) (D.state disk.new) }
    ensures disk_cause { result ≡ Status.DiskFault
        → Rose (D.state disk.old).faults (D.state disk.new).faults }
    ensures disk_line { result ≡ Status.DiskFault
        → Puts (Rose (K.faults sink.old) (K.faults sink.new)) (K.took sink.old) (K.took sink.new)
        (last_line Cause.DiskFault) }
{
    match format(disk, serial, counter) {
        Ok(layout) => match sink.put(&made_line(layout.capacity)) {
            Ok(()) => Status::Done,
            Err(_) => Status::StreamFault,
        },
        Err(why) => match why {
            RootFault::Disk => {
                put_last(sink, Cause::DiskFault);
                Status::DiskFault
            }
            _ => {
                put_last(sink, Cause::Root(why));
                Status::NotOpened
            }
        },
    }
}
