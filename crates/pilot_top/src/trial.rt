//! A trial: drawn calls are carried out in a session on a new volume, and what came of them is revealed in one line.
ghost use Rattle.std.specs.Prelude.{◌≡◌, ◌≢◌, ◌⊎◌, ◌<◌, ◌≤◌, ◌++◌, List, Some, true, false, length, slice_get, IfOk, IfErr, OnOk, Err};
ghost use Rattle.labelled_disk.specs.declared.evidence.Halt.TheVariants as halt;
ghost use Rattle.labelled_disk.specs.Sectors.{Sector};
ghost use Rattle.labelled_disk.specs.Calls.{OnlyReads, Rose};
ghost use Rattle.labelled_disk.specs.Layout.{IsCount};
ghost use Rattle.flat_machine.specs.declared.call.Reply.{Reply};
ghost use Rattle.flat_machine.specs.After.{ends_trace};
ghost use Rattle.flat_machine.specs.Form.{IsInForm};
ghost use Rattle.flat_machine.specs.Machine.{Machine};
ghost use Rattle.swapper_kernel.specs.Goes.{Went};
ghost use Rattle.filer_kernel.specs.Evidence.{ShowsEvidence};
ghost use Rattle.volume_root.specs.Later.{IsLater};
ghost use Rattle.pilot_engine.specs.Closing.{HasShut};
ghost use Rattle.running_words.specs.Session.{IsOpen};
ghost use Rattle.running_words.specs.Running.{Runs};
ghost use Rattle.pilot_top.specs.Counting.{AreOf};
ghost use Rattle.pilot_top.specs.Last.{Puts};
ghost use Rattle.pilot_top.specs.Making.{RefusesCount};
ghost use Rattle.pilot_top.specs.CrashStates.{Openly, ShutsLast};
ghost use Rattle.pilot_top.specs.Trial.{HasAnswered, HasNoFile, IsTrial, IsTrialOf, TriesLawfully, after_calls, drawn_calls, first_calls};
ghost use Rattle.pilot_top.specs.TrialEnding.{PutsTrial, StopsTrial};
ghost use Rattle.filer_kernel.specs.View.{FitsLayout};
ghost use Rattle.fault_core.specs.Core.{state};

use crate::Status;
use crate::closing::close;
use crate::counting::Counts;
use crate::stopping::{refuse, stop};
use flat_machine::Call;
use labelled_disk::{Disk, Halt};
use pilot_engine::Session;
use std::alloc::Allocator;
use trace_io::Sink;
use trace_maker::TraceMaker;

// The identifier of the first file of a volume with serial 1 and counter 1.
const FIRST_FILE: u64 = 0x1_0000_0001;

// One of the calls that make four files, four spaces, and a window of each space on its file.
fn first_call(index: u32) -> Call
    requires { index < 12 }
    ensures here { slice_get first_calls index ≡ Some result }
    ensures in_form { IsInForm result }
    ensures more { ends_trace result ≡ false }
{
    match index {
        0..=3 => Call::Create { pages: 16, kind: 0 },
        4..=7 => Call::MakeSpace {
            parent: 0,
            pages: 16,
            first: None,
        },
        _ => Call::Map {
            space: index - 7,
            id: FIRST_FILE + u64::from(index - 8),
            page: 0,
            writable: true,
        },
    }
}

// Makes the files, the spaces and the windows.
#[tactic(auto, using(crate::proofs::PermittedRuns::openly_itself))]
fn prepare<D: Disk, A: Allocator>(session: &mut Session<D, A>) -> Result<(), Halt>
    requires size { FitsLayout (state session.old.core) }
    requires opened { IsOpen (state session.old.core).layout session.old.volume }
    requires running { session.old.running ≡ true }
    ensures answered { (m : Machine) → Runs session.old.core session.old.volume m
        → OnOk result
        ((replies : List Reply) × HasAnswered m first_calls replies (Runs session.new.core session.new.volume)) }
    ensures sound { (m : Machine) → Runs session.old.core session.old.volume m → IfErr result (λ e. e ≡ halt.Disk) }
    ensures counted { result ≡ Err halt.Disk
        → Rose (state session.old.core).disk.faults (state session.new.core).disk.faults }
    ensures evidence_seen { IfErr result (ShowsEvidence (state session.new.core).disk) }
    ensures permitted { Openly (state session.old.core).disk (state session.new.core).disk }
    ensures went { Went (state session.old.core).disk (state session.new.core).disk }
    ensures layout { (state session.new.core).layout ≡ (state session.old.core).layout }
    ensures open_still { IsOpen (state session.new.core).layout session.new.volume }
    ensures goes_on { OnOk result (session.new.running ≡ true) }
{
    for index in 0..12 {
        match session.step(&first_call(index)) {
            Ok(_) => (),
            Err(halt) => return Err(halt),
        }
    }
    Ok(())
}

// Carries the drawn calls out, so many, and counts what came of them.
#[tactic(auto, using(crate::proofs::PermittedRuns::openly_itself))]
fn count_calls<D: Disk, A: Allocator>(
    session: &mut Session<D, A>,
    seed: u32,
    calls: u32,
) -> Result<Counts, Halt>
    requires size { FitsLayout (state session.old.core) }
    requires opened { IsOpen (state session.old.core).layout session.old.volume }
    requires running { session.old.running ≡ true }
    ensures answered { IfOk result (λ counts. (replies : List Reply) × AreOf counts replies × (length replies ≡ calls)
        × ((m : Machine) → Runs session.old.core session.old.volume m
        → HasAnswered m (drawn_calls seed calls) replies (Runs session.new.core session.new.volume))) }
    ensures sound { (m : Machine) → Runs session.old.core session.old.volume m → IfErr result (λ e. e ≡ halt.Disk) }
    ensures counted { result ≡ Err halt.Disk
        → Rose (state session.old.core).disk.faults (state session.new.core).disk.faults }
    ensures evidence_seen { IfErr result (ShowsEvidence (state session.new.core).disk) }
    ensures permitted { Openly (state session.old.core).disk (state session.new.core).disk }
    ensures went { Went (state session.old.core).disk (state session.new.core).disk }
    ensures layout { (state session.new.core).layout ≡ (state session.old.core).layout }
    ensures open_still { IsOpen (state session.new.core).layout session.new.volume }
    ensures goes_on { OnOk result (session.new.running ≡ true) }
{
    let mut maker = TraceMaker::new(seed);
    let mut counts = Counts::none();
    for _ in 0..calls {
        match session.step(&maker.next_call()) {
            Ok(reply) => counts.add(&reply),
            Err(halt) => return Err(halt),
        }
    }
    Ok(counts)
}

// Carries all calls of a trial out.
fn try_calls<D: Disk, A: Allocator>(
    session: &mut Session<D, A>,
    seed: u32,
    calls: u32,
) -> Result<Counts, Halt>
    requires size { FitsLayout (state session.old.core) }
    requires opened { IsOpen (state session.old.core).layout session.old.volume }
    requires running { session.old.running ≡ true }
    ensures answered { IfOk result (λ counts. (replies : List Reply) × AreOf counts replies × (length replies ≡ calls)
        × ((m : Machine) → Runs session.old.core session.old.volume m → IsTrialOf m seed calls replies
        × Runs session.new.core session.new.volume (after_calls m (first_calls ++ drawn_calls seed calls)))) }
    ensures sound { (m : Machine) → Runs session.old.core session.old.volume m → IfErr result (λ e. e ≡ halt.Disk) }
    ensures counted { result ≡ Err halt.Disk
        → Rose (state session.old.core).disk.faults (state session.new.core).disk.faults }
    ensures evidence_seen { IfErr result (ShowsEvidence (state session.new.core).disk) }
    ensures permitted { Openly (state session.old.core).disk (state session.new.core).disk }
    ensures went { Went (state session.old.core).disk (state session.new.core).disk }
    ensures layout { (state session.new.core).layout ≡ (state session.old.core).layout }
    ensures open_still { IsOpen (state session.new.core).layout session.new.volume }
    ensures goes_on { OnOk result (session.new.running ≡ true) }
{
    match prepare(session) {
        Ok(()) => (),
        Err(halt) => return Err(halt),
    }
    match count_calls(session, seed, calls) {
        Ok(counts) => Ok(counts),
        Err(halt) => Err(halt),
    }
}

// Carries a trial out in a session, ends the session, and then reveals what came of it.
fn try_session<D: Disk, A: Allocator, K: Sink>(
    session: Session<D, A>,
    seed: u32,
    calls: u32,
    sink: &mut K,
) -> (Status, D)
    requires size { FitsLayout (state session.core) }
    requires opened { IsOpen (state session.core).layout session.volume }
    requires running { session.running ≡ true }
    ensures ends { (result.0 ≡ Status.Done) ⊎ (result.0 ≡ Status.StreamFault)
        ⊎ (result.0 ≡ Status.DiskFault) ⊎ (result.0 ≡ Status.Damaged) }
    ensures puts { PutsTrial calls result.0
        (λ replies. (m : Machine) → Runs session.core session.volume m → IsTrialOf m seed calls replies)
        (K.took sink.old) (K.took sink.new) }
    ensures left { (m : Machine) → Runs session.core session.volume m
        → (result.0 ≡ Status.Done) ⊎ (result.0 ≡ Status.StreamFault)
        → HasShut (after_calls m (first_calls ++ drawn_calls seed calls)) (D.state result.1) }
    ensures sound { (m : Machine) → Runs session.core session.volume m → result.0 ≢ Status.Damaged }
    ensures stops { StopsTrial result.0 (state session.core).disk (D.state result.1)
        (Rose (K.faults sink.old) (K.faults sink.new))
        (Puts (Rose (K.faults sink.old) (K.faults sink.new)) (K.took sink.old) (K.took sink.new)) }
    ensures permitted { ShutsLast (state session.core).disk (D.state result.1) }
    ensures went { Went (state session.core).disk (D.state result.1) }
{
    let mut session = session;
    let counts = match try_calls(&mut session, seed, calls) {
        Ok(counts) => counts,
        Err(halt) => return (stop(halt, sink), session.into_disk()),
    };
    let (stopped, disk) = close(session, sink);
    if let Some(status) = stopped {
        return (status, disk);
    }
    match sink.put(&counts.line(calls)) {
        Ok(()) => (Status::Done, disk),
        Err(_) => (Status::StreamFault, disk),
    }
}

/// Makes a volume of all sectors of the disk, with serial 1 and counter 1, carries so many drawn calls out in a session with so
/// many frames, ends the session, and writes a line about the replies. The disk is handed back.
pub(crate) fn run_trial<A: Allocator, D: Disk, K: Sink>(
    alloc: A,
    seed: u32,
    calls: u32,
    frames: u32,
    disk: D,
    sink: &mut K,
) -> (Status, D)
    requires least { 24 ≤ frames }
    requires most { frames ≤ 4096 }
    ensures ends { (result.0 ≡ Status.Done) ⊎ (result.0 ≡ Status.StreamFault)
        ⊎ (result.0 ≡ Status.DiskFault) ⊎ (result.0 ≡ Status.NotOpened)
        ⊎ (result.0 ≡ Status.NoMemory) ⊎ (result.0 ≡ Status.Damaged) }
    ensures puts { PutsTrial calls result.0
        (λ replies.
        (d : List Sector) → (D.state disk).contents ≡ Some d → IsTrial (D.state disk).sectors seed calls replies)
        (K.took sink.old) (K.took sink.new) }
    ensures left { (d : List Sector) → (D.state disk).contents ≡ Some d
        → (result.0 ≡ Status.Done) ⊎ (result.0 ≡ Status.StreamFault)
        → HasNoFile (D.state result.1) }
    ensures complete { (d : List Sector) → (D.state disk).contents ≡ Some d → IsCount (D.state disk).sectors
        → ¬ Rose (D.state disk).faults (D.state result.1).faults
        → ¬ Rose (K.faults sink.old) (K.faults sink.new)
        → (result.0 ≡ Status.Done) ⊎ (result.0 ≡ Status.NoMemory) }

    // A count of sectors that no volume has; and no memory for the frames.
    ensures refuses { RefusesCount result.0 (D.state disk) (D.state result.1)
        (Puts (Rose (K.faults sink.old) (K.faults sink.new)) (K.took sink.old) (K.took sink.new)) }
    ensures memory { result.0 ≡ Status.NoMemory
        → OnlyReads (D.state disk) (D.state result.1) × (sink.new ≡ sink.old) }

    // Disk or sink failed; on a disk that reveals what it holds, no damage is found.
    ensures stops { StopsTrial result.0 (D.state disk) (D.state result.1)
        (Rose (K.faults sink.old) (K.faults sink.new))
        (Puts (Rose (K.faults sink.old) (K.faults sink.new)) (K.took sink.old) (K.took sink.new)) }
    ensures sound { (d : List Sector) → (D.state disk).contents ≡ Some d → result.0 ≢ Status.Damaged }
    ensures permitted { TriesLawfully (D.state disk) (D.state result.1) }
    ensures later { IsLater (D.state disk) (D.state result.1) }
{
    match Session::fresh(alloc, disk, frames) {
        Ok(session) => try_session(session, seed, calls, sink),
        Err((fault, disk)) => (refuse(fault, sink), disk),
    }
}
