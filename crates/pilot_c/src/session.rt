//! A session begins and ends.
ghost use Rattle.std.specs.Prelude.{◌≡◌, pos};
ghost use Rattle.embedded.specs.Begun.{Opens};
ghost use Rattle.embedded.specs.Closed.{Abandons, Closes};
ghost use Rattle.embedded.specs.Engine.{is_open};
ghost use Rattle.embedded.specs.Taking.{LetsGo};
ghost use Rattle.pilot_c.specs.Answers.{finding_of};
ghost use Rattle.pilot_c.specs.Numbers.{IsNumberAtEnd, IsNumberOf};

use crate::answers::{finding_of, number};
use crate::{Finding, Pilot};
use std::alloc::Global;

/// Starts a session with so many frames.
#[unsafe(no_mangle)]
pub extern "C" fn pilot_start(alloc: Global, pilot: &mut Pilot, frames: u32) -> i32
    ensures { IsNumberOf (λ answer. Opens frames pilot.old.value.engine answer pilot.new.value.engine) result }
{
    number(&pilot.engine().open(alloc, frames))
}

/// Whether there is a session.
#[unsafe(no_mangle)]
pub extern "C" fn pilot_is_open(pilot: &mut Pilot) -> bool
    ensures open { result ≡ is_open pilot.new.value.engine }
    ensures same { pilot.new.value ≡ pilot.old.value }
{
    pilot.engine().engine.is_open()
}

/// Ends the session, closes the volume, and lets the file go.
#[unsafe(no_mangle)]
pub extern "C" fn pilot_close(pilot: &mut Pilot) -> i32
    ensures { IsNumberAtEnd (Closes pilot.old.value.engine) result pilot.new.value.engine }
{
    let engine = &mut pilot.engine().engine;
    let closed = engine.close();
    engine.release();
    number(&closed)
}

/// Lets the session and the file go, and leaves the volume open.
#[unsafe(no_mangle)]
pub extern "C" fn pilot_halt(pilot: &mut Pilot) -> i32
    ensures { IsNumberAtEnd (Abandons pilot.old.value.engine) result pilot.new.value.engine }
{
    let handle = pilot.engine();
    let halted = handle.abandon();
    handle.engine.release();
    number(&halted)
}

/// Lets the file go, and with it a session, if there is one.
#[unsafe(no_mangle)]
pub extern "C" fn pilot_release(pilot: &mut Pilot)
    ensures { LetsGo pilot.old.value.engine pilot.new.value.engine }
{
    let handle = pilot.engine();
    let _ = handle.abandon();
    handle.engine.release();
}

/// What stopped the last session, or kept it from beginning. Answers 0.
#[unsafe(no_mangle)]
pub extern "C" fn pilot_evidence(pilot: &mut Pilot, finding: &mut Finding) -> i32
    ensures number { result ≡ pos 0 }
    ensures finding { finding.new ≡ finding_of pilot.old.value.engine.halt }
    ensures same { pilot.new.value ≡ pilot.old.value }
{
    *finding = finding_of(pilot.engine().engine.evidence());
    0
}
