//! Volumes are made and restored.
ghost use Rattle.embedded.specs.Made.{Formats};
ghost use Rattle.pilot_c.specs.Numbers.{HasReport, IsNumberOf};

use crate::answers::{number, report_with};
use crate::{Pilot, Report};
use std::alloc::Global;

/// Makes a volume of all sectors of the file.
#[unsafe(no_mangle)]
pub extern "C" fn pilot_make(pilot: &mut Pilot, serial: u32, counter: u32) -> i32
    ensures { IsNumberOf (λ answer. Formats serial counter pilot.old.value.engine answer pilot.new.value.engine)
        result }
{
    number(&pilot.engine().engine.format(serial, counter))
}

/// Restores the volume of the file, and says what was found.
#[unsafe(no_mangle)]
pub extern "C" fn pilot_restore(alloc: Global, pilot: &mut Pilot, report: &mut Report) -> i32
    ensures { HasReport pilot.old.value.engine report.old result report.new pilot.new.value.engine }
{
    report_with(&pilot.engine().scavenge(alloc), report)
}
