//! A label that is set through a queue.
ghost use Rattle.std.specs.Prelude.{◌≡◌, ◌<◌, Ok, IfOk};
ghost use Rattle.disk_callers.specs.Settled.{StandsSettled};

use labelled_disk::{Disk, DiskError, DiskWrite, Label, NoMemory};
use std::alloc::Allocator;
use write_queue::QueueOver;

/// Sets the label of a sector through a queue, and syncs it. After an Ok the label stands on the
/// disk, which is synced. The disk is handed back whatever the answer.
pub fn sync_label<D: Disk, A: Allocator + Clone>(
    alloc: A,
    disk: D,
    sector: u32,
    label: &Label,
) -> Result<(Result<(), DiskError>, D), (NoMemory, D)>
    requires { sector < (D.state disk).sectors }
    ensures { IfOk result (λ r. r.0 ≡ Ok tt
        → StandsSettled (DiskWrite.LabelOnly sector label.now) (D.state disk) (D.state r.1)) }
{
    let mut queue = match QueueOver::over(alloc, disk, 4) {
        Ok(queue) => queue,
        Err(none) => return Err(none),
    };
    let answer = queue.write_label(sector, label);
    if answer.is_err() {
        return Ok((answer, queue.into_disk()));
    }
    let settled = queue.sync();
    Ok((settled, queue.into_disk()))
}
