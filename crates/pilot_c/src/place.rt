//! An engine is placed in C's memory.
ghost use Rattle.std.specs.Prelude.{◌≡◌};
ghost use Rattle.std.specs.Borrow.{full_share, sem};
ghost use Rattle.std.specs.Ptr.{lies_at, room_at};
ghost use Rattle.embedded.specs.contracts.image.ImageEngine.{the_row as engine-row};
ghost use Rattle.pilot_c.specs.Places.{File, engine_size, file-row, placed};

use embedded::ImageEngine;

/// How many bytes an engine takes.
#[unsafe(no_mangle)]
pub extern "C" fn pilot_size() -> usize
    ensures { result ≡ engine_size }
{
    size_of::<ImageEngine>()
}

/// Puts an engine without a session into room for one, over a file that C opened, and gives up.
#[unsafe(no_mangle)]
pub unsafe extern "C" fn pilot_place(room: *mut u8, file: *mut u8)
    ghost f: { File }
    requires* { sem 𝓛 (room_at engine-row room) ∗ sem 𝓛 (lies_at file-row full_share file f) }
    ensures* { sem 𝓛 (placed room) }
{
    let given = unsafe { (file as *mut std::fs::File).read() };
    let engine = ImageEngine::over(given);
    unsafe { (room as *mut ImageEngine).write(engine) }
}
