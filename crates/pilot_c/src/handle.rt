//! What C holds of an engine: where it lies.
ghost use Rattle.std.specs.Borrow.{full_share};
ghost use Rattle.std.specs.Ptr.{lies_at};
ghost use Rattle.embedded.specs.contracts.image.ImageEngine.{the_row};
ghost use Rattle.embedded.specs.declared.image.ImageEngine.{ImageEngine};

use std::marker::Model;

/// A handle: it owns the engine that its one pointer leads to.
#[repr(C)]
pub struct Pilot {
    pub(crate) ptr: *const u8,
    pub ghost value: { ImageEngine } by { the_row.coded },
}

impl Model for Pilot {
    ghost also_owns = { λ b. lies_at the_row full_share b.ptr b.value };
}
