//! What C calls: one function each, over a handle that C gives memory for.
#![tactic(auto)]

mod answers;
mod files;
mod handle;
mod lend;
mod making;
mod place;
mod references;
mod session;
mod spaces;

pub use answers::{Finding, Reply, Report};
pub use files::{
    pilot_attributes, pilot_create, pilot_delete, pilot_immutable, pilot_next, pilot_permanent,
    pilot_setsize, pilot_volume,
};
pub use handle::Pilot;
pub use making::{pilot_make, pilot_restore};
pub use place::{pilot_place, pilot_size};
pub use references::{pilot_load, pilot_store};
pub use session::{
    pilot_close, pilot_evidence, pilot_halt, pilot_is_open, pilot_release, pilot_start,
};
pub use spaces::{
    pilot_activate, pilot_deactivate, pilot_force, pilot_kill, pilot_map, pilot_mapdata,
    pilot_protect, pilot_remove, pilot_space, pilot_space_at, pilot_units, pilot_unmap,
    pilot_where,
};
