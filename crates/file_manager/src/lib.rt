//! Files that are made, changed and deleted: labels and both maps together.
#![tactic(auto)]

mod attributes;
mod creating;
mod creating_as;
mod cutting;
mod deleting;
mod finding;
mod forgetting;
mod free_all;
mod freeing_laws;
mod growing;
mod growing_laws;
mod growth;
mod laws;
mod leader;
mod making;
mod map_laws;
mod marks;
mod opening_laws;
mod order;
mod release;
mod resizing;
mod shrinking;
mod syncing;
mod tables;
mod volume;

pub use attributes::{Attributes, attributes_of};
pub use creating::{create, write_over};
pub use creating_as::create_as;
pub use deleting::delete;
pub use freeing_laws::files_may_be_freed;
pub use growing::grow;
pub use growing_laws::{created_were_unused, grown_were_unused};
pub use laws::booked_is_in_form;
pub use making::make_file;
pub use map_laws::map_names_once;
pub use marks::{make_immutable, make_permanent};
pub use opening_laws::opened_volumes_are_booked;
pub use order::next;
pub use resizing::set_size;
pub use tables::{free_tables, make_tables};
pub use volume::Volume;
