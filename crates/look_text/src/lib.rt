//! A look at a volume as text: a listing, JSON, a picture, and the bytes of a page.
#![tactic(auto)]

mod dump;
mod fields;
mod file;
mod json;
mod kinds;
mod legend;
mod listing;
mod maps;
mod picture;
mod request;
mod rows;
mod stopped;

pub use dump::write_page;
pub use file::{FileText, write_file};
pub use json::json_of;
pub use listing::write_listing;
pub use picture::write_picture;
pub use request::{Request, request_of};
