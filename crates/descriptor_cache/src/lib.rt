//! The intervals of the projection that were looked up last.
#![tactic(auto)]

mod cache;

pub use cache::DescriptorCache;
