//! The cache: opening, every call, and whole lists of calls with the laws over runs.
#![tactic(auto)]

mod cache;
mod calls;
mod runs;
mod step;

pub use crate::cache::Cache;
pub use calls::measure;
pub use records::Record;
pub use runs::play;
