//! Every call of a cache over its inner parts, each the plain machine's step: the functions to which the methods of a cache
//! hand its records on.
#![tactic(auto)]

mod claiming;
mod finding;
mod inserting;
mod loading;
mod opening;
mod reading;
mod retaining;
mod rule;
mod using;
mod writing;

pub use claiming::claim;
pub use loading::fetch;
pub use opening::{capacity, open};
pub use reading::{contains, peek};
pub use retaining::retain;
pub use rule::{AskedKeepRule, Unchanged};
pub use using::{get, get_at};
pub use writing::{put, remove, write_at};
