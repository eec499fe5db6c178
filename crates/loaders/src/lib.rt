//! Loaders: where a record comes from when the cache does not hold it.
//!
//! A sheet and a roll hold records themselves; an overlay and a shift are layers over other loaders.
#![tactic(auto)]

pub mod fault;
pub mod loader;
pub mod overlay;
pub mod roll;
pub mod sheet;
pub mod shift;
