//! Survey records: the coordinates of a station, and the line of a sheet that gives them.
#![tactic(auto)]

pub mod entry;
pub mod station;
