//! Four lists over 512 numbered nodes, laid end to end on one doubly linked line.
//!
//! ```text
//! 512 list 0 513 list 1 514 list 2 515 list 3 516
//! ```
//!
//! A sentinel stands before each list and after the last one. So a list has no empty case, a list's
//! end is the neighbour of a sentinel, and a node is moved between any two lists in the same few writes.
#![tactic(auto)]

mod cells;
mod line;
mod lists;

pub use line::Line;
