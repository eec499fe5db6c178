//! The nodes of Ghost.

use links::Line;

/// The lists of nodes, how many were opened, and how many there may be.
#[derive(Drop)]
pub struct Notes {
    /// The nodes that remember a key, and those that are spare.
    pub(crate) line: Line,
    /// How many nodes were ever opened; also the next.
    pub(crate) opened: u16,
    pub(crate) capacity: u16,
}
