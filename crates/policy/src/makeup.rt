//! What the policy is made of.

use ghosts::GhostQueue;
use queues::Residents;

/// Small's limit.
#[derive(Drop)]
pub struct SmallQueue {
    /// Maximum number of Small residents.
    pub(crate) capacity: u16,
}

/// Main's limit.
#[derive(Drop)]
pub struct MainRing {
    /// Maximum number of Main residents.
    pub(crate) capacity: u16,
}

/// The residents by their places, the history by its nodes, and the limits.
#[derive(Drop)]
pub struct Core {
    pub(crate) residents: Residents,
    pub(crate) ghosts: GhostQueue,
    pub(crate) small: SmallQueue,
    pub(crate) main: MainRing,
    pub(crate) capacity: u16,
}
