//! Where a place can be.

/// The part of the cache that holds a place; that none does is a case, as in the Rust.
#[derive(Clone, Copy, PartialEq, Eq)]
pub enum Location {
    /// None: the place is free, or was never opened.
    Free,
    /// The queue of newcomers.
    Small,
    /// The ring that the hand sweeps.
    Main,
}
