//! What an insertion tells of itself.

/// A part of the cache that holds residents.
#[derive(Clone, Copy, PartialEq, Eq, Debug)]
pub enum Part {
    /// The queue of newcomers.
    Small,
    /// The ring that the hand sweeps.
    Main,
}

/// What an insertion did: the newcomer's place and part, the part whose resident left, and the second chances given.
#[derive(Clone, Copy, PartialEq, Eq, Debug)]
pub struct Report {
    pub place: usize,
    pub joined: Part,
    pub left: Option<Part>,
    pub chances: usize,
}
