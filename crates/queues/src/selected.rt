//! What a sweep finds.

/// The victim of a sweep, which then stands first in Main, and the chances that the hand gave on its way.
#[derive(Clone, Copy, PartialEq, Eq)]
pub struct Selected {
    pub victim: u16,
    pub chances: u16,
}
