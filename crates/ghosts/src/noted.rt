//! What a push to Ghost tells.

/// The node that is Ghost's newest now, and whether it was the oldest of a full Ghost, whose key is forgotten. A case for
/// each would say the node twice.
#[derive(Clone, Copy, PartialEq, Eq)]
pub struct Noted {
    pub node: u16,
    pub forgot: bool,
}
