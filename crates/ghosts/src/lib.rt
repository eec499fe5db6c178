//! Ghost: which of its nodes remember a key, newest first. The keys lie with the caller.
#![tactic(auto)]

mod history;
pub mod noted;
mod notes;
mod queue;

pub use queue::GhostQueue;
