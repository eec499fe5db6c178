//! The queues of the replacement policy, over places: Small, Main and the free stack on one line of
//! links, with the residents' marks.
#![tactic(auto)]

mod lists;
pub mod location;
mod main_ring;
mod place;
mod residents;
mod seat;
pub mod selected;
mod slots;
mod small_queue;
pub mod state;

pub use residents::Residents;
