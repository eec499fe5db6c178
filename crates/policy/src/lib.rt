//! The Clock2Q+ replacement policy over places: it knows neither keys nor values. Small and Main
//! hold places of residents, the free stack those that were given back, Ghost its own nodes.
#![tactic(auto)]

mod calls;
mod insert;
mod insertion;
mod makeup;
pub mod plan;
mod policy;
mod retain;
mod steps;
mod vacate;

pub use crate::policy::Policy;
pub use ghosts::noted::Noted;
pub use queues::location::Location;
