//! Key kinds: what a key means, how it is compared, hashed and read from text.
#![tactic(auto)]

pub mod choice;
pub mod hash;
pub mod kind;
pub mod named;
pub mod numbered;
