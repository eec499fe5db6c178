//! Stations looked up by their written keys, and the words of the command that asks for them.
#![tactic(auto)]

pub mod command;
pub mod reply;
