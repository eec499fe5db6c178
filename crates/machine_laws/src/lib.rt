//! The laws of the plain machine over every run, each the contract of a function.
#![tactic(auto)]

pub mod laws;
