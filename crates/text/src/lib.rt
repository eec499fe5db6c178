//! Text: numbers, fields and lines, read exactly.
#![tactic(auto)]

pub mod field;
pub mod number;
