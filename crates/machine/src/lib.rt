//! The plain machine of the cache: the types of its calls and answers, its limits, and in `specs/` its state and every step.
#![tactic(auto)]

mod answers;
pub mod call;
pub mod cases;
pub mod keep;
pub mod limits;
pub mod measure;
pub mod refusal;
pub mod report;
