//! What a cache is made of: the lent records, the policy over their places, and an index for each column of keys.
#![tactic(auto)]

mod admission;
mod clearing;
mod departing;
mod filing;
mod forgetting;
mod inner;
mod lookup;
mod residents;
mod values;

pub use inner::Inner;
