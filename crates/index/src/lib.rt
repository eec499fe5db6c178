//! Keys filed by their hashes: an index says in which place a key lies. The keys lie with the caller, so that one index
//! serves whatever keys a caller lays in places. Nothing depends on the index for safety: a place is answered only after
//! the key in it was compared.
#![tactic(auto)]

mod calls;
mod index;
mod places;
mod search;

pub use index::KeyIndex;
pub use places::KeyPlaces;
