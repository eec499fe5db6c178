//! The calls of a run and what they answer.

use crate::refusal::Refusal;
use crate::report::Report;

/// A call that may stand in a run, with a key, a value and a keep rule.
#[derive(Clone, Copy, PartialEq, Eq, Debug)]
pub enum Call<K, V, R> {
    Contains(K),
    Peek(K),
    Get(K),
    GetAt(usize, K),
    Put(K, V),
    Fetch(K),
    WriteAt(usize, K, V),
    Remove(K),
    Retain(R),
    Clear,
}

/// What a put did.
#[derive(Clone, Copy, PartialEq, Eq, Debug)]
pub enum Placed<V> {
    /// The key was resident with this value, which the put replaced.
    Old(V),
    /// The key came in.
    New(Report),
}

/// What a fetch found.
#[derive(Clone, Copy, PartialEq, Eq, Debug)]
pub enum Fetched<V> {
    /// The key was resident with this value.
    Held(V),
    /// The loader gave this value, and the key came in with it.
    New(V, Report),
}

/// What a claim found: the place and the value in it.
#[derive(Clone, Copy, PartialEq, Eq, Debug)]
pub enum Claimed<V> {
    /// The key was resident there.
    Held((usize, V)),
    /// The key came in there.
    New((usize, V), Report),
}

/// The answer of any call of a run.
#[derive(Clone, Copy, PartialEq, Eq, Debug)]
pub enum Answer<V> {
    /// The key is resident, or was until this removal.
    Yes,
    /// The key is not resident, nor was it for this removal.
    No,
    /// The key is resident with this value.
    Held(V),
    /// The key is not resident, or not in that place.
    Absent,
    /// The key was resident with this value, which a put replaced.
    Old(V),
    /// A put brought its key in.
    New(Report),
    /// A fetch brought its key in with this value of the loader.
    Loaded(V, Report),
    /// The call is done and has nothing to tell.
    Done,
    /// The call was refused and changed nothing.
    Refused(Refusal),
}
