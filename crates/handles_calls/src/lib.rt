//! Calls on a handle table of places as values, for programs that make lists of them.
#![tactic(auto)]

ghost use Rattle.std.specs.Prelude.{◌≡◌};
ghost use Rattle.handles.specs.Seek.{candidates};
ghost use Rattle.handles_calls.specs.Made.{sum_of, told, made};

mod call;

pub use call::{Answer, Call};
use handles::{Place, Table};

/// The candidates of a hash as one number that depends on each and on their order.
pub fn read_sum(table: &Table<'_, Place>, hash: u64) -> u64
    ensures { result ≡ sum_of 0 (candidates table.now.slots.now hash) }
{
    let mut sum = 0u64;
    for place in table.get(hash) {
        sum = sum.wrapping_mul(65599).wrapping_add(place.0 as u64 + 1);
    }
    sum
}

/// Makes a call.
pub fn make(table: &mut Table<'_, Place>, call: Call) -> Answer
    ensures answer { result ≡ told table.old.slots.now call }
    ensures slots { table.new.slots.now ≡ made table.old.slots.now call }
{
    match call {
        Call::Insert { hash, place } => Answer::Inserted(table.insert(hash, Place(place))),
        Call::Remove { hash, place } => Answer::Removed(table.remove(hash, Place(place))),
        Call::Clear => {
            table.clear();
            Answer::Cleared
        }
        Call::Read { hash } => Answer::Read(read_sum(table, hash)),
    }
}
