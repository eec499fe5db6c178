ghost use Rattle.std.specs.Prelude.{◌≡◌, ℕ, ◌+◌, ◌%◌, ◌<◌, true, length, nat_le};
ghost use Rattle.handles.specs.Slots.{allowed, room, fingerprint};
ghost use Rattle.handles.specs.Calls.{measured, reserve_answer_lem};

use crate::refusal::{Reserved, TableRefusal};
use crate::slot::Slot;

/// Whether a table may have this many slots.
pub(crate) fn is_allowed(count: usize) -> bool
    ensures { result ≡ allowed count }
{
    matches!(
        count,
        0 | 16 | 32 | 64 | 128 | 256 | 512 | 1024 | 2048 | 4096
    )
}

/// How many entries this many slots take.
pub(crate) fn capacity_of(count: usize) -> usize
    ensures { result ≡ room count }
{
    if is_allowed(count) { count * 3 / 4 } else { 0 }
}

/// Measures slots: how many entries they take, or the refusal of their count.
pub fn measure<X: Copy>(slots: &[Slot<X>]) -> Result<usize, TableRefusal>
    ensures { result ≡ measured (length slots.now) }
{
    if is_allowed(slots.len()) {
        Ok(capacity_of(slots.len()))
    } else {
        Err(TableRefusal::SlotCount { slots: slots.len() })
    }
}

/// Whether a capacity takes the entries held and wanted.
fn takes(capacity: usize, entries: usize, wanted: usize) -> bool
    ensures { result ≡ nat_le (entries + wanted) capacity }
{
    entries <= capacity && wanted <= capacity - entries
}

/// What a reservation does with a table of this capacity and this many brought slots.
pub(crate) fn reserve_answer(
    capacity: usize,
    entries: usize,
    wanted: usize,
    brought: usize,
) -> Result<Reserved, TableRefusal>
    ensures { result ≡ reserve_answer_lem capacity entries wanted brought }
{
    if takes(capacity, entries, wanted) {
        return Ok(Reserved::Room);
    }
    if !is_allowed(brought) {
        return Err(TableRefusal::SlotCount { slots: brought });
    }
    let capacity = capacity_of(brought);
    if takes(capacity, entries, wanted) {
        Ok(Reserved::Rebuilt)
    } else {
        Err(TableRefusal::TooFewSlots {
            capacity,
            entries,
            wanted,
        })
    }
}

/// The home of a hash among this many slots.
pub(crate) fn home_of(count: usize, hash: u64) -> usize
    requires size { allowed count ≡ true }
    requires some { 0 < count }
    ensures { result ≡ hash % count }
{
    hash as usize & (count - 1)
}

/// The fingerprint of a hash.
pub(crate) fn print_of(hash: u64) -> u32
    ensures { result ≡ fingerprint hash }
{
    (hash >> 56) as u32
}
