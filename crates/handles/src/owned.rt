ghost use Rattle.std.specs.Prelude.{◌≡◌, ℕ, length, replicate};
ghost use Rattle.handles.specs.Slots.{empty, room, occupied, Sound};
ghost use Rattle.handles.specs.Shift.{cleared};
ghost use Rattle.handles.specs.Seek.{candidates, to_come, first_by};
ghost use Rattle.handles.specs.Calls.{Inserts, Removes};

use crate::calls::{insert_slots, remove_slots};
use crate::entries::empty_all;
use crate::handle::{Handle, Sought};
use crate::kinds::Place;
use crate::reader::{Reader, read_slots};
use crate::refusal::TableRefusal;
use crate::search::find_slots;
use crate::size::capacity_of;
use crate::slot::Slot;

/// A multimap from hashes to handles that keeps its slots itself. Its calls and a `Table`'s are the same functions over a
/// slice: a trait over both owners would say for each what a lent `&mut` leaves, and spare no body.
#[derive(Drop)]
pub struct OwnedTable<X, const N: usize> {
    slots: [Slot<X>; N],
    len: usize,
    ghost sound: { Sound slots len },
    ghost sized: { length slots ≡ N },
}

/// A table of places with 1,024 slots, which takes 768 of them.
pub type PlaceTable = OwnedTable<Place, 1024>;

impl PlaceTable {
    /// A table without entries.
    pub fn new() -> PlaceTable
        ensures { result.slots ≡ replicate 1024 (record { meta = empty; handle = record { 0 = 0 } }) }
    {
        OwnedTable::vacant(Place(0))
    }
}

impl<X: Handle, const N: usize> OwnedTable<X, N> {
    /// A table without entries, over a handle without use.
    pub fn vacant(handle: X) -> OwnedTable<X, N>
        ensures { result.slots ≡ replicate N (record { meta = empty; handle = handle }) }
    {
        OwnedTable {
            slots: [Slot::vacant(handle); N],
            len: 0,
        }
    }

    /// The number of entries.
    pub fn len(&self) -> usize
        ensures { result ≡ occupied self.now.slots }
    {
        self.len
    }

    /// How many entries the slots take.
    pub fn capacity(&self) -> usize
        ensures { result ≡ room (length self.now.slots) }
    {
        capacity_of(N)
    }

    /// A reader of the candidates of a hash.
    pub fn get(&self, hash: u64) -> Reader<'_, X>
        ensures { to_come result.probe.slots.now result.probe.home result.probe.print result.displacement ≡ candidates self.now.slots hash }
    {
        read_slots(&self.slots, self.len, hash)
    }

    /// The first candidate of a hash that is sought.
    pub fn find<S: Sought<X>>(&self, hash: u64, sought: &S) -> Option<X>
        ensures { result ≡ first_by (S.Sought.fits sought.now) (candidates self.now.slots hash) }
    {
        find_slots(&self.slots, self.len, hash, sought)
    }

    /// Inserts a handle under a hash, or refuses where the table is full.
    pub fn insert(&mut self, hash: u64, handle: X) -> Result<(), TableRefusal>
        ensures { Inserts self.old.slots hash handle result self.new.slots }
    {
        insert_slots(&mut self.slots, &mut self.len, capacity_of(N), hash, handle)
    }

    /// Removes the first candidate of a hash with a handle, and says whether there was one.
    pub fn remove(&mut self, hash: u64, handle: X) -> bool
        ensures { Removes X.Handle.meaning self.old.slots hash handle result self.new.slots }
    {
        remove_slots(&mut self.slots, &mut self.len, hash, handle)
    }

    /// Removes every entry.
    pub fn clear(&mut self)
        ensures { self.new.slots ≡ cleared self.old.slots }
    {
        empty_all(&mut self.slots);
        self.len = 0;
    }
}
