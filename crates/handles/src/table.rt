ghost use Rattle.std.specs.Prelude.{◌≡◌, ℕ, ◌≤◌, true, length};
ghost use Rattle.handles.specs.Slots.{allowed, room, occupied, Sound};
ghost use Rattle.handles.specs.Shift.{cleared};
ghost use Rattle.handles.specs.Seek.{candidates, to_come, first_by};
ghost use Rattle.handles.specs.Calls.{Inserts, Removes, Reserves, rebuilt};

use crate::calls::{insert_slots, rebuild, remove_slots};
use crate::entries::empty_all;
use crate::handle::{Handle, Rehash, Sought};
use crate::reader::{Reader, read_slots};
use crate::refusal::{Reserved, TableRefusal};
use crate::search::find_slots;
use crate::size::{capacity_of, reserve_answer};
use crate::slot::Slot;

/// A multimap from hashes to handles over slots that the caller brings.
#[derive(Drop)]
pub struct Table<'a, X> {
    slots: &'a mut [Slot<X>],
    len: usize,
    capacity: usize,
    ghost sound: { Sound slots.now len },
    ghost sized: { capacity ≡ room (length slots.now) },
}

impl<'a, X: Handle> Table<'a, X> {
    /// Opens a table over slots, which it leaves empty.
    pub fn open(slots: &'a mut [Slot<X>]) -> Table<'a, X>
        ensures { result.slots.now ≡ cleared slots.old }
    {
        empty_all(slots);
        let capacity = capacity_of(slots.len());
        Table {
            slots,
            len: 0,
            capacity,
        }
    }

    /// The number of entries.
    pub fn len(&self) -> usize
        ensures { result ≡ occupied self.now.slots.now }
    {
        self.len
    }

    /// How many entries the slots take.
    pub fn capacity(&self) -> usize
        ensures { result ≡ room (length self.now.slots.now) }
    {
        self.capacity
    }

    /// The slots as they are.
    pub fn slots(&self) -> &[Slot<X>]
        ensures { result.now ≡ self.now.slots.now }
    {
        &*self.slots
    }

    /// A reader of the candidates of a hash.
    pub fn get(&self, hash: u64) -> Reader<'_, X>
        ensures { to_come result.probe.slots.now result.probe.home result.probe.print result.displacement ≡ candidates self.now.slots.now hash }
    {
        read_slots(&*self.slots, self.len, hash)
    }

    /// The first candidate of a hash that is sought.
    pub fn find<S: Sought<X>>(&self, hash: u64, sought: &S) -> Option<X>
        ensures { result ≡ first_by (S.Sought.fits sought.now) (candidates self.now.slots.now hash) }
    {
        find_slots(&*self.slots, self.len, hash, sought)
    }

    /// Inserts a handle under a hash, or refuses where the table is full.
    pub fn insert(&mut self, hash: u64, handle: X) -> Result<(), TableRefusal>
        ensures { Inserts self.old.slots.now hash handle result self.new.slots.now }
    {
        insert_slots(self.slots, &mut self.len, self.capacity, hash, handle)
    }

    /// Removes the first candidate of a hash with a handle, and says whether there was one.
    pub fn remove(&mut self, hash: u64, handle: X) -> bool
        ensures { Removes X.Handle.meaning self.old.slots.now hash handle result self.new.slots.now }
    {
        remove_slots(self.slots, &mut self.len, hash, handle)
    }

    /// Removes every entry.
    pub fn clear(&mut self)
        ensures { self.new.slots.now ≡ cleared self.old.slots.now }
    {
        empty_all(self.slots);
        self.len = 0;
    }

    /// Makes room for further entries: where there is too little, rebuilds the table in the brought slots
    /// and leaves the old ones, as they were, in their place.
    pub fn reserve<R: Rehash<X>>(
        &mut self,
        wanted: usize,
        rule: &R,
        brought: &mut &'a mut [Slot<X>],
    ) -> Result<Reserved, TableRefusal>
        ensures { Reserves (λ x. R.Rehash.rehashed rule.now (X.Handle.meaning x)) self.old.slots.now wanted brought.old.now result self.new.slots.now brought.new.now }
    {
        let count = brought.len();
        let reserved = reserve_answer(self.capacity, self.len, wanted, count)?;
        if reserved == Reserved::Rebuilt {
            rebuild_in(self, rule, brought);
            std::mem::swap(&mut self.slots, brought);
            self.capacity = capacity_of(count);
        }
        Ok(reserved)
    }
}

/// Places every entry of a table anew in fresh slots.
fn rebuild_in<X: Handle, R: Rehash<X>>(table: &Table<'_, X>, rule: &R, fresh: &mut &mut [Slot<X>])
    requires size { allowed (length fresh.old.now) ≡ true }
    requires room { occupied table.now.slots.now ≤ room (length fresh.old.now) }
    ensures slots { fresh.new.now ≡ rebuilt (λ x. R.Rehash.rehashed rule.now (X.Handle.meaning x)) (cleared fresh.old.now) table.now.slots.now }
    ensures sound { Sound fresh.new.now (occupied table.now.slots.now) }
    ensures count { length fresh.new.now ≡ length fresh.old.now }
{
    rebuild(&*table.slots, rule, fresh)
}
