ghost use Rattle.std.specs.Prelude.{◌≡◌, ℕ, ◌+◌, ◌-◌, ◌%◌, ◌<◌, ◌≤◌, true, length, IfSome, slice_index_or};
ghost use Rattle.handles.specs.Slots.{rank_of, allowed, occupied, fingerprint, Sound};
ghost use Rattle.handles.specs.Walk.{stop};
ghost use Rattle.handles.specs.Seek.{seek_from, to_come, candidates};
ghost use Rattle.handles.specs.declared.slot.Slot.{Slot as SlotOf};

use crate::handle::Sought;
use crate::size::{home_of, print_of};
use crate::slot::{EMPTY, Slot};

/// The displacement of the entry with this meta plus one; 0 for an empty slot.
pub(crate) fn rank(meta: u32) -> u32
    ensures { result ≡ rank_of meta }
{
    if meta == EMPTY { 0 } else { (meta >> 8) + 1 }
}

/// The way of a hash through slots: its home, and the fingerprint that its candidates bear.
#[derive(Drop)]
pub struct Probe<'a, X> {
    slots: &'a [Slot<X>],
    home: usize,
    pub(crate) print: u32,
    ghost sized: { allowed (length slots.now) ≡ true },
    ghost within: { home ≤ length slots.now - 1 },
    ghost byte: { print < 256 },
}

impl<'a, X: Copy> Probe<'a, X> {
    /// The probe of a hash over one slot or more.
    pub(crate) fn new(slots: &'a [Slot<X>], hash: u64) -> Probe<'a, X>
        requires size { allowed (length slots.now) ≡ true }
        requires some { 0 < length slots.now }
        ensures slots { result.slots.now ≡ slots.now }
        ensures home { result.home ≡ hash % length slots.now }
        ensures print { result.print ≡ fingerprint hash }
    {
        Probe {
            slots,
            home: home_of(slots.len(), hash),
            print: print_of(hash),
        }
    }

    /// The probe of a hash over sound slots; over none where they hold nothing.
    pub(crate) fn over(slots: &'a [Slot<X>], len: usize, hash: u64) -> Probe<'a, X>
        requires { Sound slots.now len }
        ensures { to_come result.slots.now result.home result.print 0 ≡ candidates slots.now hash }
    {
        if len == 0 {
            return Probe {
                slots: &slots[0..0],
                home: 0,
                print: 0,
            };
        }
        Probe::new(slots, hash)
    }

    /// The slot at a displacement from home.
    pub(crate) fn slot_at(&self, displacement: u32) -> usize
        requires { displacement < length self.now.slots.now }
        ensures { result ≡ (self.now.home + displacement) % length self.now.slots.now }
    {
        (self.home + displacement as usize) & (self.slots.len() - 1)
    }

    /// The handle at a displacement from home.
    pub(crate) fn handle_at(&self, displacement: u32) -> X
        requires { displacement < length self.now.slots.now }
        ensures { (s : SlotOf X) → result ≡ (slice_index_or self.now.slots.now ((self.now.home + displacement) % length self.now.slots.now) s).handle }
    {
        self.slots[self.slot_at(displacement)].handle
    }

    /// The slot and the displacement at which the walk stops.
    pub(crate) fn walk(&self) -> (usize, u32)
        requires { occupied self.now.slots.now < length self.now.slots.now }
        ensures short { result.1 < length self.now.slots.now }
        ensures displacement { result.1 ≡ stop (length self.now.slots.now) self.now.slots.now self.now.home }
        ensures slot { result.0 ≡ (self.now.home + result.1) % length self.now.slots.now }
    {
        let slots = self.slots;
        let mask = slots.len() - 1;
        let mut slot = self.home;
        let mut displacement = 0;
        // The slot goes round beside the displacement, and both are the answer, so the loop is no range.
        'probe: loop {
            if rank(slots[slot].meta) <= displacement {
                break (slot, displacement);
            }
            slot = (slot + 1) & mask;
            displacement += 1;
        }
    }

    /// The displacement, from `from` on, of the first candidate that is sought.
    pub(crate) fn seek<S: Sought<X>>(&self, from: u32, sought: &S) -> Option<u32>
        ensures value { result ≡ seek_from (S.Sought.fits sought.now) (length self.now.slots.now) self.now.slots.now self.now.home self.now.print (length self.now.slots.now - from) from }
        ensures short { IfSome result (λ d. (from ≤ d) × (d < length self.now.slots.now)) }
    {
        for displacement in from..self.slots.len() as u32 {
            let x = self.slots[self.slot_at(displacement)];
            if rank(x.meta) <= displacement {
                return None;
            }
            if x.meta == displacement * 256 + self.print && sought.matches(x.handle) {
                return Some(displacement);
            }
        }
        None
    }
}
