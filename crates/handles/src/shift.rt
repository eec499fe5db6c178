ghost use Rattle.std.specs.Prelude.{◌≡◌, ℕ, ◌+◌, ◌%◌, ◌<◌, ◌≤◌, true, length};
ghost use Rattle.handles.specs.Slots.{rank, Movable};
ghost use Rattle.handles.specs.Shift.{pushed, run, erased};
ghost use Rattle.handles.specs.Carry.{Carries};
ghost use Rattle.handles.specs.declared.slot.Slot.{Slot as SlotOf};

use crate::probe::rank;
use crate::slot::{EMPTY, Slot, UNIT};

/// Puts an entry into a slot and moves the run that begins there forward, each entry by one slot.
pub(crate) fn push_forward<X: Copy>(slots: &mut [Slot<X>], at: usize, entry: Slot<X>)
    requires movable { Movable slots.old }
    requires within { at < length slots.old }
    requires carries { Carries (length slots.old) slots.old at entry }
    ensures { slots.new ≡ pushed (length slots.old) slots.old at (run (length slots.old) slots.old at) entry }
{
    let mask = slots.len() - 1;
    let mut slot = at;
    let mut carried = entry;
    // Round the ring, up to what stands in the slots, so by no range.
    'run: loop {
        let displaced = slots[slot];
        slots[slot] = carried;
        if displaced.meta == EMPTY {
            break;
        }
        carried = Slot {
            meta: displaced.meta + UNIT,
            handle: displaced.handle,
        };
        slot = (slot + 1) & mask;
    }
}

/// Empties a slot and moves the entries after it back by one slot each, up to one at its home.
pub(crate) fn pull_back<X: Copy>(slots: &mut [Slot<X>], at: usize)
    requires movable { Movable slots.old }
    requires within { at < length slots.old }
    requires taken { 0 < rank (length slots.old) slots.old at }
    ensures { (d : SlotOf X) → slots.new ≡ erased slots.old at d }
{
    let mask = slots.len() - 1;
    let mut hole = at;
    // Round the ring, up to what stands in the slots, so by no range.
    'run: loop {
        let next = (hole + 1) & mask;
        let follower = slots[next];
        if rank(follower.meta) <= 1 {
            break;
        }
        slots[hole] = Slot {
            meta: follower.meta - UNIT,
            handle: follower.handle,
        };
        hole = next;
    }
    slots[hole].meta = EMPTY;
}
