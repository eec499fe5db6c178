ghost use Rattle.std.specs.Prelude.{◌≡◌, ℕ, ◌≤◌, true, length};
ghost use Rattle.handles.specs.Slots.{allowed, room, occupied, Sound};
ghost use Rattle.handles.specs.Shift.{cleared};
ghost use Rattle.handles.specs.Calls.{Inserts, Removes, rebuilt};

use crate::entries::{empty_all, place};
use crate::handle::{Handle, Rehash};
use crate::probe::Probe;
use crate::refusal::TableRefusal;
use crate::search::Alike;
use crate::shift::pull_back;
use crate::slot::{EMPTY, Slot};

/// Inserts an entry unless the slots hold as many as they take.
pub(crate) fn insert_slots<X: Copy>(
    slots: &mut [Slot<X>],
    len: &mut usize,
    capacity: usize,
    hash: u64,
    handle: X,
) -> Result<(), TableRefusal>
    requires sound { Sound slots.old len.old }
    requires sized { capacity ≡ room (length slots.old) }
    ensures inserts { Inserts slots.old hash handle result slots.new }
    ensures sound { Sound slots.new len.new }
{
    if *len == capacity {
        return Err(TableRefusal::Full { capacity });
    }
    place(slots, hash, handle);
    *len += 1;
    Ok(())
}

/// Removes the first candidate with a handle, and says whether there was one.
pub(crate) fn remove_slots<X: Handle>(
    slots: &mut [Slot<X>],
    len: &mut usize,
    hash: u64,
    handle: X,
) -> bool
    requires { Sound slots.old len.old }
    ensures removes { Removes X.Handle.meaning slots.old hash handle result slots.new }
    ensures sound { Sound slots.new len.new }
{
    if *len == 0 {
        return false;
    }
    let probe = Probe::new(slots, hash);
    let Some(displacement) = probe.seek(0, &Alike { handle }) else {
        return false;
    };
    let slot = probe.slot_at(displacement);
    pull_back(slots, slot);
    *len -= 1;
    true
}

/// Empties fresh slots and places every entry of the old ones anew, in slot order, under a rule's hashes.
pub(crate) fn rebuild<X: Handle, R: Rehash<X>>(old: &[Slot<X>], rule: &R, fresh: &mut [Slot<X>])
    requires size { allowed (length fresh.old) ≡ true }
    requires room { occupied old.now ≤ room (length fresh.old) }
    ensures slots { fresh.new ≡ rebuilt (λ x. R.Rehash.rehashed rule.now (X.Handle.meaning x)) (cleared fresh.old) old.now }
    ensures sound { Sound fresh.new (occupied old.now) }
{
    empty_all(fresh);
    'old: for slot in old {
        if slot.meta != EMPTY {
            let handle = slot.handle;
            place(fresh, rule.hash_of(&handle), handle);
        }
    }
}
