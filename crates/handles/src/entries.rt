ghost use Rattle.std.specs.Prelude.{◌≡◌, ℕ, ◌<◌, true, length};
ghost use Rattle.handles.specs.Slots.{Movable};
ghost use Rattle.handles.specs.Shift.{inserted, cleared};

use crate::probe::Probe;
use crate::shift::push_forward;
use crate::slot::{EMPTY, Slot};

/// Leaves every slot empty.
pub(crate) fn empty_all<X: Copy>(slots: &mut [Slot<X>])
    ensures { slots.new ≡ cleared slots.old }
{
    for slot in slots.iter_mut() {
        slot.meta = EMPTY;
    }
}

/// Puts an entry where its walk stops, and moves the run there forward.
pub(crate) fn place<X: Copy>(slots: &mut [Slot<X>], hash: u64, handle: X)
    requires { Movable slots.old }
    ensures { slots.new ≡ inserted slots.old hash handle }
{
    let probe = Probe::new(slots, hash);
    let (slot, displacement) = probe.walk();
    let meta = displacement * 256 + probe.print;
    push_forward(slots, slot, Slot { meta, handle });
}
