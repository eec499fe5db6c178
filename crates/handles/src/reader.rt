ghost use Rattle.std.specs.Prelude.{◌≡◌, ℕ, ◌-◌, length};
ghost use Rattle.handles.specs.Slots.{Sound};
ghost use Rattle.handles.specs.Seek.{to_come, Gives, candidates};
ghost use Rattle.std.specs.Iterator.{at_most};

use crate::probe::Probe;
use crate::search::Anything;
use crate::slot::Slot;

/// A reader of the candidates of one hash, in probe order, over slots that are lent to it.
#[derive(Drop)]
pub struct Reader<'a, X> {
    probe: Probe<'a, X>,
    displacement: u32,
}

impl<X: Copy> Iterator for Reader<'_, X> {
    type Item = X;

    ghost next_gives = { λ s r t. Gives r (to_come s.probe.slots.now s.probe.home s.probe.print s.displacement) (to_come t.probe.slots.now t.probe.home t.probe.print t.displacement) };

    ghost remaining = { λ s. at_most (length s.probe.slots.now - s.displacement) };

    fn next(&mut self) -> Option<X> {
        let displacement = self.probe.seek(self.displacement, &Anything)?;
        self.displacement = displacement + 1;
        Some(self.probe.handle_at(displacement))
    }
}

/// A reader of the candidates of a hash in sound slots.
pub(crate) fn read_slots<X: Copy>(slots: &[Slot<X>], len: usize, hash: u64) -> Reader<'_, X>
    requires { Sound slots.now len }
    ensures { to_come result.probe.slots.now result.probe.home result.probe.print result.displacement ≡ candidates slots.now hash }
{
    Reader {
        probe: Probe::over(slots, len, hash),
        displacement: 0,
    }
}
