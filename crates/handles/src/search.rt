ghost use Rattle.std.specs.Prelude.{◌≡◌, true};
ghost use Rattle.handles.specs.Meaning.{alike};
ghost use Rattle.handles.specs.Slots.{Sound};
ghost use Rattle.handles.specs.Seek.{candidates, first_by};

use crate::handle::{Handle, Sought};
use crate::probe::Probe;
use crate::slot::Slot;

/// The search that takes every candidate.
#[derive(Clone, Copy)]
pub(crate) struct Anything;

impl<X: Copy> Sought<X> for Anything {
    ghost fits = { λ _ _. true };

    fn matches(&self, _handle: X) -> bool {
        true
    }
}

/// The search for handles that mean the same as one.
#[derive(Drop)]
pub struct Alike<X> {
    pub handle: X,
}

impl<X: Handle> Sought<X> for Alike<X> {
    ghost fits = { λ s x. alike (X.Handle.meaning x) (X.Handle.meaning s.handle) };

    fn matches(&self, handle: X) -> bool {
        handle.same(&self.handle)
    }
}

/// The first candidate of a hash that is sought.
pub(crate) fn find_slots<X: Copy, S: Sought<X>>(
    slots: &[Slot<X>],
    len: usize,
    hash: u64,
    sought: &S,
) -> Option<X>
    requires { Sound slots.now len }
    ensures { result ≡ first_by (S.Sought.fits sought.now) (candidates slots.now hash) }
{
    let probe = Probe::over(slots, len, hash);
    let displacement = probe.seek(0, sought)?;
    Some(probe.handle_at(displacement))
}
