//! The public call that brings a newcomer in.

ghost use Rattle.std.specs.Prelude.{◌≡◌, ◌≤◌, MatchOption};
ghost use Rattle.policy.specs.View.{view};
ghost use Rattle.policy.specs.Insertion.{Done};

use crate::insert::insert_in;
use crate::plan::Inserted;
use crate::policy::Policy;

impl Policy {
    /// Brings in a newcomer whose key Ghost remembered or not, and has forgotten by now. None, and
    /// nothing changes, if the capacity is 0.
    pub fn insert(&mut self, ghost_hit: bool) -> Option<Inserted>
        ensures done { MatchOption result ((self.old.core.capacity ≡ 0) × (view self.new.core ≡ view self.old.core)) (λ i. (1 ≤ self.old.core.capacity) × Done self.old.core.capacity ghost_hit (view self.old.core) (view self.new.core) i) }
        ensures capacity { self.new.core.capacity ≡ self.old.core.capacity }
    {
        if self.core.capacity == 0 {
            return None;
        }
        Some(insert_in(&mut self.core, ghost_hit))
    }
}
