//! The calls of the policy but for the insertion.

ghost use Rattle.std.specs.Prelude.{◌≡◌, ◌≤◌, nat_eq};
ghost use Rattle.machine.specs.Replacement.{uses, drops, forgets, nothing, highest_first};
ghost use Rattle.queues.specs.Held.{locate, resides};
ghost use Rattle.ghosts.specs.Remembered.{holds_node};
ghost use Rattle.policy.specs.View.{view, allowed, flagged, Limited};

use crate::makeup::{Core, MainRing, SmallQueue};
use crate::policy::Policy;
use crate::retain::release_flagged;
use ghosts::GhostQueue;
use machine::limits::Limits;
use queues::Residents;
use queues::location::Location;

/// A policy of this capacity with nothing in it.
fn empty(capacity: u16) -> Core
    requires { capacity ≤ 512 }
    ensures view { view result ≡ nothing }
    ensures capacity { result.capacity ≡ capacity }
    ensures limited { Limited result }
{
    let limits = Limits::of(capacity as usize);
    Core {
        residents: Residents::new(limits.window as u8),
        ghosts: GhostQueue::new(limits.ghost_keys as u16),
        small: SmallQueue {
            capacity: limits.small as u16,
        },
        main: MainRing {
            capacity: limits.main as u16,
        },
        capacity,
    }
}

impl Policy {
    /// A policy of this capacity, or of capacity 0 if it is above 512.
    pub fn open(capacity: usize) -> Self
        ensures view { view result.core ≡ nothing }
        ensures capacity { result.core.capacity ≡ allowed capacity }
    {
        if capacity <= 512 {
            Policy {
                core: empty(capacity as u16),
            }
        } else {
            Policy { core: empty(0) }
        }
    }

    /// The maximum number of residents.
    pub fn capacity(&self) -> usize
        ensures { result ≡ self.now.core.capacity }
    {
        self.core.capacity as usize
    }

    /// How many places were ever opened.
    pub fn opened(&self) -> usize
        ensures { result ≡ (view self.now.core).opened }
    {
        self.core.residents.opened() as usize
    }

    /// The part that holds a place.
    pub fn location(&self, place: u16) -> Location
        ensures { result ≡ locate place (view self.now.core) }
    {
        self.core.residents.location(place)
    }

    /// Whether a node of Ghost remembers a key.
    pub fn remembers(&self, node: u16) -> bool
        ensures { result ≡ holds_node node (view self.now.core).remembered }
    {
        self.core.ghosts.holds(node)
    }

    /// A use of the resident of a place.
    pub fn hit(&mut self, place: u16)
        ensures view { view self.new.core ≡ uses (λ q. nat_eq q place) (view self.old.core) }
        ensures capacity { self.new.core.capacity ≡ self.old.core.capacity }
    {
        self.core.residents.hit(place);
    }

    /// Puts the place of a resident onto the free stack; false if the place is not a resident's.
    pub fn remove(&mut self, place: u16) -> bool
        ensures answer { result ≡ resides place (view self.old.core) }
        ensures view { view self.new.core ≡ drops (λ _ ps. ps) (λ q. q) (λ q. nat_eq q place) (view self.old.core) }
        ensures capacity { self.new.core.capacity ≡ self.old.core.capacity }
    {
        self.core.residents.release(place)
    }

    /// Puts the places of all flagged residents onto the free stack, in rising order.
    pub fn remove_flagged(&mut self, flags: &[bool; 512])
        ensures view { view self.new.core ≡ drops (highest_first (λ q. q)) (λ q. q) (flagged flags.now) (view self.old.core) }
        ensures capacity { self.new.core.capacity ≡ self.old.core.capacity }
    {
        release_flagged(&mut self.core.residents, flags);
    }

    /// Forgets the key of a node of Ghost; false if it has none.
    pub fn discard(&mut self, node: u16) -> bool
        ensures answer { result ≡ holds_node node (view self.old.core).remembered }
        ensures view { view self.new.core ≡ forgets (λ q. nat_eq q node) (view self.old.core) }
        ensures capacity { self.new.core.capacity ≡ self.old.core.capacity }
    {
        self.core.ghosts.discard(node)
    }

    /// Forgets everything: the policy is as it was opened.
    pub fn clear(&mut self)
        ensures view { view self.new.core ≡ nothing }
        ensures capacity { self.new.core.capacity ≡ self.old.core.capacity }
    {
        self.core = empty(self.core.capacity);
    }
}
