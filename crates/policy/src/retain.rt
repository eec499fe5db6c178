//! Dropping several places at once.

ghost use Rattle.std.specs.Prelude.{◌≡◌};
ghost use Rattle.machine.specs.Replacement.{drops, highest_first};
ghost use Rattle.queues.specs.Held.{held};
ghost use Rattle.policy.specs.View.{flagged};

use queues::Residents;

/// Releases the places of the flagged residents in rising order, so that the highest is on top of the
/// free stack.
pub(crate) fn release_flagged(residents: &mut Residents, flags: &[bool; 512])
    ensures held { held residents.new ≡ drops (highest_first (λ q. q)) (λ q. q) (flagged flags.now) (held residents.old) }
    ensures window { residents.new.slots.window ≡ residents.old.slots.window }
{
    for place in 0..residents.opened() {
        if flags[place as usize] {
            residents.release(place);
        }
    }
}
