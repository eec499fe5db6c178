//! Small: its tail, and the way on to Main.

ghost use Rattle.std.specs.Prelude.{◌≡◌};
ghost use Rattle.machine.specs.Replacement.{ended, is_tail_used};
ghost use Rattle.queues.specs.Held.{held};
ghost use Rattle.queues.specs.Steps.{place_of, promoted};

use crate::lists::List;
use crate::residents::Residents;
use crate::state::Event;

impl Residents {
    /// The place of Small's last.
    pub fn tail(&self) -> Option<u16>
        ensures { result ≡ place_of (ended (held self.now).small) }
    {
        self.slots
            .line
            .last(List::Old as u8)
            .or(self.slots.line.last(List::Young as u8))
    }

    /// Whether Small's last has earned promotion.
    pub fn tail_used(&self) -> bool
        ensures { result ≡ is_tail_used (ended (held self.now).small) }
    {
        self.tail().map_or(
            false,
            |place| self.slots.places[place as usize].state.is_used(),
        )
    }

    /// Moves Small's last to Main's end.
    pub fn promote_tail(&mut self)
        ensures held { held self.new ≡ promoted (ended (held self.old).small) (held self.old) }
        ensures window { self.new.slots.window ≡ self.old.slots.window }
    {
        if let Some(place) = self.tail() {
            self.slots.places[place as usize].meet(Event::Promotion);
            self.slots.line.push_back(place, List::Main as u8);
        }
    }
}
