//! Main: the hand and its sweep.

ghost use Rattle.std.specs.Prelude.{◌≡◌};
ghost use Rattle.machine.specs.Replacement.{sweep as swept};
ghost use Rattle.queues.specs.Held.{held};
ghost use Rattle.queues.specs.Steps.{turned, passed, hand_at, told};

use crate::lists::List;
use crate::residents::Residents;
use crate::selected::Selected;
use crate::state::Event;

impl Residents {
    /// The place at the hand, and whether its resident is used.
    fn hand(&self) -> Option<(u16, bool)>
        ensures { result ≡ hand_at (held self.now).main }
    {
        let place = self.slots.line.first(List::Main as u8)?;
        Some((place, self.slots.places[place as usize].state.is_used()))
    }

    /// The hand gives the first of Main a chance and passes it.
    fn pass(&mut self)
        ensures held { held self.new ≡ passed (held self.old).main (held self.old) }
        ensures window { self.new.slots.window ≡ self.old.slots.window }
    {
        if let Some(place) = self.slots.line.first(List::Main as u8) {
            self.slots.places[place as usize].meet(Event::Chance);
            self.slots.line.push_back(place, List::Main as u8);
        }
    }

    /// Sweeps the hand to the first of Main that is not used.
    pub fn sweep(&mut self) -> Option<Selected>
        ensures answer { result ≡ told (swept (held self.old).main) }
        ensures held { held self.new ≡ turned (swept (held self.old).main) (held self.old) }
        ensures window { self.new.slots.window ≡ self.old.slots.window }
    {
        let mut chances = 0;
        let victim = loop {
            let (place, used) = self.hand()?;
            if !used {
                break place;
            }
            self.pass();
            chances += 1;
        };
        Some(Selected { victim, chances })
    }
}
