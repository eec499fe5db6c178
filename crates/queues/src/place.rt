//! What is asked of a place and done to one.

ghost use Rattle.std.specs.Prelude.{◌≡◌, ℕ, ◌<◌, ◌≤◌, max, length, if◌then◌else◌, nat_eq, nat_lt};
ghost use Rattle.links.specs.Rows.{first_of};
ghost use Rattle.machine.specs.Replacement.{uses, nothing};
ghost use Rattle.queues.specs.Held.{held, locate, resides};
ghost use Rattle.queues.specs.Steps.{released, unlocked};

use crate::lists::List;
use crate::location::Location;
use crate::residents::Residents;
use crate::slots::{ResidentSlot, Slots};
use crate::state::{Event, SlotState};
use links::Line;

impl Residents {
    /// No place opened; a window closes at this many newcomers, but at one at least.
    pub fn new(window: u8) -> Self
        ensures held { held result ≡ nothing }
        ensures window { result.slots.window ≡ max window 1 }
    {
        Residents {
            slots: Slots {
                line: Line::new(),
                places: [ResidentSlot {
                    state: SlotState::Plain,
                    admitted: 0,
                }; 512],
                admissions: 0,
                opened: 0,
                window: window.max(1),
            },
        }
    }

    /// How many residents Small has.
    pub fn small_len(&self) -> usize
        ensures { result ≡ length (held self.now).small }
    {
        self.slots.line.len(List::Young as u8) as usize
            + self.slots.line.len(List::Old as u8) as usize
    }

    /// How many residents Main has.
    pub fn main_len(&self) -> usize
        ensures { result ≡ length (held self.now).main }
    {
        self.slots.line.len(List::Main as u8) as usize
    }

    /// How many places were ever opened.
    pub fn opened(&self) -> u16
        ensures { result ≡ (held self.now).opened }
    {
        self.slots.opened
    }

    /// The place on top of the free stack.
    pub fn top(&self) -> Option<u16>
        ensures { result ≡ first_of (held self.now).free }
    {
        self.slots.line.first(List::Free as u8)
    }

    /// The part that holds a place.
    pub fn location(&self, place: u16) -> Location
        ensures { result ≡ locate place (held self.now) }
    {
        let number = self.slots.line.home(place);
        let list = number.and_then(|number| List::try_from(number).ok());
        list.map_or(Location::Free, Location::from)
    }

    /// A use of the resident of a place.
    pub fn hit(&mut self, place: u16)
        ensures held { held self.new ≡ uses (λ q. nat_eq q place) (held self.old) }
        ensures window { self.new.slots.window ≡ self.old.slots.window }
    {
        if (place as usize) < self.slots.places.len() {
            self.slots.places[place as usize].meet(Event::Hit);
        }
    }

    /// Puts the place of a resident onto the free stack; false if the place is not a resident's.
    /// By a call of its own, which keeps the loop of a retain short.
    #[inline(never)]
    pub fn release(&mut self, place: u16) -> bool
        ensures answer { result ≡ resides place (held self.old) }
        ensures held { held self.new ≡ released place (held self.old) }
        ensures window { self.new.slots.window ≡ self.old.slots.window }
    {
        match self.location(place) {
            Location::Free => false,
            Location::Small | Location::Main => {
                self.slots.line.push_front(place, List::Free as u8);
                self.slots.places[place as usize].state = SlotState::Plain;
                true
            }
        }
    }

    /// Opens the next place, onto the free stack; false if all are open.
    pub fn unlock(&mut self) -> bool
        ensures answer { result ≡ nat_lt (held self.old).opened 512 }
        ensures held { held self.new ≡ (if result then unlocked (held self.old) else held self.old) }
        ensures window { self.new.slots.window ≡ self.old.slots.window }
    {
        if self.slots.opened < 512 {
            self.slots
                .line
                .push_front(self.slots.opened, List::Free as u8);
            self.slots.opened += 1;
            true
        } else {
            false
        }
    }
}
