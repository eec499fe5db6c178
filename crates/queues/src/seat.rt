//! How a newcomer takes its seat.

ghost use Rattle.std.specs.Prelude.{◌≡◌, ℕ, ◌<◌, length};
ghost use Rattle.links.specs.Rows.{first_of, last_of};
ghost use Rattle.queues.specs.Slots.{list_of, age_of};
ghost use Rattle.queues.specs.Seats.{Joined, closing};
ghost use Rattle.queues.specs.Held.{held};
ghost use Rattle.queues.specs.Steps.{seated_top};

use crate::lists::List;
use crate::residents::Residents;
use crate::slots::{ResidentSlot, Slots};
use crate::state::{Event, SlotState};
use machine::report::Part;

/// How many have joined Small since the resident of a place did.
fn age(slots: &Slots, place: u16) -> u8
    requires { place < 512 }
    ensures { result ≡ age_of slots.now place }
{
    slots
        .admissions
        .wrapping_sub(slots.places[place as usize].admitted)
}

/// Puts a place first in Small. Its number of admission goes round, but only the age of the young is
/// read off it, and none of them is as old as a round.
fn join_small(slots: &mut Slots, place: u16)
    requires { place < 512 }
    ensures { Joined slots.old slots.new place }
{
    slots.admissions = slots.admissions.wrapping_add(1);
    slots.places[place as usize] = ResidentSlot {
        state: SlotState::Young,
        admitted: slots.admissions,
    };
    slots.line.push_front(place, List::Young as u8);
}

/// Closes the window of the oldest of the young, if enough newcomers have joined since. After one
/// newcomer no other can be that old, since no two have one age.
fn close_window(slots: &mut Slots)
    requires { length slots.old.places ≡ 512 }
    ensures { closing slots.old slots.new (last_of (list_of 0 slots.old)) }
{
    if let Some(oldest) = slots.line.last(List::Young as u8)
        && age(slots, oldest) >= slots.window
    {
        slots.places[oldest as usize].meet(Event::WindowClosed);
        slots.line.push_front(oldest, List::Old as u8);
    }
}

impl Residents {
    /// Seats a newcomer in the place on top of the free stack.
    pub fn seat(&mut self, part: Part) -> Option<u16>
        ensures answer { result ≡ first_of (held self.old).free }
        ensures held { held self.new ≡ seated_top self.old.slots.window part (held self.old).free (held self.old) }
        ensures window { self.new.slots.window ≡ self.old.slots.window }
    {
        let place = self.top()?;
        match part {
            Part::Small => {
                join_small(&mut self.slots, place);
                close_window(&mut self.slots);
            }
            Part::Main => {
                self.slots.line.push_back(place, List::Main as u8);
                self.slots.places[place as usize].state = SlotState::Plain;
            }
        }
        Some(place)
    }
}
