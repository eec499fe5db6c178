//! What is kept for every place.

ghost use Rattle.std.specs.Prelude.{◌≡◌};
ghost use Rattle.queues.specs.State.{met, with_state};

use crate::state::{Event, SlotState};
use links::Line;

/// What is kept for one place.
#[derive(Clone, Copy)]
pub struct ResidentSlot {
    pub(crate) state: SlotState,
    /// Modular number of the admission to Small, for the young.
    pub(crate) admitted: u8,
}

impl ResidentSlot {
    /// Its state takes an event.
    pub(crate) fn meet(&mut self, event: Event)
        ensures { self.new ≡ with_state self.old (met self.old.state event) }
    {
        self.state.meet(event);
    }
}

/// The lists of places, the slot of each, and the counts.
#[derive(Drop)]
pub struct Slots {
    /// Young and others of Small, Main, and the free stack.
    pub(crate) line: Line,
    pub(crate) places: [ResidentSlot; 512],
    /// Modular count of the admissions to Small.
    pub(crate) admissions: u8,
    /// How many places were ever opened; also the next.
    pub(crate) opened: u16,
    /// How many newcomers close a window.
    pub(crate) window: u8,
}
