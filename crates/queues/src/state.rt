//! What a slot remembers of the uses of its resident.

ghost use Rattle.std.specs.Prelude.{◌≡◌};
ghost use Rattle.queues.specs.State.{met, was_used};

/// The state of a slot, from which its resident's mark is read.
#[derive(Clone, Copy, PartialEq, Eq)]
pub enum SlotState {
    /// Not used since it last became plain.
    Plain,
    /// A newcomer of Small whose window is still open.
    Young,
    /// Used since it last became plain.
    Used,
}

/// What happens to a resident.
#[derive(Clone, Copy, PartialEq, Eq)]
pub enum Event {
    /// A call used it.
    Hit,
    /// As many newcomers as the window counts have joined Small after it.
    WindowClosed,
    /// The hand of Main passed it.
    Chance,
    /// It moved from Small to Main.
    Promotion,
}

impl SlotState {
    /// Takes an event.
    pub fn meet(&mut self, event: Event)
        ensures { self.new ≡ met self.old event }
    {
        *self = match (*self, event) {
            (SlotState::Plain, Event::Hit) => SlotState::Used,
            (SlotState::Young, Event::WindowClosed) => SlotState::Plain,
            (SlotState::Used, Event::Chance) => SlotState::Plain,
            (_, Event::Promotion) => SlotState::Plain,
            (unchanged, _) => unchanged,
        };
    }

    /// Whether a use counts against eviction.
    pub fn is_used(&self) -> bool
        ensures { result ≡ was_used self.now }
    {
        matches!(self, SlotState::Used)
    }
}
