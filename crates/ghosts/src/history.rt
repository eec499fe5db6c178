//! What is asked of Ghost, and done to it.

ghost use Rattle.std.specs.Prelude.{◌≡◌, ℕ, ◌≤◌, min, [], length, MatchOption};
ghost use Rattle.links.specs.Rows.{without};
ghost use Rattle.ghosts.specs.Remembered.{remembered, holds_node, Pushed};
ghost use Rattle.ghosts.specs.Notes.{Chosen};

use crate::noted::Noted;
use crate::notes::Notes;
use crate::queue::GhostQueue;
use links::Line;

/// The lists of the line; each is told to the line by its number.
#[derive(Clone, Copy)]
enum List {
    Remembered,
    Spare,
}

impl GhostQueue {
    /// An empty history of at most so many keys, and at most 512.
    pub fn new(capacity: u16) -> Self
        ensures empty { remembered result ≡ [] }
        ensures capacity { result.notes.capacity ≡ min capacity 512 }
    {
        GhostQueue {
            notes: Notes {
                line: Line::new(),
                opened: 0,
                capacity: capacity.min(512),
            },
        }
    }

    /// How many keys are remembered.
    pub fn len(&self) -> u16
        ensures { result ≡ length (remembered self.now) }
    {
        self.notes.line.len(List::Remembered as u8)
    }

    /// Whether a node remembers a key.
    pub fn holds(&self, node: u16) -> bool
        ensures { result ≡ holds_node node (remembered self.now) }
    {
        self.notes.line.home(node) == Some(List::Remembered as u8)
    }

    /// Forgets the key of a node; false if it has none.
    pub fn discard(&mut self, node: u16) -> bool
        ensures answer { result ≡ holds_node node (remembered self.old) }
        ensures forgets { remembered self.new ≡ without node (remembered self.old) }
        ensures capacity { self.new.notes.capacity ≡ self.old.notes.capacity }
    {
        let held = self.holds(node);
        if held {
            self.notes.line.push_front(node, List::Spare as u8);
        }
        held
    }

    /// Makes a node the newest: a spare one, else the next never opened, else the oldest. None if
    /// nothing may be remembered.
    pub fn push(&mut self) -> Option<Noted>
        ensures pushed { MatchOption result (self.old.notes.capacity ≡ 0) (λ n. Pushed self.old.notes.capacity (remembered self.old) (remembered self.new) n) }
        ensures capacity { self.new.notes.capacity ≡ self.old.notes.capacity }
    {
        let noted = self.next_noted()?;
        self.notes
            .line
            .push_front(noted.node, List::Remembered as u8);
        // A node that is used for the first time counts as opened from here on.
        self.notes.opened = self.notes.opened.max(noted.node + 1);
        Some(noted)
    }

    /// The node that a push makes the newest.
    fn next_noted(&self) -> Option<Noted>
        ensures { Chosen self.now.notes result }
    {
        let unopened = (self.notes.opened < self.notes.capacity).then_some(self.notes.opened);
        if let Some(node) = self.notes.line.first(List::Spare as u8).or(unopened) {
            return Some(Noted {
                node,
                forgot: false,
            });
        }
        let node = self.notes.line.last(List::Remembered as u8)?;
        Some(Noted { node, forgot: true })
    }
}
