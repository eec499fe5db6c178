//! The lists of the line by name.

ghost use Rattle.std.specs.Prelude.{◌≡◌};
ghost use Rattle.queues.specs.Held.{part_at};
ghost use Rattle.queues.specs.Lists.{number_of, Numbered};

use crate::location::Location;

/// The lists of the line; each is told to the line by its number.
#[derive(Clone, Copy)]
pub(crate) enum List {
    /// Newcomers of Small whose window is still open, newest first.
    Young,
    /// The others of Small, newest first.
    Old,
    /// Main, from the hand on.
    Main,
    /// The free stack, from its top.
    Free,
}

/// A number that no list has.
#[derive(Clone, Copy)]
pub(crate) struct NoList;

impl TryFrom<u8> for List {
    type Error = NoList;

    ghost try_from_gives = { Numbered };

    fn try_from(number: u8) -> Result<Self, NoList> {
        match number {
            0 => Ok(List::Young),
            1 => Ok(List::Old),
            2 => Ok(List::Main),
            3 => Ok(List::Free),
            _ => Err(NoList),
        }
    }
}

impl From<List> for Location {
    ghost from_gives = { λ l r. r ≡ part_at (number_of l) };

    fn from(list: List) -> Location {
        match list {
            List::Young | List::Old => Location::Small,
            List::Main => Location::Main,
            List::Free => Location::Free,
        }
    }
}
