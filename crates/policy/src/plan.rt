//! What an insertion chooses and tells.

ghost use Rattle.std.specs.Prelude.{◌≡◌};
ghost use Rattle.policy.specs.Insertion.{part_of};

use ghosts::noted::Noted;
use machine::report::{Part, Report};

/// Resident partition selected for an incoming key.
#[derive(Clone, Copy, PartialEq, Eq)]
pub enum Admission {
    /// Admit at the head of Small.
    Small,
    /// Admit immediately before the hand of Main.
    Main,
}

/// The part that an admission leads to.
impl From<Admission> for Part {
    ghost from_gives = { λ a p. p ≡ part_of a };

    fn from(admission: Admission) -> Part {
        match admission {
            Admission::Small => Part::Small,
            Admission::Main => Part::Main,
        }
    }
}

/// Storage action selected for one insertion.
#[derive(Clone, Copy, PartialEq, Eq)]
pub enum InsertionPlan {
    /// Use unused capacity.
    Vacant,
    /// Replace one resident.
    Evict {
        /// Resident selected for eviction.
        victim: u16,
    },
    /// Promote a Small resident and replace a separate Main resident.
    PromoteThenEvict {
        /// Small tail retained and moved to Main.
        promoted: u16,
        /// Main resident selected for eviction.
        victim: u16,
    },
}

/// A place vacated by a plan, which is on top of the free stack: the part whose resident left, the
/// chances given, and the node of Ghost that remembers who left Small.
#[derive(Clone, Copy)]
pub struct Vacancy {
    pub plan: InsertionPlan,
    pub left: Option<Part>,
    pub chances: u16,
    pub noted: Option<Noted>,
}

/// What an insertion did: the newcomer's place and part, and how the place was vacated.
#[derive(Clone, Copy)]
pub struct Inserted {
    pub place: u16,
    pub joined: Part,
    pub vacancy: Vacancy,
}

/// What the machine's report tells of an insertion.
impl From<Inserted> for Report {
    ghost from_gives = { λ i r. r ≡ record { place = i.place; joined = i.joined; left = i.vacancy.left; chances = i.vacancy.chances } };

    fn from(inserted: Inserted) -> Report {
        Report {
            place: inserted.place as usize,
            joined: inserted.joined,
            left: inserted.vacancy.left,
            chances: inserted.vacancy.chances as usize,
        }
    }
}
