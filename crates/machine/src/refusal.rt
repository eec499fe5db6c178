//! Why a call of the cache was refused.

ghost use Rattle.std.specs.Prelude.{◌≡◌};
ghost use Rattle.machine.specs.declared.refusal.Refusal.TheVariants.{NotLoaded};
ghost use Rattle.machine.specs.Refusal.{refusal_number};

use loaders::fault::Fault;

/// The refusals of the cache; each changes nothing.
#[derive(Clone, Copy, PartialEq, Eq, Debug)]
pub enum Refusal {
    /// A table without a record was measured.
    NoRecords,
    /// A table of this many records, more than 512, was measured.
    TooManyRecords(usize),
    /// A put, fetch or claim came to a cache of capacity 0.
    NoCapacity,
    /// A write came for a key that this place does not hold.
    NotInPlace(usize),
    /// A fetch found its key absent, and the loader refused it with this fault.
    NotLoaded(Fault),
}

impl Refusal {
    /// The refusal's number in the refusal table.
    pub fn number(&self) -> u8
        ensures { result ≡ refusal_number self.now }
    {
        match self {
            Refusal::NoRecords => 1,
            Refusal::TooManyRecords(_) => 2,
            Refusal::NoCapacity => 3,
            Refusal::NotInPlace(_) => 4,
            Refusal::NotLoaded(_) => 5,
        }
    }
}

/// The refusal of a fetch whose loader refused.
impl From<Fault> for Refusal {
    ghost from_gives = { λ fault why. why ≡ NotLoaded fault };

    fn from(fault: Fault) -> Self {
        Refusal::NotLoaded(fault)
    }
}
