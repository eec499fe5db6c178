ghost use Rattle.std.specs.Prelude.{◌≡◌};
ghost use Rattle.handles.specs.Refusal.{number_of};

/// What a reservation did.
#[derive(Clone, Copy, PartialEq, Eq, Debug)]
pub enum Reserved {
    /// Nothing: the table had room already.
    Room,
    /// It rebuilt the table in the brought slots.
    Rebuilt,
}

/// Why a table refused, with what it refused.
#[derive(Clone, Copy, PartialEq, Eq, Debug)]
pub enum TableRefusal {
    /// The table holds as many entries as it takes.
    Full {
        capacity: usize,
    },
    /// A slot count that is neither 0 nor a power of two from 16 to 4,096.
    SlotCount {
        slots: usize,
    },
    /// Brought slots that take fewer entries than are held and wanted.
    TooFewSlots {
        capacity: usize,
        entries: usize,
        wanted: usize,
    },
}

impl TableRefusal {
    /// The refusal's number: 9, 10 or 11.
    pub fn number(&self) -> u8
        ensures { result ≡ number_of self.now }
    {
        match self {
            TableRefusal::Full { .. } => 9,
            TableRefusal::SlotCount { .. } => 10,
            TableRefusal::TooFewSlots { .. } => 11,
        }
    }
}
