use handles::TableRefusal;

/// One call on a table of places.
#[derive(Clone, Copy, PartialEq, Eq, Debug)]
pub enum Call {
    Insert { hash: u64, place: u16 },
    Remove { hash: u64, place: u16 },
    Clear,
    Read { hash: u64 },
}

/// What a call answers; a read, the sum of what it read.
#[derive(Clone, Copy, PartialEq, Eq, Debug)]
pub enum Answer {
    Inserted(Result<(), TableRefusal>),
    Removed(bool),
    Cleared,
    Read(u64),
}
