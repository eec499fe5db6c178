ghost use Rattle.std.specs.Prelude.{◌≡◌, get_or};
ghost use Rattle.handles.specs.Kinds.{place_meaning, line_meaning, listed, mixed};

use crate::handle::{Handle, Rehash};

/// The place of a record.
#[derive(Clone, Copy, PartialEq, Eq, Debug)]
pub struct Place(pub u16);

impl Handle for Place {
    ghost meaning = { place_meaning };

    fn same(&self, other: &Place) -> bool {
        self == other
    }
}

/// A line of a sheet: the sheet's number and the line's.
#[derive(Clone, Copy, PartialEq, Eq, Debug)]
pub struct SheetLine {
    pub sheet: u16,
    pub line: u16,
}

impl Handle for SheetLine {
    ghost meaning = { line_meaning };

    fn same(&self, other: &SheetLine) -> bool {
        self == other
    }
}

/// The rehash rule of places: a hash listed for each place, and 0 past the list's end.
#[derive(Clone, Copy)]
pub struct ListedHashes<'a> {
    pub hashes: &'a [u64],
}

impl Rehash<Place> for ListedHashes<'_> {
    ghost rehashed = { λ s m. listed s.hashes.now m };

    fn hash_of(&self, handle: &Place) -> u64 {
        self.hashes.get(handle.0 as usize).copied().unwrap_or(0)
    }
}

/// The rehash rule of sheet lines: both numbers and a seed, mixed by multiplication.
#[derive(Clone, Copy)]
pub struct MixedHashes {
    pub seed: u64,
}

impl Rehash<SheetLine> for MixedHashes {
    ghost rehashed = { λ s m. mixed s.seed m };

    fn hash_of(&self, handle: &SheetLine) -> u64 {
        let both = handle.sheet as u64 * 65536 + handle.line as u64;
        (both ^ self.seed).wrapping_mul(0x9E37_79B9_7F4A_7C15)
    }
}
