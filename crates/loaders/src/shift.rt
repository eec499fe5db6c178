//! The shift: a loader whose stations are moved by an offset.

ghost use Rattle.std.specs.Prelude.{◌≡◌, ◌+ℤ◌};
ghost use Rattle.loaders.specs.Layer.{fitting, moved, shifted};

use crate::fault::{Cause, Fault, handed_up};
use crate::loader::Loader;
use keys::kind::Key;
use survey::station::Station;

/// Adds `offset` to each station of `below`.
#[derive(Clone, Copy)]
pub struct Shift<L> {
    pub below: L,
    pub offset: Station,
}

/// The sum of two coordinates, where it fits 32 bits.
fn add(coordinate: i32, offset: i32) -> Option<i32>
    ensures { result ≡ fitting (coordinate +ℤ offset) }
{
    coordinate.checked_add(offset)
}

/// The sum of two places, where each coordinate fits 32 bits.
fn sum(station: Station, offset: Station) -> Option<Station>
    ensures { result ≡ moved station offset }
{
    let east = add(station.east, offset.east)?;
    let north = add(station.north, offset.north)?;
    let up = add(station.up, offset.up)?;
    Some(Station { east, north, up })
}

impl<K: Key, L: Loader<K, Station>> Loader<K, Station> for Shift<L> {
    ghost given = { λ layer word. shifted layer.offset (L.Loader.given layer.below word) };

    fn ask(&mut self, key: &K) -> Result<Station, Fault> {
        let station = handed_up(self.below.ask(key))?;
        sum(station, self.offset).ok_or(Fault::new(Cause::OutOfRange))
    }
}
