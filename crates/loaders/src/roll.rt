//! The roll: records in a slice, of which the first with the key counts.

ghost use Rattle.std.specs.Prelude.{◌≡◌, map};
ghost use Rattle.loaders.specs.Look.{look, whole};

use crate::fault::{Cause, Fault};
use crate::loader::Loader;
use keys::kind::Key;
use survey::entry::Entry;

/// A loader over a slice of records.
#[derive(Clone, Copy)]
pub struct Roll<'a, K, V> {
    pub records: &'a [Entry<K, V>],
}

/// The value of the first record with the key.
fn first_match<K: Key, V: Copy>(records: &[Entry<K, V>], key: &K) -> Result<V, Fault>
    ensures { result ≡ look 1 (map (whole K.Key.meaning) records.now) (K.Key.meaning key.now) }
{
    for record in records {
        if record.key.same(key) {
            return Ok(record.value);
        }
    }
    Err(Fault::new(Cause::NoRecord))
}

impl<'a, K: Key, V: Copy> Loader<K, V> for Roll<'a, K, V> {
    ghost given = { λ roll word. look 1 (map (whole K.Key.meaning) roll.records.now) word };

    fn ask(&mut self, key: &K) -> Result<V, Fault> {
        first_match(self.records, key)
    }
}
