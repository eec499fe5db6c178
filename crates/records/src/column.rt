ghost use Rattle.std.specs.Prelude.{◌≡◌};
ghost use Rattle.records.specs.Columns.{key_at_lem, word_at, keyed};

use crate::record::Record;
use index::KeyPlaces;
use keys::kind::Key;

/// Which of a record's keys is meant.
#[derive(Clone, Copy, PartialEq, Eq, Debug)]
pub enum Column {
    /// The resident's.
    Resident,
    /// The one that Ghost remembers.
    Remembered,
}

/// The keys of one column, each in the place of its record.
#[derive(Drop)]
pub struct RecordKeys<'a, K, V> {
    pub records: &'a [Record<K, V>],
    pub column: Column,
}

/// The key of a column in a record, or none where there is no such record.
pub fn key_in<K: Copy, V: Copy>(records: &[Record<K, V>], column: Column, place: u16) -> Option<K>
    ensures { result ≡ key_at_lem column records.now place }
{
    let record = records.get(place as usize)?;
    Some(record.in_column(column))
}

/// Lays a key in a record; nothing changes where there is no such record.
pub(crate) fn set_key<K: Copy, V: Copy>(
    records: &mut [Record<K, V>],
    column: Column,
    place: u16,
    key: K,
)
    ensures { records.new ≡ keyed column records.old place key }
{
    let place = place as usize;
    if place < records.len() {
        records[place].rekey(column, key);
    }
}

impl<'a, K: Key, V: Copy> KeyPlaces<K> for RecordKeys<'a, K, V> {
    ghost lying = { λ s p. word_at K.Key.meaning s.column s.records.now p };

    fn key_at(&self, place: u16) -> Option<K> {
        key_in(self.records, self.column, place)
    }
}
