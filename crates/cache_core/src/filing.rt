ghost use Rattle.std.specs.Prelude.{◌≡◌};
ghost use Rattle.records.specs.declared.column.Column.TheVariants.{Resident as of_resident, Remembered as of_ghost};
ghost use Rattle.records.specs.Columns.{key_at_lem};
ghost use Rattle.cache_core.specs.Filing.{Unfiled, Unseats, Frees, LaysNoted, LaysSeated, OnlyResidents, OnlyRemembered, SameButResidents, SameButRemembered};

use crate::inner::Inner;
use index::KeyIndex;
use keys::kind::HashedKey;
use policy::Noted;
use records::{Column, key_in, lay_key};

impl<K: HashedKey, V: Copy> Inner<'_, K, V> {
    /// The key of a column in a place.
    pub(crate) fn key_of(&self, column: Column, place: u16) -> Option<K>
        ensures { result ≡ key_at_lem column self.now.records.now place }
    {
        key_in(self.records, column, place)
    }
}

/// Takes the entry of a place, filed under the hash of the key in it, out of an index. Of an index that a closure of
/// `is_some_and` changes, a proof knows too little.
fn unfile_key<K: HashedKey>(index: &mut KeyIndex, key: Option<K>, place: u16) -> bool
    ensures { Unfiled K.Key.meaning K.HashedKey.hashed index.old key place index.new }
{
    match key {
        Some(key) => index.unfile(key.hash(), place),
        None => false,
    }
}

impl<K: HashedKey, V: Copy> Inner<'_, K, V> {
    /// The key of a place leaves the residents' index.
    pub fn unseat(&mut self, place: u16) -> bool
        ensures tied { Unseats K.Key.meaning K.HashedKey.hashed self.old place self.new }
        ensures kept { OnlyResidents self.old self.new }
    {
        let key = self.key_of(Column::Resident, place);
        unfile_key(&mut self.residents, key, place)
    }

    /// The former key of a node leaves Ghost's index, if Ghost forgot it.
    pub(crate) fn free_node(&mut self, noted: Noted)
        ensures tied { Frees K.Key.meaning K.HashedKey.hashed self.old noted self.new }
        ensures kept { OnlyRemembered self.old self.new }
    {
        if noted.forgot {
            let key = self.key_of(Column::Remembered, noted.node);
            unfile_key(&mut self.remembered, key, noted.node);
        }
    }

    /// Lays a key at a node of Ghost, and files it.
    pub(crate) fn note_key(&mut self, node: u16, key: Option<K>)
        ensures tied { LaysNoted K.Key.meaning K.HashedKey.hashed self.old node key self.new }
        ensures kept { SameButRemembered self.old self.new }
    {
        if let Some(key) = key {
            let hash = key.hash();
            let Inner {
                records,
                remembered,
                ..
            } = self;
            let _ = lay_key(remembered, records, Column::Remembered, node, hash, key);
        }
    }

    /// Lays a newcomer's key, which has this hash, in its place, and files it.
    pub(crate) fn seat_key(&mut self, place: u16, hash: u64, key: K)
        ensures tied { LaysSeated K.Key.meaning K.HashedKey.hashed self.old place hash key self.new }
        ensures kept { SameButResidents self.old self.new }
    {
        let Inner {
            records,
            residents,
            ..
        } = self;
        let _ = lay_key(residents, records, Column::Resident, place, hash, key);
    }
}
