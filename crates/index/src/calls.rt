ghost use Rattle.std.specs.Prelude.{◌≡◌, ℕ, List};
ghost use Rattle.handles.specs.Seek.{first_by};
ghost use Rattle.index.specs.Filed.{bears, Files, Unfiles, Found};
ghost use Rattle.index.specs.Ties.{Ties, TiesNone, TiesIn, TiesOut};

use crate::index::KeyIndex;
use crate::places::KeyPlaces;
use crate::search::PlaceOf;
use handles::{Place, PlaceTable, TableRefusal};
use keys::kind::Key;

impl KeyIndex {
    /// An index with nothing filed.
    pub fn new() -> KeyIndex
        ensures { TiesNone result }
    {
        KeyIndex {
            table: PlaceTable::new(),
        }
    }

    /// The place of a key, filed under this hash. Whatever is filed, the key lies in the place that is answered; and
    /// where the index is tied to places under the keys' hashes, the answer is that of these places that bears the key.
    pub fn find<K: Key, P: KeyPlaces<K>>(&self, hash: u64, key: &K, places: &P) -> Option<u16>
        ensures found { Found self.now (P.KeyPlaces.lying places.now) (K.Key.meaning key.now) hash result }
        ensures tied { (hashed : List ℕ → ℕ) (ps : List ℕ) → Ties hashed (P.KeyPlaces.lying places.now) ps self.now → hash ≡ hashed (K.Key.meaning key.now) → result ≡ first_by (bears (P.KeyPlaces.lying places.now) (K.Key.meaning key.now)) ps }
    {
        self.table
            .find(hash, &PlaceOf { key, places })
            .map(|place| place.0)
    }

    /// Files a place under a hash; with 768 entries the index is full and refuses.
    pub fn file(&mut self, hash: u64, place: u16) -> Result<(), TableRefusal>
        ensures files { Files self.old hash place result self.new }
        ensures tied { TiesIn self.old hash place result self.new }
    {
        self.table.insert(hash, Place(place))
    }

    /// Takes out one entry of a place under a hash, and says whether there was one.
    pub fn unfile(&mut self, hash: u64, place: u16) -> bool
        ensures unfiles { Unfiles self.old hash place result self.new }
        ensures tied { TiesOut self.old hash place result self.new }
    {
        self.table.remove(hash, Place(place))
    }

    /// Takes out every entry.
    pub fn clear(&mut self)
        ensures { TiesNone self.new }
    {
        self.table.clear();
    }
}
