ghost use Rattle.std.specs.Prelude.{◌≡◌, ℕ, List};
ghost use Rattle.handles.specs.Seek.{first_by};
ghost use Rattle.index.specs.Filed.{bears, Found};
ghost use Rattle.index.specs.Ties.{Ties};
ghost use Rattle.records.specs.Columns.{word_at, Lays, TiedLay};

use crate::column::{Column, RecordKeys, set_key};
use crate::record::Record;
use handles::TableRefusal;
use index::KeyIndex;
use keys::kind::Key;

/// The place of a key of a column, filed under this hash. Whatever is filed, the key lies in the place that is answered;
/// and where the index is tied to places under the keys' hashes, the answer is that of these places that bears the key.
pub fn find_key<K: Key, V: Copy>(
    index: &KeyIndex,
    records: &[Record<K, V>],
    column: Column,
    hash: u64,
    key: &K,
) -> Option<u16>
    ensures found { Found index.now (word_at K.Key.meaning column records.now) (K.Key.meaning key.now) hash result }
    ensures tied { (hashed : List ℕ → ℕ) (ps : List ℕ) → Ties hashed (word_at K.Key.meaning column records.now) ps index.now → hash ≡ hashed (K.Key.meaning key.now) → result ≡ first_by (bears (word_at K.Key.meaning column records.now) (K.Key.meaning key.now)) ps }
{
    index.find(hash, key, &RecordKeys { records, column })
}

/// Lays a key in a record and files it under this hash; a full index refuses, and nothing changes.
pub fn lay_key<K: Key, V: Copy>(
    index: &mut KeyIndex,
    records: &mut [Record<K, V>],
    column: Column,
    place: u16,
    hash: u64,
    key: K,
) -> Result<(), TableRefusal>
    ensures lays { Lays index.old records.old column place hash key result index.new records.new }
    ensures tied { TiedLay K.Key.meaning index.old records.old column place hash (K.Key.meaning key) result index.new records.new }
{
    index.file(hash, place)?;
    set_key(records, column, place, key);
    Ok(())
}
