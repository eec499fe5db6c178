ghost use Rattle.std.specs.Prelude.{◌≡◌, ℕ, ◌<◌, length, is_some, IfSome};
ghost use Rattle.std.specs.Option.{option_map};
ghost use Rattle.handles.specs.Seek.{first_by};
ghost use Rattle.index.specs.Filed.{bears};
ghost use Rattle.machine.specs.Machine.{look, has};
ghost use Rattle.policy.specs.View.{view};
ghost use Rattle.records.specs.declared.column.Column.TheVariants.{Resident as of_resident, Remembered as of_ghost};
ghost use Rattle.records.specs.Columns.{word_at};
ghost use Rattle.cache_core.specs.View.{places, item_at, state, ghost_words};
ghost use Rattle.cache_core.specs.Tied.{Within};

use crate::inner::Inner;
use keys::kind::HashedKey;
use records::{Column, find_key};

impl<K: HashedKey, V: Copy> Inner<'_, K, V> {
    /// The place of a resident key, which has this hash.
    pub fn find_resident(&self, hash: u64, key: &K) -> Option<u16>
        ensures within { IfSome result (λ p. p < length self.now.records.now) }
        ensures first { Within K.Key.meaning K.HashedKey.hashed self.now → hash ≡ K.HashedKey.hashed (K.Key.meaning key.now) → result ≡ first_by (bears (word_at K.Key.meaning of_resident self.now.records.now) (K.Key.meaning key.now)) (places (view self.now.policy.core)) }
        ensures look { (d : V) → Within K.Key.meaning K.HashedKey.hashed self.now → hash ≡ K.HashedKey.hashed (K.Key.meaning key.now) → option_map (item_at K.Key.meaning d self.now.records.now) result ≡ look (K.Key.meaning key.now) (state K.Key.meaning d self.now) }
    {
        find_key(&self.residents, self.records, Column::Resident, hash, key)
    }

    /// The node of Ghost that remembers a key, which has this hash.
    pub fn find_remembered(&self, hash: u64, key: &K) -> Option<u16>
        ensures within { IfSome result (λ p. p < length self.now.records.now) }
        ensures first { Within K.Key.meaning K.HashedKey.hashed self.now → hash ≡ K.HashedKey.hashed (K.Key.meaning key.now) → result ≡ first_by (bears (word_at K.Key.meaning of_ghost self.now.records.now) (K.Key.meaning key.now)) (view self.now.policy.core).remembered }
        ensures has { Within K.Key.meaning K.HashedKey.hashed self.now → hash ≡ K.HashedKey.hashed (K.Key.meaning key.now) → is_some result ≡ has (K.Key.meaning key.now) (ghost_words K.Key.meaning self.now) }
    {
        find_key(
            &self.remembered,
            self.records,
            Column::Remembered,
            hash,
            key,
        )
    }
}
