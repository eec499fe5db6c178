ghost use Rattle.std.specs.Prelude.{◌≡◌, length};
ghost use Rattle.machine.specs.Measure.{opened_with};
ghost use Rattle.machine.specs.Replacement.{nothing};
ghost use Rattle.cache_core.specs.View.{state};
ghost use Rattle.cache_core.specs.Tied.{Within};

use cache_core::Inner;
use index::KeyIndex;
use keys::kind::HashedKey;
use policy::Policy;
use records::Record;

/// A cache over these records with nothing in it; over what measuring refuses its capacity is 0.
pub fn open<'a, K: HashedKey, V: Copy>(records: &'a mut [Record<K, V>]) -> Inner<'a, K, V>
    ensures capacity { result.policy.core.capacity ≡ opened_with (length records.old) }
    ensures nothing { (d : V) → state K.Key.meaning d result ≡ nothing }
    ensures tied { Within K.Key.meaning K.HashedKey.hashed result }
    ensures records { result.records.now ≡ records.old }
{
    let policy = Policy::open(records.len());
    Inner {
        records,
        policy,
        residents: KeyIndex::new(),
        remembered: KeyIndex::new(),
    }
}

/// The maximum number of residents.
pub fn capacity<K: HashedKey, V: Copy>(inner: &Inner<'_, K, V>) -> usize
    ensures { result ≡ inner.now.policy.core.capacity }
{
    inner.policy.capacity()
}
