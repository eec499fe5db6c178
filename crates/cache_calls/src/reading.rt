ghost use Rattle.std.specs.Prelude.{◌≡◌, ◌<◌, length};
ghost use Rattle.machine.specs.Machine.{contains as resident, peek as lookup};
ghost use Rattle.cache_core.specs.View.{value_at};
ghost use Rattle.cache_calls.specs.Calls.{Tells};

use cache_core::Inner;
use keys::kind::HashedKey;

/// The value in a place.
pub(crate) fn value_of<K: HashedKey, V: Copy>(inner: &Inner<'_, K, V>, place: u16) -> V
    requires { place < length inner.now.records.now }
    ensures { (d : V) → result ≡ value_at d inner.now.records.now place }
{
    inner.records[place as usize].value
}

/// Whether a key is resident.
pub fn contains<K: HashedKey, V: Copy>(inner: &Inner<'_, K, V>, key: &K) -> bool
    ensures { Tells K.Key.meaning K.HashedKey.hashed (λ s. resident s (K.Key.meaning key.now)) inner.now result }
{
    inner.find_resident(key.hash(), key).is_some()
}

/// The value of a resident key, without a use.
pub fn peek<K: HashedKey, V: Copy>(inner: &Inner<'_, K, V>, key: &K) -> Option<V>
    ensures { Tells K.Key.meaning K.HashedKey.hashed (λ s. lookup s (K.Key.meaning key.now)) inner.now result }
{
    let place = inner.find_resident(key.hash(), key)?;
    Some(value_of(inner, place))
}
