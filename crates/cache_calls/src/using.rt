ghost use Rattle.std.specs.Prelude.{◌≡◌, ◌<◌, length};
ghost use Rattle.machine.specs.Machine.{get as read, get_at as read_at};
ghost use Rattle.cache_calls.specs.Calls.{Does};
ghost use Rattle.cache_calls.specs.Parts.{Used};

use crate::finding::find_at;
use crate::reading::value_of;
use cache_core::Inner;
use keys::kind::HashedKey;

/// A use of the resident of a place, and its value.
pub(crate) fn use_value<K: HashedKey, V: Copy>(inner: &mut Inner<'_, K, V>, place: u16) -> V
    requires { place < length inner.old.records.now }
    ensures { Used K.Key.meaning K.HashedKey.hashed inner.old place result inner.new }
{
    let value = value_of(inner, place);
    inner.touch(place);
    value
}

/// The value of a resident key, which is a use.
pub fn get<K: HashedKey, V: Copy>(inner: &mut Inner<'_, K, V>, key: &K) -> Option<V>
    ensures does { Does K.Key.meaning K.HashedKey.hashed (λ s. read s (K.Key.meaning key.now)) inner.old result inner.new }
    ensures records { inner.new.records.now ≡ inner.old.records.now }
    ensures capacity { inner.new.policy.core.capacity ≡ inner.old.policy.core.capacity }
{
    let place = inner.find_resident(key.hash(), key)?;
    Some(use_value(inner, place))
}

/// The value of a key that is resident in this place, which is a use.
pub fn get_at<K: HashedKey, V: Copy>(
    inner: &mut Inner<'_, K, V>,
    place: usize,
    key: &K,
) -> Option<V>
    ensures does { Does K.Key.meaning K.HashedKey.hashed (λ s. read_at s place (K.Key.meaning key.now)) inner.old result inner.new }
    ensures records { inner.new.records.now ≡ inner.old.records.now }
    ensures capacity { inner.new.policy.core.capacity ≡ inner.old.policy.core.capacity }
{
    let here = find_at(inner, place, key)?;
    Some(use_value(inner, here))
}
