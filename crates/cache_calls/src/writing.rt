ghost use Rattle.std.specs.Prelude.{◌≡◌, ◌≤◌};
ghost use Rattle.machine.specs.Machine.{look, put as laid, remove as taken, write_at_lem as rewritten};
ghost use Rattle.cache_core.specs.View.{bare, state};
ghost use Rattle.cache_core.specs.Tied.{Within};
ghost use Rattle.cache_calls.specs.Calls.{Does, put_lays, write_lays};

use crate::finding::find_at;
use crate::inserting::bring_in;
use crate::using::use_value;
use cache_core::Inner;
use keys::kind::HashedKey;
use machine::call::Placed;
use machine::refusal::Refusal;

/// Lays a value under a key: over the old value of a resident, which is a use, or with the key as it comes in.
pub fn put<K: HashedKey, V: Copy>(
    inner: &mut Inner<'_, K, V>,
    key: K,
    value: V,
) -> Result<Placed<V>, Refusal>
    ensures does { Does K.Key.meaning K.HashedKey.hashed (λ s. laid inner.old.policy.core.capacity s (K.Key.meaning key) value) inner.old result inner.new }
    ensures records { Within K.Key.meaning K.HashedKey.hashed inner.old → (d : V) → bare inner.new.records.now ≡ put_lays result (look (K.Key.meaning key) (state K.Key.meaning d inner.old)) key value (bare inner.old.records.now) }
    ensures capacity { inner.new.policy.core.capacity ≡ inner.old.policy.core.capacity }
{
    if inner.policy.capacity() == 0 {
        return Err(Refusal::NoCapacity);
    }
    let hash = key.hash();
    match inner.find_resident(hash, &key) {
        Some(place) => {
            let old = use_value(inner, place);
            inner.set_value(place, value);
            Ok(Placed::Old(old))
        }
        None => Ok(Placed::New(bring_in(inner, hash, key, value))),
    }
}

/// Replaces the value of a key that is resident in this place; no use.
pub fn write_at<K: HashedKey, V: Copy>(
    inner: &mut Inner<'_, K, V>,
    place: usize,
    key: &K,
    value: V,
) -> Result<(), Refusal>
    ensures does { Does K.Key.meaning K.HashedKey.hashed (λ s. rewritten s place (K.Key.meaning key.now) value) inner.old result inner.new }
    ensures records { bare inner.new.records.now ≡ write_lays result place value (bare inner.old.records.now) }
    ensures capacity { inner.new.policy.core.capacity ≡ inner.old.policy.core.capacity }
{
    let here = find_at(inner, place, key).ok_or(Refusal::NotInPlace(place))?;
    inner.set_value(here, value);
    Ok(())
}

/// Takes a resident key out, and says whether there was one; an absent key leaves Ghost.
pub fn remove<K: HashedKey, V: Copy>(inner: &mut Inner<'_, K, V>, key: &K) -> bool
    ensures does { Does K.Key.meaning K.HashedKey.hashed (λ s. taken s (K.Key.meaning key.now)) inner.old result inner.new }
    ensures records { inner.new.records.now ≡ inner.old.records.now }
    ensures capacity { inner.new.policy.core.capacity ≡ inner.old.policy.core.capacity }
{
    let hash = key.hash();
    match inner.find_resident(hash, key) {
        Some(place) => inner.release(hash, place),
        None => {
            inner.forget(hash, key);
            false
        }
    }
}
