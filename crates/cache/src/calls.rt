//! Opening and the calls. Each contract says: where the indexes are right, the answer and the next state are those of
//! the plain machine's step, and the indexes are right afterwards; opening makes them right.

ghost use Rattle.std.specs.Prelude.{◌≡◌, false, length};
ghost use Rattle.machine.specs.Measure.{measured, opened_with};
ghost use Rattle.machine.specs.Replacement.{nothing};
ghost use Rattle.machine.specs.Machine.{contains as is_resident, peek as found, get as used, get_at as used_at, put as placed, fetch as fetched, claim as claimed, write_at_lem as written, remove as removed, look};
ghost use Rattle.cache_core.specs.View.{state, bare};
ghost use Rattle.cache_core.specs.Tied.{Within};
ghost use Rattle.cache_calls.specs.Calls.{Tells, Does, put_lays, fetch_lays, claim_lays, write_lays, asks};
ghost use Rattle.cache_calls.specs.Retain.{retained, asked_each};

use crate::cache::Cache;
use cache_calls::AskedKeepRule;
use keys::kind::HashedKey;
use loaders::loader::Loader;
use machine::call::{Claimed, Fetched, Placed};
use machine::refusal::Refusal;
use records::Record;

/// Measures a table of records: the capacity of a cache over it, or why there is none.
pub fn measure<K, V>(records: &[Record<K, V>]) -> Result<usize, Refusal>
    ensures { result ≡ measured (length records.now) }
{
    machine::measure::measure(records.len())
}

impl<'a, K: HashedKey, V: Copy> Cache<'a, K, V> {
    /// Opens a cache with nothing in it; over what measuring refuses its capacity is 0.
    pub fn open(records: &'a mut [Record<K, V>]) -> Cache<'a, K, V>
        ensures capacity { result.inner.policy.core.capacity ≡ opened_with (length records.old) }
        ensures state { (d : V) → state K.Key.meaning d result.inner ≡ nothing }
        ensures right { Within K.Key.meaning K.HashedKey.hashed result.inner }
        ensures records { result.inner.records.now ≡ records.old }
    {
        Cache {
            inner: cache_calls::open(records),
        }
    }

    /// The maximum number of residents.
    pub fn capacity(&self) -> usize
        ensures { result ≡ self.now.inner.policy.core.capacity }
    {
        cache_calls::capacity(&self.inner)
    }

    /// Whether a key is resident.
    pub fn contains(&self, key: &K) -> bool
        ensures { Tells K.Key.meaning K.HashedKey.hashed (λ s. is_resident s (K.Key.meaning key.now)) self.now.inner result }
    {
        cache_calls::contains(&self.inner, key)
    }

    /// The value of a resident key; no use.
    pub fn peek(&self, key: &K) -> Option<V>
        ensures { Tells K.Key.meaning K.HashedKey.hashed (λ s. found s (K.Key.meaning key.now)) self.now.inner result }
    {
        cache_calls::peek(&self.inner, key)
    }

    /// The value of a resident key, which is a use.
    pub fn get(&mut self, key: &K) -> Option<V>
        ensures does { Does K.Key.meaning K.HashedKey.hashed (λ s. used s (K.Key.meaning key.now)) self.old.inner result self.new.inner }
        ensures records { self.new.inner.records.now ≡ self.old.inner.records.now }
        ensures capacity { self.new.inner.policy.core.capacity ≡ self.old.inner.policy.core.capacity }
    {
        cache_calls::get(&mut self.inner, key)
    }

    /// The value of a key that is resident in this place, which is a use.
    pub fn get_at(&mut self, place: usize, key: &K) -> Option<V>
        ensures does { Does K.Key.meaning K.HashedKey.hashed (λ s. used_at s place (K.Key.meaning key.now)) self.old.inner result self.new.inner }
        ensures records { self.new.inner.records.now ≡ self.old.inner.records.now }
        ensures capacity { self.new.inner.policy.core.capacity ≡ self.old.inner.policy.core.capacity }
    {
        cache_calls::get_at(&mut self.inner, place, key)
    }

    /// Lays a value under a key and answers the old value of a resident, which is a use, or the report of how the key
    /// came in. At capacity 0 it is refused.
    pub fn put(&mut self, key: K, value: V) -> Result<Placed<V>, Refusal>
        ensures does { Does K.Key.meaning K.HashedKey.hashed (λ s. placed self.old.inner.policy.core.capacity s (K.Key.meaning key) value) self.old.inner result self.new.inner }
        ensures records { Within K.Key.meaning K.HashedKey.hashed self.old.inner → (d : V) → bare self.new.inner.records.now ≡ put_lays result (look (K.Key.meaning key) (state K.Key.meaning d self.old.inner)) key value (bare self.old.inner.records.now) }
        ensures capacity { self.new.inner.policy.core.capacity ≡ self.old.inner.policy.core.capacity }
    {
        cache_calls::put(&mut self.inner, key, value)
    }

    /// The value of a resident key, which is a use; or the loader's, with the report of how the key came in with it.
    /// The loader is asked only for a key that is not resident, and its fault changes nothing. At capacity 0 the call
    /// is refused.
    pub fn fetch<L: Loader<K, V>>(&mut self, loader: &mut L, key: K) -> Result<Fetched<V>, Refusal>
        ensures does { Does K.Key.meaning K.HashedKey.hashed (λ s. fetched self.old.inner.policy.core.capacity (L.Loader.given loader.old) s (K.Key.meaning key)) self.old.inner result self.new.inner }
        ensures records { Within K.Key.meaning K.HashedKey.hashed self.old.inner → bare self.new.inner.records.now ≡ fetch_lays result key (bare self.old.inner.records.now) }
        ensures meaning { L.Loader.given loader.new ≡ L.Loader.given loader.old }
        ensures unasked { asks result ≡ false → loader.new ≡ loader.old }
        ensures capacity { self.new.inner.policy.core.capacity ≡ self.old.inner.policy.core.capacity }
    {
        cache_calls::fetch(&mut self.inner, loader, key)
    }

    /// The place of a key and the value in it: of a resident, which is a use, or with the report of how the key came
    /// in. A reused place keeps its old value, and the given one is laid only in a place never opened. At capacity 0
    /// the call is refused.
    pub fn claim(&mut self, key: K, given: V) -> Result<Claimed<V>, Refusal>
        ensures does { Does K.Key.meaning K.HashedKey.hashed (λ s. claimed self.old.inner.policy.core.capacity s (K.Key.meaning key) given) self.old.inner result self.new.inner }
        ensures records { Within K.Key.meaning K.HashedKey.hashed self.old.inner → bare self.new.inner.records.now ≡ claim_lays result key (bare self.old.inner.records.now) }
        ensures capacity { self.new.inner.policy.core.capacity ≡ self.old.inner.policy.core.capacity }
    {
        cache_calls::claim(&mut self.inner, key, given)
    }

    /// Replaces the value of a key that is resident in this place; no use. Elsewhere the call is refused.
    pub fn write_at(&mut self, place: usize, key: &K, value: V) -> Result<(), Refusal>
        ensures does { Does K.Key.meaning K.HashedKey.hashed (λ s. written s place (K.Key.meaning key.now) value) self.old.inner result self.new.inner }
        ensures records { bare self.new.inner.records.now ≡ write_lays result place value (bare self.old.inner.records.now) }
        ensures capacity { self.new.inner.policy.core.capacity ≡ self.old.inner.policy.core.capacity }
    {
        cache_calls::write_at(&mut self.inner, place, key, value)
    }

    /// Takes a resident key out, and says whether there was one; an absent key leaves Ghost.
    pub fn remove(&mut self, key: &K) -> bool
        ensures does { Does K.Key.meaning K.HashedKey.hashed (λ s. removed s (K.Key.meaning key.now)) self.old.inner result self.new.inner }
        ensures records { self.new.inner.records.now ≡ self.old.inner.records.now }
        ensures capacity { self.new.inner.policy.core.capacity ≡ self.old.inner.policy.core.capacity }
    {
        cache_calls::remove(&mut self.inner, key)
    }

    /// Drops the residents that a rule refuses, and their places go onto the free stack in rising order. The rule is
    /// asked once for each resident, by rising place.
    pub fn retain<R: AskedKeepRule<K, V>>(&mut self, rule: &mut R)
        ensures does { Does K.Key.meaning K.HashedKey.hashed (retained (R.AskedKeepRule.keeps rule.old)) self.old.inner result self.new.inner }
        ensures asked { Within K.Key.meaning K.HashedKey.hashed self.old.inner → (d : V) → rule.new ≡ asked_each R.AskedKeepRule.after rule.old (state K.Key.meaning d self.old.inner) }
        ensures meaning { R.AskedKeepRule.keeps rule.new ≡ R.AskedKeepRule.keeps rule.old }
        ensures records { self.new.inner.records.now ≡ self.old.inner.records.now }
        ensures capacity { self.new.inner.policy.core.capacity ≡ self.old.inner.policy.core.capacity }
    {
        cache_calls::retain(&mut self.inner, rule)
    }

    /// Forgets everything: the cache is as it was opened, and the records lie as they are.
    pub fn clear(&mut self)
        ensures does { Does K.Key.meaning K.HashedKey.hashed (λ s. (nothing, result)) self.old.inner result self.new.inner }
        ensures records { self.new.inner.records.now ≡ self.old.inner.records.now }
        ensures capacity { self.new.inner.policy.core.capacity ≡ self.old.inner.policy.core.capacity }
    {
        self.inner.clear()
    }
}
