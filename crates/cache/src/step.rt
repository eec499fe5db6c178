//! Any call of a run, and what it answers.

ghost use Rattle.std.specs.Prelude.{◌≡◌};
ghost use Rattle.machine.specs.Machine.{step};
ghost use Rattle.machine.specs.Run.{meant};
ghost use Rattle.cache_core.specs.View.{bare, state};
ghost use Rattle.cache_core.specs.Tied.{Within};
ghost use Rattle.cache_calls.specs.Calls.{Does};
ghost use Rattle.cache_calls.specs.Retain.{rising};
ghost use Rattle.cache.specs.Records.{laid_by};

use crate::cache::Cache;
use cache_calls::AskedKeepRule;
use keys::kind::HashedKey;
use loaders::loader::Loader;
use machine::call::{Answer, Call};

impl<'a, K: HashedKey, V: Copy> Cache<'a, K, V> {
    /// Makes a call; the rule of a retain is asked as a copy.
    pub(crate) fn perform<L: Loader<K, V>, R: AskedKeepRule<K, V> + Copy>(
        &mut self,
        loader: &mut L,
        call: &Call<K, V, R>,
    ) -> Answer<V>
        ensures does { Does K.Key.meaning K.HashedKey.hashed (λ s. step self.old.inner.policy.core.capacity (L.Loader.given loader.old) rising s (meant K.Key.meaning R.AskedKeepRule.keeps call.now)) self.old.inner result self.new.inner }
        ensures records { Within K.Key.meaning K.HashedKey.hashed self.old.inner → (d : V) → bare self.new.inner.records.now ≡ laid_by K.Key.meaning R.AskedKeepRule.keeps self.old.inner.policy.core.capacity (L.Loader.given loader.old) call.now (state K.Key.meaning d self.old.inner) (bare self.old.inner.records.now) }
        ensures meaning { L.Loader.given loader.new ≡ L.Loader.given loader.old }
        ensures capacity { self.new.inner.policy.core.capacity ≡ self.old.inner.policy.core.capacity }
    {
        match call {
            Call::Contains(key) => self.contains(key).into(),
            Call::Peek(key) => self.peek(key).into(),
            Call::Get(key) => self.get(key).into(),
            Call::GetAt(place, key) => self.get_at(*place, key).into(),
            Call::Put(key, value) => self.put(*key, *value).into(),
            Call::Fetch(key) => self.fetch(loader, *key).into(),
            Call::WriteAt(place, key, value) => self.write_at(*place, key, *value).into(),
            Call::Remove(key) => self.remove(key).into(),
            Call::Retain(rule) => {
                let mut asked = *rule;
                self.retain(&mut asked);
                Answer::Done
            }
            Call::Clear => {
                self.clear();
                Answer::Done
            }
        }
    }
}
