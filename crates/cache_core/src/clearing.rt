ghost use Rattle.std.specs.Prelude.{◌≡◌};
ghost use Rattle.machine.specs.Replacement.{nothing};
ghost use Rattle.cache_core.specs.View.{state};
ghost use Rattle.cache_core.specs.Tied.{TiedInner, Within};

use crate::inner::Inner;
use keys::kind::HashedKey;

impl<K: HashedKey, V: Copy> Inner<'_, K, V> {
    /// Forgets everything: the cache is as it was opened, and the records lie as they are.
    pub fn clear(&mut self)
        ensures next { (d : V) → state K.Key.meaning d self.new ≡ nothing }
        ensures tied { TiedInner K.Key.meaning K.HashedKey.hashed self.old → TiedInner K.Key.meaning K.HashedKey.hashed self.new }
        ensures within { Within K.Key.meaning K.HashedKey.hashed self.old → Within K.Key.meaning K.HashedKey.hashed self.new }
        ensures capacity { self.new.policy.core.capacity ≡ self.old.policy.core.capacity }
        ensures kept { self.new.records.now ≡ self.old.records.now }
    {
        self.policy.clear();
        self.residents.clear();
        self.remembered.clear();
    }
}
