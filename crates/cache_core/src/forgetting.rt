ghost use Rattle.std.specs.Prelude.{◌≡◌};
ghost use Rattle.machine.specs.Machine.{same, has};
ghost use Rattle.machine.specs.Replacement.{forgets};
ghost use Rattle.cache_core.specs.View.{state, ghost_words};
ghost use Rattle.cache_core.specs.Tied.{TiedInner, Within, Forgotten, ForgottenWithin, OnlyGhost};

use crate::inner::Inner;
use keys::kind::HashedKey;

impl<K: HashedKey, V: Copy> Inner<'_, K, V> {
    /// Ghost forgets a key, which has this hash; says whether it was remembered.
    pub fn forget(&mut self, hash: u64, key: &K) -> bool
        ensures answer { Within K.Key.meaning K.HashedKey.hashed self.old → hash ≡ K.HashedKey.hashed (K.Key.meaning key.now) → result ≡ has (K.Key.meaning key.now) (ghost_words K.Key.meaning self.old) }
        ensures forgets { (d : V) → Within K.Key.meaning K.HashedKey.hashed self.old → hash ≡ K.HashedKey.hashed (K.Key.meaning key.now) → state K.Key.meaning d self.new ≡ forgets (same (K.Key.meaning key.now)) (state K.Key.meaning d self.old) }
        ensures tied { TiedInner K.Key.meaning K.HashedKey.hashed self.old → hash ≡ K.HashedKey.hashed (K.Key.meaning key.now) → Forgotten K.Key.meaning K.HashedKey.hashed (K.Key.meaning key.now) self.new }
        ensures within { Within K.Key.meaning K.HashedKey.hashed self.old → hash ≡ K.HashedKey.hashed (K.Key.meaning key.now) → ForgottenWithin K.Key.meaning K.HashedKey.hashed (K.Key.meaning key.now) self.new }
        ensures kept { OnlyGhost self.old self.new }
    {
        let Some(node) = self.find_remembered(hash, key) else {
            return false;
        };
        self.remembered.unfile(hash, node);
        self.policy.discard(node)
    }
}
