ghost use Rattle.std.specs.Prelude.{◌≡◌, ℕ, true, List};
ghost use Rattle.machine.specs.Machine.{is_at, cell_of};
ghost use Rattle.machine.specs.Replacement.{uses, drops};
ghost use Rattle.cache_core.specs.View.{places, state};
ghost use Rattle.cache_core.specs.Tied.{TiedInner, Within, Resides};
ghost use Rattle.policy.specs.View.{view};

use crate::inner::Inner;
use keys::kind::HashedKey;

impl<K: HashedKey, V: Copy> Inner<'_, K, V> {
    /// A use of the resident of a place.
    pub fn touch(&mut self, place: u16)
        ensures uses { (d : V) (word : List ℕ) → Within K.Key.meaning K.HashedKey.hashed self.old → Resides K.Key.meaning K.HashedKey.hashed word place self.old → state K.Key.meaning d self.new ≡ uses (is_at word) (state K.Key.meaning d self.old) }
        ensures tied { TiedInner K.Key.meaning K.HashedKey.hashed self.old → TiedInner K.Key.meaning K.HashedKey.hashed self.new }
        ensures within { Within K.Key.meaning K.HashedKey.hashed self.old → Within K.Key.meaning K.HashedKey.hashed self.new }
        ensures kept { self.new.records.now ≡ self.old.records.now }
        ensures places { places (view self.new.policy.core) ≡ places (view self.old.policy.core) }
        ensures capacity { self.new.policy.core.capacity ≡ self.old.policy.core.capacity }
    {
        self.policy.hit(place);
    }

    /// The resident of a place, whose key has this hash, leaves, and the place goes onto the free stack; says whether it was one.
    pub fn release(&mut self, hash: u64, place: u16) -> bool
        ensures answer { (word : List ℕ) → Within K.Key.meaning K.HashedKey.hashed self.old → Resides K.Key.meaning K.HashedKey.hashed word place self.old → result ≡ true }
        ensures drops { (d : V) (word : List ℕ) → Within K.Key.meaning K.HashedKey.hashed self.old → Resides K.Key.meaning K.HashedKey.hashed word place self.old → state K.Key.meaning d self.new ≡ drops (λ _ cells. cells) cell_of (is_at word) (state K.Key.meaning d self.old) }
        ensures tied { (word : List ℕ) → TiedInner K.Key.meaning K.HashedKey.hashed self.old → Resides K.Key.meaning K.HashedKey.hashed word place self.old → hash ≡ K.HashedKey.hashed word → TiedInner K.Key.meaning K.HashedKey.hashed self.new }
        ensures within { (word : List ℕ) → Within K.Key.meaning K.HashedKey.hashed self.old → Resides K.Key.meaning K.HashedKey.hashed word place self.old → hash ≡ K.HashedKey.hashed word → Within K.Key.meaning K.HashedKey.hashed self.new }
        ensures kept { self.new.records.now ≡ self.old.records.now }
        ensures capacity { self.new.policy.core.capacity ≡ self.old.policy.core.capacity }
    {
        self.residents.unfile(hash, place);
        self.policy.remove(place)
    }
}
