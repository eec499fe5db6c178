ghost use Rattle.cache_core.specs.Admitting.{Admits, AdmitsWithin};

use crate::inner::Inner;
use keys::kind::HashedKey;
use policy::plan::Inserted;

impl<K: HashedKey, V: Copy> Inner<'_, K, V> {
    /// Brings in a key that is not resident and has this hash; None, and nothing changes, if the capacity is 0. The place's value stays as it lies.
    pub fn admit(&mut self, hash: u64, key: K) -> Option<Inserted>
        ensures admits { Admits K.Key.meaning K.HashedKey.hashed self.old hash (K.Key.meaning key) result self.new }
        ensures within { AdmitsWithin K.Key.meaning K.HashedKey.hashed self.old hash key result self.new }
    {
        if self.policy.capacity() == 0 {
            return None;
        }
        let known = self.forget(hash, &key);
        let Some(inserted) = self.policy.insert(known) else {
            unreachable!()
        };
        self.depart(inserted);
        self.seat_key(inserted.place, hash, key);
        Some(inserted)
    }
}
