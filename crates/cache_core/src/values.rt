ghost use Rattle.std.specs.Prelude.{◌≡◌, ℕ, List};
ghost use Rattle.machine.specs.Machine.{lays};
ghost use Rattle.cache_core.specs.View.{valued, state};
ghost use Rattle.cache_core.specs.Tied.{TiedInner, Within, Resides};

use crate::inner::Inner;
use keys::kind::HashedKey;
use records::Record;

/// Lays a value in a record; nothing changes where there is no such record. By index, since a proof knows nothing of what
/// is written through `get_mut`.
fn lay_value<K: Copy, V: Copy>(records: &mut [Record<K, V>], place: u16, value: V)
    ensures { records.new ≡ valued records.old place value }
{
    if place as usize >= records.len() {
        return;
    }
    records[place as usize].value = value;
}

impl<K: HashedKey, V: Copy> Inner<'_, K, V> {
    /// The resident of a place has this value from now on.
    pub fn set_value(&mut self, place: u16, value: V)
        ensures policy { self.new.policy ≡ self.old.policy }
        ensures records { self.new.records.now ≡ valued self.old.records.now place value }
        ensures lays { (d : V) (word : List ℕ) → Within K.Key.meaning K.HashedKey.hashed self.old → Resides K.Key.meaning K.HashedKey.hashed word place self.old → state K.Key.meaning d self.new ≡ lays word value (state K.Key.meaning d self.old) }
        ensures tied { TiedInner K.Key.meaning K.HashedKey.hashed self.old → TiedInner K.Key.meaning K.HashedKey.hashed self.new }
        ensures within { Within K.Key.meaning K.HashedKey.hashed self.old → Within K.Key.meaning K.HashedKey.hashed self.new }
    {
        lay_value(self.records, place, value);
    }
}
