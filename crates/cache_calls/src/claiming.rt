ghost use Rattle.std.specs.Prelude.{◌≡◌};
ghost use Rattle.machine.specs.Machine.{claim as claimed};
ghost use Rattle.cache_core.specs.View.{bare};
ghost use Rattle.cache_core.specs.Tied.{Within};
ghost use Rattle.cache_calls.specs.Calls.{Does, claim_lays};

use crate::inserting::claim_place;
use crate::using::use_value;
use cache_core::Inner;
use keys::kind::HashedKey;
use machine::call::Claimed;
use machine::refusal::Refusal;

/// The place of a key and the value in it: of a resident, which is a use, or after the key came in. A reused place
/// keeps its old value, and the given one is laid only in a place never opened.
pub fn claim<K: HashedKey, V: Copy>(
    inner: &mut Inner<'_, K, V>,
    key: K,
    given: V,
) -> Result<Claimed<V>, Refusal>
    ensures does { Does K.Key.meaning K.HashedKey.hashed (λ s. claimed inner.old.policy.core.capacity s (K.Key.meaning key) given) inner.old result inner.new }
    ensures records { Within K.Key.meaning K.HashedKey.hashed inner.old → bare inner.new.records.now ≡ claim_lays result key (bare inner.old.records.now) }
    ensures capacity { inner.new.policy.core.capacity ≡ inner.old.policy.core.capacity }
{
    if inner.policy.capacity() == 0 {
        return Err(Refusal::NoCapacity);
    }
    let hash = key.hash();
    match inner.find_resident(hash, &key) {
        Some(place) => Ok(Claimed::Held((place as usize, use_value(inner, place)))),
        None => {
            let (value, report) = claim_place(inner, hash, key, given);
            Ok(Claimed::New((report.place, value), report))
        }
    }
}
