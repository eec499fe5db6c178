ghost use Rattle.std.specs.Prelude.{◌≡◌, false};
ghost use Rattle.machine.specs.Machine.{fetch as loaded};
ghost use Rattle.cache_core.specs.View.{bare};
ghost use Rattle.cache_core.specs.Tied.{Within};
ghost use Rattle.cache_calls.specs.Calls.{Does, fetch_lays, asks};

use crate::inserting::bring_in;
use crate::using::use_value;
use cache_core::Inner;
use keys::kind::HashedKey;
use loaders::loader::Loader;
use machine::call::Fetched;
use machine::refusal::Refusal;

/// The value of a resident key, which is a use; or the loader's, with which the key comes in. A loader is asked
/// only for a key that is not resident, and its fault changes nothing.
pub fn fetch<K: HashedKey, V: Copy, L: Loader<K, V>>(
    inner: &mut Inner<'_, K, V>,
    loader: &mut L,
    key: K,
) -> Result<Fetched<V>, Refusal>
    ensures does { Does K.Key.meaning K.HashedKey.hashed (λ s. loaded inner.old.policy.core.capacity (L.Loader.given loader.old) s (K.Key.meaning key)) inner.old result inner.new }
    ensures records { Within K.Key.meaning K.HashedKey.hashed inner.old → bare inner.new.records.now ≡ fetch_lays result key (bare inner.old.records.now) }
    ensures meaning { L.Loader.given loader.new ≡ L.Loader.given loader.old }
    ensures unasked { asks result ≡ false → loader.new ≡ loader.old }
    ensures capacity { inner.new.policy.core.capacity ≡ inner.old.policy.core.capacity }
{
    if inner.policy.capacity() == 0 {
        return Err(Refusal::NoCapacity);
    }
    let hash = key.hash();
    if let Some(place) = inner.find_resident(hash, &key) {
        return Ok(Fetched::Held(use_value(inner, place)));
    }
    let value = loader.ask(&key)?;
    Ok(Fetched::New(value, bring_in(inner, hash, key, value)))
}
