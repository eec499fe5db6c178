ghost use Rattle.std.specs.Prelude.{◌≡◌, ◌<◌, ◌&&◌, length, IfSome};
ghost use Rattle.std.specs.Option.{option_map};
ghost use Rattle.index.specs.Filed.{bears};
ghost use Rattle.machine.specs.Machine.{look, in_place};
ghost use Rattle.queues.specs.Held.{resides};
ghost use Rattle.policy.specs.View.{view};
ghost use Rattle.records.specs.declared.column.Column.TheVariants.{Resident as of_resident};
ghost use Rattle.records.specs.Columns.{word_at};
ghost use Rattle.cache_core.specs.View.{item_at, state};
ghost use Rattle.cache_core.specs.Tied.{Within, Resides};

use cache_core::Inner;
use keys::kind::HashedKey;
use policy::Location;
use records::{Column, key_in};

/// Whether a place is a resident's.
pub(crate) fn is_resident<K: HashedKey, V: Copy>(inner: &Inner<'_, K, V>, place: u16) -> bool
    ensures { result ≡ resides place (view inner.now.policy.core) }
{
    inner.policy.location(place) != Location::Free
}

/// Whether a place is the resident's that has this key.
fn stands_in<K: HashedKey, V: Copy>(inner: &Inner<'_, K, V>, place: u16, key: &K) -> bool
    ensures { result ≡ bears (word_at K.Key.meaning of_resident inner.now.records.now) (K.Key.meaning key.now) place && resides place (view inner.now.policy.core) }
{
    let Some(held) = key_in(inner.records, Column::Resident, place) else {
        return false;
    };
    key.same(&held) && is_resident(inner, place)
}

/// The place given, if it is the resident's that has this key.
pub(crate) fn find_at<K: HashedKey, V: Copy>(
    inner: &Inner<'_, K, V>,
    place: usize,
    key: &K,
) -> Option<u16>
    ensures place { IfSome result (λ p. p ≡ place) }
    ensures within { IfSome result (λ p. p < length inner.now.records.now) }
    ensures resides { Within K.Key.meaning K.HashedKey.hashed inner.now → IfSome result (λ p. Resides K.Key.meaning K.HashedKey.hashed (K.Key.meaning key.now) p inner.now) }
    ensures look { (d : V) → Within K.Key.meaning K.HashedKey.hashed inner.now → option_map (item_at K.Key.meaning d inner.now.records.now) result ≡ in_place place (look (K.Key.meaning key.now) (state K.Key.meaning d inner.now)) }
{
    let narrow = u16::try_from(place).ok()?;
    stands_in(inner, narrow, key).then_some(narrow)
}
