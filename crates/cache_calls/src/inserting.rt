ghost use Rattle.std.specs.Prelude.{◌≡◌, ◌≤◌, if◌then◌else◌, nat_eq};
ghost use Rattle.cache_core.specs.View.{value_at};
ghost use Rattle.cache_calls.specs.Parts.{Brings, Claims};

use cache_core::Inner;
use keys::kind::HashedKey;
use machine::report::Report;
use records::Record;

/// Brings in a key that is not resident and has this hash, with a value.
pub(crate) fn bring_in<K: HashedKey, V: Copy>(
    inner: &mut Inner<'_, K, V>,
    hash: u64,
    key: K,
    value: V,
) -> Report
    requires { 1 ≤ inner.old.policy.core.capacity }
    ensures { Brings K.Key.meaning K.HashedKey.hashed inner.old hash key value result inner.new }
{
    let Some(inserted) = inner.admit(hash, key) else {
        unreachable!()
    };
    inner.set_value(inserted.place, value);
    inserted.into()
}

/// The value in a record, or another where there is no such record.
fn value_or<K: Copy, V: Copy>(records: &[Record<K, V>], place: u16, other: V) -> V
    ensures { result ≡ value_at other records.now place }
{
    match records.get(place as usize) {
        Some(record) => record.value,
        None => other,
    }
}

/// What a claim finds in a newcomer's place: the given value if the place was never opened, else what lies there.
fn lying_in<K: HashedKey, V: Copy>(
    inner: &Inner<'_, K, V>,
    place: u16,
    opened: usize,
    given: V,
) -> V
    ensures { result ≡ (if nat_eq place opened then given else value_at given inner.now.records.now place) }
{
    if place as usize == opened {
        given
    } else {
        value_or(inner.records, place, given)
    }
}

/// Brings in a key that is not resident and has this hash, with the value that a claim finds.
pub(crate) fn claim_place<K: HashedKey, V: Copy>(
    inner: &mut Inner<'_, K, V>,
    hash: u64,
    key: K,
    given: V,
) -> (V, Report)
    requires { 1 ≤ inner.old.policy.core.capacity }
    ensures { Claims K.Key.meaning K.HashedKey.hashed inner.old hash key given result inner.new }
{
    let opened = inner.policy.opened();
    let Some(inserted) = inner.admit(hash, key) else {
        unreachable!()
    };
    let value = lying_in(inner, inserted.place, opened, given);
    inner.set_value(inserted.place, value);
    (value, inserted.into())
}
