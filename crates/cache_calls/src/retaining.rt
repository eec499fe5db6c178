ghost use Rattle.std.specs.Prelude.{◌≡◌, ◌<◌, cond, ◌&&◌};
ghost use Rattle.queues.specs.Held.{resides};
ghost use Rattle.policy.specs.View.{view};
ghost use Rattle.cache_core.specs.View.{state};
ghost use Rattle.cache_core.specs.Tied.{Within};
ghost use Rattle.cache_calls.specs.Calls.{Does};
ghost use Rattle.cache_calls.specs.Retain.{retained, asked_each, refused, asked_of, dropped, asked_at, Sifts};

use crate::finding::is_resident;
use crate::rule::AskedKeepRule;
use cache_core::Inner;
use keys::kind::HashedKey;
use records::Record;

/// Whether a rule refuses the record of a place.
fn refuses<K: HashedKey, V: Copy, R: AskedKeepRule<K, V>>(
    records: &[Record<K, V>],
    rule: &mut R,
    place: u16,
) -> bool
    ensures answer { result ≡ refused K.Key.meaning (R.AskedKeepRule.keeps rule.old) records.now place }
    ensures asked { rule.new ≡ asked_of K.Key.meaning R.AskedKeepRule.after records.now place rule.old }
    ensures meaning { R.AskedKeepRule.keeps rule.new ≡ R.AskedKeepRule.keeps rule.old }
{
    let Some(record) = records.get(place as usize) else {
        return false;
    };
    !rule.keep(&record.key, &record.value)
}

/// Whether a place has a resident that a rule refuses.
fn is_dropped<K: HashedKey, V: Copy, R: AskedKeepRule<K, V>>(
    inner: &Inner<'_, K, V>,
    rule: &mut R,
    place: u16,
) -> bool
    ensures answer { result ≡ dropped K.Key.meaning (R.AskedKeepRule.keeps rule.old) inner.now place }
    ensures asked { rule.new ≡ asked_at K.Key.meaning R.AskedKeepRule.after inner.now place rule.old }
    ensures meaning { R.AskedKeepRule.keeps rule.new ≡ R.AskedKeepRule.keeps rule.old }
{
    is_resident(inner, place) && refuses(inner.records, rule, place)
}

/// Asks a rule about the resident of a place; one that is refused is flagged, and its key leaves the index.
fn sift<K: HashedKey, V: Copy, R: AskedKeepRule<K, V>>(
    inner: &mut Inner<'_, K, V>,
    rule: &mut R,
    flags: &mut [bool; 512],
    place: u16,
)
    requires { place < 512 }
    ensures { Sifts K.Key.meaning K.HashedKey.hashed R.AskedKeepRule.keeps R.AskedKeepRule.after inner.old rule.old flags.old place inner.new rule.new flags.new }
{
    if is_dropped(inner, rule, place) {
        flags[place as usize] = true;
        inner.unseat(place);
    }
}

/// Drops the residents that a rule refuses; it is asked once for each resident, by rising place.
pub fn retain<K: HashedKey, V: Copy, R: AskedKeepRule<K, V>>(
    inner: &mut Inner<'_, K, V>,
    rule: &mut R,
)
    ensures does { Does K.Key.meaning K.HashedKey.hashed (retained (R.AskedKeepRule.keeps rule.old)) inner.old result inner.new }
    ensures asked { Within K.Key.meaning K.HashedKey.hashed inner.old → (d : V) → rule.new ≡ asked_each R.AskedKeepRule.after rule.old (state K.Key.meaning d inner.old) }
    ensures meaning { R.AskedKeepRule.keeps rule.new ≡ R.AskedKeepRule.keeps rule.old }
    ensures records { inner.new.records.now ≡ inner.old.records.now }
    ensures capacity { inner.new.policy.core.capacity ≡ inner.old.policy.core.capacity }
{
    let mut flags = [false; 512];
    let opened = inner.policy.opened();
    'places: for place in 0..opened {
        sift(inner, rule, &mut flags, place as u16);
    }
    inner.policy.remove_flagged(&flags);
}
