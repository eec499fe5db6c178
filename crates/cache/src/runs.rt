//! Calls by lists: on a cache as it is, and on one opened new, with the laws over runs.

ghost use Rattle.std.specs.Prelude.{◌≡◌, ◌<◌, length, slice_set};
ghost use Rattle.cache.specs.Run.{Performed, Plays};

use crate::cache::Cache;
use crate::calls::measure;
use cache_calls::AskedKeepRule;
use keys::kind::HashedKey;
use loaders::loader::Loader;
use machine::call::{Answer, Call};
use machine::refusal::Refusal;
use records::Record;

/// Lays an answer in its place: by index, since a proof knows nothing of what is written through an adapter of `iter_mut`,
/// and not in the loop, since that it lies within memory follows from the length of the slice as it was lent.
fn lay_answer<V: Copy>(answers: &mut [Answer<V>], index: usize, answer: Answer<V>)
    requires { index < length answers.old }
    ensures { answers.new ≡ slice_set answers.old index answer }
{
    answers[index] = answer;
}

impl<'a, K: HashedKey, V: Copy> Cache<'a, K, V> {
    /// Makes calls one after the other and lays the answers in their order, as far as there is room for them. Says how
    /// many calls were made.
    pub(crate) fn perform_all<L: Loader<K, V>, R: AskedKeepRule<K, V> + Copy>(
        &mut self,
        loader: &mut L,
        calls: &[Call<K, V, R>],
        answers: &mut [Answer<V>],
    ) -> usize
        ensures performed { Performed K.Key.meaning K.HashedKey.hashed R.AskedKeepRule.keeps (L.Loader.given loader.old) self.old.inner calls.now answers.old answers.new result self.new.inner }
        ensures meaning { L.Loader.given loader.new ≡ L.Loader.given loader.old }
        ensures capacity { self.new.inner.policy.core.capacity ≡ self.old.inner.policy.core.capacity }
    {
        let count = calls.len().min(answers.len());
        'calls: for i in 0..count {
            let answer = self.perform(loader, &calls[i]);
            lay_answer(answers, i, answer);
        }
        count
    }
}

/// Plays calls on a cache opened new over these records, with one loader behind every fetch, and lays the answers in
/// their order, as far as there is room for them. Says how many calls were played.
pub fn play<K: HashedKey, V: Copy, L: Loader<K, V>, R: AskedKeepRule<K, V> + Copy>(
    records: &mut [Record<K, V>],
    loader: &mut L,
    calls: &[Call<K, V, R>],
    answers: &mut [Answer<V>],
) -> Result<usize, Refusal>
    ensures played { Plays K.Key.meaning R.AskedKeepRule.keeps (length records.old) (L.Loader.given loader.old) calls.now answers.old answers.new result }
    ensures meaning { L.Loader.given loader.new ≡ L.Loader.given loader.old }
{
    measure(records)?;
    let mut cache = Cache::open(records);
    Ok(cache.perform_all(loader, calls, answers))
}
