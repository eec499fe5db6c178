//! A keep rule that asking may change.

ghost use Rattle.std.specs.Prelude.{◌≡◌, ℕ, Bool, List};

use keys::kind::Key;
use machine::keep::KeepRule;

/// A rule that says which residents a retain keeps, by the key's meaning and the value alone. Asking may change the
/// rule, as one that counts does, but not what it keeps; `after` is the rule once it was asked.
pub trait AskedKeepRule<K: Key, V> {
    ghost keeps: { Self → List ℕ → V → Bool };

    ghost after: { Self → List ℕ → V → Self };

    /// Whether the resident stays.
    fn keep(&mut self, key: &K, value: &V) -> bool
        ensures answers { result ≡ keeps self.old (K.Key.meaning key.now) value.now }
        ensures asked { self.new ≡ after self.old (K.Key.meaning key.now) value.now }
        ensures meaning { keeps self.new ≡ keeps self.old };
}

/// A `KeepRule`, as a rule that asking does not change. It is a type of its own, since impls may not overlap: beside one for
/// every `KeepRule` nobody could write a rule for every kind of key, or both traits for one type.
#[derive(Clone, Copy, PartialEq, Eq, Debug)]
pub struct Unchanged<R> {
    pub rule: R,
}

impl<K: Key, V, R: KeepRule<K, V>> AskedKeepRule<K, V> for Unchanged<R> {
    ghost keeps = { λ unchanged. R.KeepRule.keeps unchanged.rule };

    ghost after = { λ unchanged _ _. unchanged };

    fn keep(&mut self, key: &K, value: &V) -> bool {
        self.rule.keep(key, value)
    }
}
