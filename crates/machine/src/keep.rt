//! The interface of a keep rule.

ghost use Rattle.std.specs.Prelude.{◌≡◌, ℕ, Bool, List};

use keys::kind::Key;

/// A rule that says which residents a retain keeps, by the key's meaning and the value alone.
pub trait KeepRule<K: Key, V> {
    ghost keeps: { Self → List ℕ → V → Bool };

    /// Whether the resident stays.
    fn keep(&self, key: &K, value: &V) -> bool
        ensures { result ≡ keeps self.now (K.Key.meaning key.now) value.now };
}
