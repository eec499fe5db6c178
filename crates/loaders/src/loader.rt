//! The interface of a loader.

ghost use Rattle.std.specs.Prelude.{◌≡◌, ℕ, List, Result};
ghost use Rattle.loaders.specs.declared.fault.Fault.{Fault};

use crate::fault::Fault;
use keys::kind::Key;

/// A source of records: its meaning gives each key's meaning a value or a fault.
pub trait Loader<K: Key, V> {
    ghost given: { Self → List ℕ → Result V Fault };

    /// The key's value or the fault, as the meaning has it; asking changes no part of the meaning.
    fn ask(&mut self, key: &K) -> Result<V, Fault>
        ensures answers { result ≡ given self.old (K.Key.meaning key.now) }
        ensures keeps { given self.new ≡ given self.old };
}
