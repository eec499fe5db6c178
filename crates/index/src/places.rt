ghost use Rattle.std.specs.Prelude.{◌≡◌, ℕ, List, Option};
ghost use Rattle.std.specs.Option.{option_map};

use keys::kind::Key;

/// Places in which keys lie.
pub trait KeyPlaces<K: Key> {
    ghost lying: { Self → ℕ → Option (List ℕ) };

    /// The key in a place, or none where there is no such place.
    fn key_at(&self, place: u16) -> Option<K>
        ensures { option_map K.Key.meaning result ≡ lying self.now place };
}
