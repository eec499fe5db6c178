ghost use Rattle.index.specs.Filed.{bears};

use crate::places::KeyPlaces;
use handles::{Place, Sought};
use keys::kind::Key;

/// The search for the place of a key.
#[derive(Drop)]
pub(crate) struct PlaceOf<'k, 'p, K, P> {
    pub(crate) key: &'k K,
    pub(crate) places: &'p P,
}

impl<'k, 'p, K: Key, P: KeyPlaces<K>> Sought<Place> for PlaceOf<'k, 'p, K, P> {
    ghost fits = { λ s x. bears (P.KeyPlaces.lying s.places.now) (K.Key.meaning s.key.now) x.0 };

    fn matches(&self, handle: Place) -> bool {
        self.places
            .key_at(handle.0)
            .map_or(false, |key| self.key.same(&key))
    }
}
