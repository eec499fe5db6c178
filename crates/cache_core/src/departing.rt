ghost use Rattle.cache_core.specs.Filing.{Remembers, SameButRemembered};
ghost use Rattle.cache_core.specs.Departing.{Departs};

use crate::inner::Inner;
use keys::kind::HashedKey;
use policy::Noted;
use policy::plan::Inserted;
use records::Column;

impl<K: HashedKey, V: Copy> Inner<'_, K, V> {
    /// Ghost remembers the key of a place at a node.
    fn remember(&mut self, place: u16, noted: Noted)
        ensures tied { Remembers K.Key.meaning K.HashedKey.hashed self.old place noted self.new }
        ensures kept { SameButRemembered self.old self.new }
    {
        self.free_node(noted);
        let key = self.key_of(Column::Resident, place);
        self.note_key(noted.node, key);
    }

    /// The key of who left for a newcomer goes out of the residents' index, and to Ghost if it left Small.
    pub(crate) fn depart(&mut self, inserted: Inserted)
        ensures { Departs K.Key.meaning K.HashedKey.hashed self.old inserted.place inserted.vacancy.noted inserted.vacancy.left self.new }
    {
        match (inserted.vacancy.noted, inserted.vacancy.left) {
            (Some(noted), _) => {
                self.remember(inserted.place, noted);
                self.unseat(inserted.place);
            }
            (None, Some(_)) => {
                self.unseat(inserted.place);
            }
            (None, None) => {}
        }
    }
}
