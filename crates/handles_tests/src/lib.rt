//! Examples of the handle table.
#![tactic(auto)]

#[cfg(test)]
mod tests {
    use handle_laws::is_in;
    use handles::*;

    // The slots of a table that is brought along, all empty.
    fn slots() -> [Slot<Place>; 16] {
        [Slot::vacant(Place(9)); 16]
    }

    #[test]
    fn measures(rt: HostRuntime) {
        assert_eq!(rt; measure(&slots()).ok(), Some(12));
        let odd = [Slot::vacant(Place(0)); 20];
        assert_eq!(rt; measure(&odd).ok(), None);
        assert_eq!(rt; std::mem::size_of::<Slot<Place>>(), 8);
        assert_eq!(rt; std::mem::size_of::<Slot<SheetLine>>(), 8);
    }

    #[test]
    fn finds_and_removes(rt: HostRuntime) {
        let mut slots = slots();
        let mut table = Table::open(&mut slots);
        assert!(rt; table.insert(5, Place(1)).is_ok());
        assert!(rt; table.insert(21, Place(2)).is_ok());
        assert!(rt; table.insert(5, Place(1)).is_ok());
        assert_eq!(rt; table.len(), 3);
        let seen = table.get(5).fold(0u32, |seen, place| {
            seen.wrapping_mul(10).wrapping_add(place.0 as u32)
        });
        assert_eq!(rt; seen, 121);
        assert!(rt; is_in(&table, 5, Place(2)));
        assert!(rt; table.remove(5, Place(1)));
        assert!(rt; table.remove(5, Place(1)));
        assert!(rt; !table.remove(5, Place(1)));
        assert_eq!(rt; table.len(), 1);
    }

    #[test]
    fn refuses_when_full(rt: HostRuntime) {
        let mut slots = slots();
        let mut table = Table::open(&mut slots);
        for i in 0..12u16 {
            assert!(rt; table.insert(i as u64 * 7, Place(i)).is_ok());
        }
        let full = table.insert(3, Place(3));
        assert_eq!(rt; full.map_err(|refusal| refusal.number()), Err(9));
    }

    #[test]
    fn reserves_and_keeps_the_old_slots(rt: HostRuntime) {
        let mut slots = slots();
        let mut larger = [Slot::vacant(Place(9)); 32];
        let hashes = [11u64, 12, 13];
        let rule = ListedHashes { hashes: &hashes };
        let mut table = Table::open(&mut slots);
        assert!(rt; table.insert(11, Place(0)).is_ok());
        assert!(rt; table.insert(12, Place(1)).is_ok());
        let mut brought = &mut larger[0..32];
        let reserved = table.reserve(11, &rule, &mut brought);
        assert_eq!(rt; reserved, Ok(Reserved::Rebuilt));
        assert_eq!(rt; table.capacity(), 24);
        assert_eq!(rt; brought.len(), 16);
        assert!(rt; is_in(&table, 12, Place(1)));
    }
}
