//! Examples of an index and of keys laid in records.
#![tactic(auto)]

#[cfg(test)]
mod tests {
    use index::KeyIndex;
    use keys::kind::*;
    use keys::numbered::NumberedKey;
    use records::{Column, Record, find_key, lay_key};

    fn key(station: u16) -> NumberedKey {
        NumberedKey { survey: 7, station }
    }

    fn blank() -> Record<NumberedKey, u8> {
        Record {
            key: key(0),
            value: 0,
            remembered: key(0),
        }
    }

    #[test]
    fn finds_what_is_laid(rt: HostRuntime) {
        let mut records = [blank(); 4];
        let mut index = KeyIndex::new();
        let wanted = key(3);
        assert_eq!(rt;
            find_key(&index, &records, Column::Resident, wanted.hash(), &wanted),
            None
        );
        assert!(rt;
            lay_key(
                &mut index,
                &mut records,
                Column::Resident,
                2,
                wanted.hash(),
                wanted,
            )
            .is_ok()
        );
        assert_eq!(rt;
            find_key(&index, &records, Column::Resident, wanted.hash(), &wanted),
            Some(2)
        );
        assert_eq!(rt;
            find_key(&index, &records, Column::Remembered, wanted.hash(), &wanted),
            None
        );
        assert!(rt; index.unfile(wanted.hash(), 2));
        assert!(rt; !index.unfile(wanted.hash(), 2));
        assert_eq!(rt;
            find_key(&index, &records, Column::Resident, wanted.hash(), &wanted),
            None
        );
    }

    #[test]
    fn a_foreign_place_is_never_answered(rt: HostRuntime) {
        let records = [blank(); 4];
        let mut index = KeyIndex::new();
        let wanted = key(3);
        assert!(rt; index.file(wanted.hash(), 9).is_ok());
        assert!(rt; index.file(wanted.hash(), 1).is_ok());
        assert_eq!(rt;
            find_key(&index, &records, Column::Resident, wanted.hash(), &wanted),
            None
        );
    }

    #[test]
    fn refuses_when_full(rt: HostRuntime) {
        let mut index = KeyIndex::new();
        for place in 0..768u16 {
            assert!(rt; index.file(place as u64 * 3, place).is_ok());
        }
        let full = index.file(5, 5);
        assert_eq!(rt; full.map_err(|refusal| refusal.number()), Err(9));
    }

    #[test]
    fn clear_empties(rt: HostRuntime) {
        let mut index = KeyIndex::new();
        assert!(rt; index.file(5, 5).is_ok());
        index.clear();
        assert!(rt; !index.unfile(5, 5));
        assert_eq!(rt; std::mem::size_of::<KeyIndex>(), 8200);
    }
}
