//! Runs of the cache, call by call and as a list, and its size.
#![tactic(auto)]

ghost use Rattle.std.specs.Prelude.{◌+◌, ◌%◌, ◌^◌, true};

#[cfg(test)]
mod tests {
    use cache::{Cache, Record, measure, play};
    use cache_calls::{AskedKeepRule, Unchanged};
    use keys::kind::Key;
    use keys::named::NamedKey;
    use keys::numbered::NumberedKey;
    use loaders::fault::{Cause, Fault};
    use loaders::sheet::Sheet;
    use machine::call::{Answer, Call, Claimed, Fetched, Placed};
    use machine::keep::KeepRule;
    use machine::refusal::Refusal;
    use machine::report::{Part, Report};
    use std::mem::size_of;
    use std::test::Fail;
    use survey::station::Station;

    const SHEET: &str = "key=1.9 east=70 north=-4 up=12\n";

    const NINTH: Station = Station {
        east: 70,
        north: -4,
        up: 12,
    };

    #[derive(Clone, Copy)]
    struct Every {
        stays: bool,
    }

    impl KeepRule<NumberedKey, Station> for Every {
        ghost keeps = { λ rule _ _. rule.stays };

        fn keep(&self, _key: &NumberedKey, _value: &Station) -> bool {
            self.stays
        }
    }

    impl AskedKeepRule<NumberedKey, Station> for Every {
        ghost keeps = { λ rule _ _. rule.stays };

        ghost after = { λ rule _ _. rule };

        fn keep(&mut self, _key: &NumberedKey, _value: &Station) -> bool {
            self.stays
        }
    }

    /// A rule that keeps all and counts its asks, whatever the key.
    #[derive(Clone, Copy)]
    struct Counting {
        asks: u64,
    }

    impl<K: Key, V> AskedKeepRule<K, V> for Counting {
        ghost keeps = { λ _ _ _. true };

        ghost after = { λ rule _ _. record { asks = (rule.asks + 1) % 2 ^ 64 } };

        fn keep(&mut self, _key: &K, _value: &V) -> bool {
            self.asks = self.asks.wrapping_add(1);
            true
        }
    }

    /// A struct that holds a cache and says nothing of its keys.
    #[derive(Drop)]
    struct Trip<'a, K, V> {
        cache: Cache<'a, K, V>,
    }

    fn key(station: u16) -> NumberedKey {
        NumberedKey { survey: 1, station }
    }

    fn at(east: i32) -> Station {
        Station {
            east,
            north: 0,
            up: 0,
        }
    }

    fn blank() -> Record<NumberedKey, Station> {
        Record {
            key: key(0),
            value: at(0),
            remembered: key(0),
        }
    }

    fn told(place: usize, joined: Part, left: Option<Part>, chances: usize) -> Report {
        Report {
            place,
            joined,
            left,
            chances,
        }
    }

    #[test]
    fn calls_on_two_records(rt: HostRuntime) {
        let mut records = [blank(); 2];
        let mut sheet = Sheet { text: SHEET };
        let mut cache = Cache::open(&mut records);
        assert_eq!(rt; cache.capacity(), 2);
        assert_eq!(rt;
            cache.put(key(1), at(1)),
            Ok(Placed::New(told(0, Part::Small, None, 0)))
        );
        assert_eq!(rt;
            cache.fetch(&mut sheet, key(9)),
            Ok(Fetched::New(NINTH, told(1, Part::Main, None, 0)))
        );
        assert_eq!(rt; cache.claim(key(1), at(5)), Ok(Claimed::Held((0, at(1)))));
        assert_eq!(rt; cache.write_at(0, &key(1), at(6)), Ok(()));
        assert_eq!(rt;
            cache.write_at(1, &key(1), at(7)),
            Err(Refusal::NotInPlace(1))
        );
        assert_eq!(rt; cache.peek(&key(1)), Some(at(6)));
        assert_eq!(rt; cache.get(&key(2)), None);
        assert_eq!(rt; cache.get_at(0, &key(1)), Some(at(6)));
        assert!(rt; cache.contains(&key(9)));
        cache.retain(&mut Unchanged {
            rule: Every { stays: true },
        });
        assert!(rt; cache.remove(&key(9)));
        cache.retain(&mut Every { stays: false });
        assert!(rt; !cache.contains(&key(1)));
        cache.clear();
        assert_eq!(rt; cache.peek(&key(1)), None);
    }

    #[test]
    fn a_list_of_calls(rt: HostRuntime) -> Result<(), Fail> {
        let mut records = [blank(); 2];
        let mut sheet = Sheet { text: SHEET };
        let calls: [Call<NumberedKey, Station, Every>; 6] = [
            Call::Put(key(1), at(1)),
            Call::Fetch(key(9)),
            Call::Get(key(9)),
            Call::Put(key(4), at(2)),
            Call::Put(key(1), at(1)),
            Call::Fetch(key(2)),
        ];
        let mut answers = [Answer::Done; 6];
        assert_eq!(rt; play(&mut records, &mut sheet, &calls, &mut answers), Ok(6));
        assert_eq!(rt;
            answers[3],
            Answer::New(told(0, Part::Small, Some(Part::Small), 0))
        );
        assert_eq!(rt;
            answers[4],
            Answer::New(told(1, Part::Main, Some(Part::Main), 1))
        );
        let why = Refusal::NotLoaded(Fault::new(Cause::NoRecord));
        assert_eq!(rt; answers[5], Answer::Refused(why));
        assert_eq!(rt; why.number(), 5);
        Ok(())
    }

    #[test]
    fn a_rule_that_counts_its_asks(rt: HostRuntime) {
        let mut records = [blank(); 2];
        let mut trip = Trip {
            cache: Cache::open(&mut records),
        };
        assert!(rt; trip.cache.put(key(1), at(1)).is_ok());
        assert!(rt; trip.cache.put(key(2), at(2)).is_ok());
        let mut rule = Counting { asks: 0 };
        trip.cache.retain(&mut rule);
        assert_eq!(rt; rule.asks, 2);
    }

    #[test]
    fn no_record(rt: HostRuntime) {
        let mut none: [Record<NumberedKey, Station>; 0] = [];
        assert_eq!(rt; measure(&none), Err(Refusal::NoRecords));
        let mut cache = Cache::open(&mut none);
        assert_eq!(rt; cache.put(key(1), at(1)), Err(Refusal::NoCapacity));
        assert!(rt; !cache.contains(&key(1)));
    }

    #[test]
    fn size_for_512_named_stations(rt: HostRuntime) -> Result<(), Fail> {
        let cache = size_of::<Cache<'_, NamedKey, Station>>();
        let records = 512 * size_of::<Record<NamedKey, Station>>();
        println!(rt; "cache {cache} bytes, records {records} bytes")?;
        assert!(rt; cache + records <= 65536);
        Ok(())
    }
}
