//! Tests of the key kinds: how their hashes spread, and that spelling does not count.
#![tactic(auto)]

#[cfg(test)]
mod tests {
    use keys::kind::{HashedKey, Key, WrittenKey};
    use keys::named::NamedKey;
    use keys::numbered::NumberedKey;
    use std::process::Abort;
    use std::test::Fail;

    // How many of the hashes fell into each of 256 buckets, by their lowest 8 bits and by their top 8.
    #[derive(Drop)]
    struct Spread {
        low: [u16; 256],
        top: [u16; 256],
    }

    impl Spread {
        fn count(&mut self, hash: u64) {
            let low = (hash % 256) as usize;
            let top = (hash >> 56) as usize % 256;
            self.low[low] = self.low[low].saturating_add(1);
            self.top[top] = self.top[top].saturating_add(1);
        }
    }

    // 4,096 hashes over 256 buckets are 16 a bucket, give or take 4: none is to be five such steps off.
    fn is_even(buckets: &[u16]) -> bool {
        buckets.iter().all(|count| (2..=36).contains(count))
    }

    fn check_spread<F: Fn(u16) -> Result<u64, Fail>>(
        rt: &impl Abort,
        hash_of: F,
    ) -> Result<(), Fail>
        requires { F.IsAlwaysCallable hash_of }
    {
        let mut spread = Spread {
            low: [0; 256],
            top: [0; 256],
        };
        for number in 0..4096u16 {
            spread.count(hash_of(number)?);
        }
        assert!(rt; is_even(&spread.low), "by low bits");
        assert!(rt; is_even(&spread.top), "by top byte");
        Ok(())
    }

    #[test]
    fn stations_of_a_survey_spread(rt: HostRuntime) -> Result<(), Fail> {
        check_spread(&rt, |station| {
            Ok(NumberedKey { survey: 1, station }.hash())
        })
    }

    #[test]
    fn surveys_spread(rt: HostRuntime) -> Result<(), Fail> {
        check_spread(&rt, |survey| {
            Ok(NumberedKey { survey, station: 1 }.hash())
        })
    }

    #[test]
    fn names_spread(rt: HostRuntime) -> Result<(), Fail> {
        check_spread(&rt, |number| {
            let name = format!(in rt.alloc(); "Upper-{number}")?;
            let key = NamedKey::read(name.as_str()).ok_or("a name")?;
            Ok(key.hash())
        })
    }

    #[test]
    fn spelling_does_not_count(rt: HostRuntime) -> Result<(), Fail> {
        let first = NamedKey::read("Upper-3").ok_or("a name")?;
        let second = NamedKey::read("uPPER-3").ok_or("a name")?;
        let other = NamedKey::read("Upper_3").ok_or("a name")?;
        assert!(rt; first.same(&second));
        assert_eq!(rt; first.hash(), second.hash());
        assert!(rt; !first.same(&other));
        assert!(rt; first.spelling() == b"Upper-3".as_slice());
        Ok(())
    }
}
