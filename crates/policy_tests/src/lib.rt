//! The size of the policy, and runs of its calls.
#![tactic(auto)]

#[cfg(test)]
mod tests {
    use policy::{Location, Policy};
    use std::mem::size_of;
    use std::test::Fail;

    #[test]
    fn size_for_512_places(rt: HostRuntime) -> Result<(), Fail> {
        println!(rt; "policy for 512 places: {} bytes", size_of::<Policy>())?;
        assert_eq!(rt; size_of::<Policy>(), 6216);
        Ok(())
    }

    #[test]
    fn capacities(rt: HostRuntime) {
        assert_eq!(rt; Policy::open(512).capacity(), 512);
        assert_eq!(rt; Policy::open(513).capacity(), 0);
        assert_eq!(rt; Policy::open(0).capacity(), 0);
    }

    #[test]
    fn nothing_is_resident_at_first(rt: HostRuntime) {
        let mut policy = Policy::open(20);
        policy.hit(3);
        assert!(rt; !policy.remove(3));
        assert!(rt; !policy.discard(3));
        assert!(rt; !policy.remembers(9));
        assert!(rt; policy.location(3) == Location::Free);
    }

    #[test]
    fn insertions_of_two_places(rt: HostRuntime) -> Result<(), Fail> {
        let mut policy = Policy::open(2);
        assert_eq!(rt; policy.insert(false).ok_or("refused")?.place, 0);
        assert_eq!(rt; policy.insert(false).ok_or("refused")?.place, 1);
        policy.hit(1);
        let third = policy.insert(false).ok_or("refused")?;
        assert_eq!(rt; third.place, 0);
        assert!(rt; policy.remembers(third.vacancy.noted.ok_or("not noted")?.node));
        assert!(rt; policy.discard(0));
        let fourth = policy.insert(true).ok_or("refused")?;
        assert_eq!(rt; fourth.place, 1);
        assert_eq!(rt; fourth.vacancy.chances, 1);
        Ok(())
    }
}
