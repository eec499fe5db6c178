//! The limits that follow from the capacity.

ghost use Rattle.std.specs.Prelude.{◌≡◌};
ghost use Rattle.machine.specs.Limits.{limits_of};

/// How many residents Small and Main and how many keys Ghost hold at most, and how long the window is.
#[derive(Clone, Copy, PartialEq, Eq, Debug)]
pub struct Limits {
    pub small: usize,
    pub main: usize,
    pub ghost_keys: usize,
    pub window: usize,
}

impl Limits {
    /// The limits of a cache of this capacity.
    pub fn of(capacity: usize) -> Self
        ensures { result ≡ limits_of capacity }
    {
        let small = if capacity <= 1 {
            0
        } else {
            (capacity / 10).max(1)
        };
        Limits {
            small,
            main: capacity - small,
            ghost_keys: capacity / 2,
            window: small.div_ceil(2),
        }
    }
}
