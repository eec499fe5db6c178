ghost use Rattle.std.specs.Prelude.{◌≡◌, ℕ, Bool, List, Decides};

/// A kind of handle, compared by meaning.
pub trait Handle: Copy {
    ghost meaning: { Self → List ℕ };

    /// Whether two handles mean the same.
    fn same(&self, other: &Self) -> bool
        ensures { Decides result (meaning self.now ≡ meaning other.now) };
}

/// A rehash rule: the hash of each handle, alike for handles of equal meaning.
pub trait Rehash<X: Handle> {
    ghost rehashed: { Self → List ℕ → ℕ };

    /// The hash that a handle is filed under.
    fn hash_of(&self, handle: &X) -> u64
        ensures { result ≡ rehashed self.now (X.Handle.meaning handle.now) };
}

/// What a search among candidates looks for: a trait and no closure, so that its answer is an equation over a function
/// of it, and asks nothing of the caller.
pub trait Sought<X: Copy> {
    ghost fits: { Self → X → Bool };

    /// Whether a candidate is it.
    fn matches(&self, handle: X) -> bool
        ensures { result ≡ fits self.now handle };
}
