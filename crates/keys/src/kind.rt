//! The interfaces of a key: `Key`, above it `HashedKey`, and above that `WrittenKey`.

ghost use Rattle.std.specs.Prelude.{◌≡◌, ℕ, List, IfSome, Some, Decides, Option};
ghost use Rattle.std.specs.Option.{option_map};

use std::fmt::Display;

/// A key by its meaning, a list of numbers: keys of equal meaning are one key.
pub trait Key: Copy {
    ghost meaning: { Self → List ℕ };

    /// Whether two keys have one meaning.
    fn same(&self, other: &Self) -> bool
        ensures { Decides result (meaning self.now ≡ meaning other.now) };
}

/// A key with a 64-bit hash, which depends on the meaning alone.
pub trait HashedKey: Key {
    ghost hashed: { List ℕ → ℕ };

    /// The hash of the key's meaning.
    fn hash(&self) -> u64
        ensures { result ≡ hashed (Self.Key.meaning self.now) };
}

/// A key that can be read from text, and is displayed as it was spelled there.
pub trait WrittenKey: HashedKey + Display {
    ghost meant: { List ℕ → Option (List ℕ) };

    ghost advised: { List ℕ };

    /// What a key of this kind looks like, for whoever wrote something else.
    fn form() -> &'static str
        ensures { result.now ≡ advised };

    /// The key that `text` writes: just the texts that `meant` gives a meaning are read.
    fn read(text: &str) -> Option<Self>
        ensures means { option_map Self.Key.meaning result ≡ meant text.now }
        ensures spelled { IfSome result (λ k. Self.Display.output k ≡ Some text.now) };
}
