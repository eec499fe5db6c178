//! Named keys: 1 to 16 ASCII letters, digits, hyphens and underscores, in which small letters mean capital ones.

ghost use Rattle.std.specs.Prelude.{◌≡◌, map, fold, take, IfSome, Some};
ghost use Rattle.std.specs.Option.{option_map};
ghost use Rattle.keys.specs.Hash.{hash_of, mixed};
ghost use Rattle.keys.specs.Named.{folded, is_name_lem, name_byte, named_form, named_text};

use crate::hash::{SEED, finish, mix};
use crate::kind::{HashedKey, Key, WrittenKey};
use std::fmt;

/// The most bytes that a name has.
pub const LONGEST_NAME: usize = 16;

/// A station by its name, kept as it was first spelled. In 17 bytes, since memory is short: a string of fixed room would
/// take 24, and each record has two keys.
#[derive(Clone, Copy)]
pub struct NamedKey {
    length: u8,
    bytes: [u8; LONGEST_NAME],
}

impl NamedKey {
    /// The bytes of the name as it was spelled.
    pub fn spelling(&self) -> &[u8]
        ensures { result.now ≡ take self.now.length self.now.bytes }
    {
        &self.bytes[..LONGEST_NAME.min(self.length as usize)]
    }
}

/// The numbers of a spelling's meaning, mixed into a hash.
fn mix_name(spelling: &[u8]) -> u64
    ensures { result ≡ fold mixed 0xcbf29ce484222325 (map folded spelling.now) }
{
    spelling.iter().fold(SEED, |so_far, byte| {
        mix(so_far, u64::from(byte.to_ascii_uppercase()))
    })
}

/// Whether a name may hold `byte`.
fn is_name_byte(byte: u8) -> bool
    ensures { result ≡ name_byte byte }
{
    byte.is_ascii_alphanumeric() || byte == b'-' || byte == b'_'
}

/// Whether `bytes` spells a name.
fn is_name(bytes: &[u8]) -> bool
    ensures { result ≡ is_name_lem bytes.now }
{
    (1..=LONGEST_NAME).contains(&bytes.len()) && bytes.iter().all(|byte| is_name_byte(*byte))
}

/// The named key that `text` writes.
pub fn read_named(text: &str) -> Option<NamedKey>
    ensures value { option_map (λ k. map folded (take k.length k.bytes)) result ≡ named_text text.now }
    ensures spelled { IfSome result (λ k. take k.length k.bytes ≡ text.now) }
{
    let spelling = text.as_bytes();
    if !is_name(spelling) {
        return None;
    }
    let mut bytes = [0; LONGEST_NAME];
    bytes[..spelling.len()].copy_from_slice(spelling);
    Some(NamedKey {
        length: spelling.len() as u8,
        bytes,
    })
}

impl Key for NamedKey {
    ghost meaning = { λ k. map folded (take k.length k.bytes) };

    fn same(&self, other: &Self) -> bool {
        self.spelling().eq_ignore_ascii_case(other.spelling())
    }
}

impl HashedKey for NamedKey {
    ghost hashed = { hash_of };

    fn hash(&self) -> u64 {
        finish(mix_name(self.spelling()))
    }
}

impl fmt::Display for NamedKey {
    ghost output = { λ k. Some (take k.length k.bytes) };

    fn fmt<W: fmt::Write>(&self, f: &mut fmt::Formatter<W>) -> fmt::Result {
        f.write_str(std::str::from_utf8(self.spelling()).map_err(|_| fmt::Error)?)
    }
}

impl WrittenKey for NamedKey {
    ghost meant = { named_text };

    ghost advised = { named_form };

    fn form() -> &'static str {
        "1 to 16 letters, digits, hyphens and underscores, as Upper-3"
    }

    fn read(text: &str) -> Option<NamedKey> {
        read_named(text)
    }
}
