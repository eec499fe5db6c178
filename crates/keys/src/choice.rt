//! Which key kind is meant, where a text says it.

ghost use Rattle.std.specs.Prelude.{◌≡◌, Some, codes};
ghost use Rattle.std.specs.Result.{result_ok};
ghost use Rattle.keys.specs.Choice.{kind_text};

use std::error::Error;
use std::fmt;
use std::str::FromStr;

/// One of the two kinds of key.
#[derive(Clone, Copy, PartialEq, Eq, Debug)]
pub enum KeyKind {
    /// A survey and a station number.
    Number,
    /// A name.
    Name,
}

/// The text names no kind of key.
#[derive(Clone, Copy, PartialEq, Eq, Debug)]
pub struct UnknownKind;

impl fmt::Display for UnknownKind {
    ghost output = { λ _. Some (codes "the kinds are kind=number and kind=name") };

    fn fmt<W: fmt::Write>(&self, f: &mut fmt::Formatter<W>) -> fmt::Result {
        f.write_str("the kinds are kind=number and kind=name")
    }
}

impl Error for UnknownKind {}

impl FromStr for KeyKind {
    type Err = UnknownKind;

    ghost from_str_gives = { λ text kind. result_ok kind ≡ kind_text text };

    fn from_str(text: &str) -> Result<KeyKind, UnknownKind> {
        match text {
            "number" => Ok(KeyKind::Number),
            "name" => Ok(KeyKind::Name),
            _ => Err(UnknownKind),
        }
    }
}
