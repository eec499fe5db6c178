//! Numbered keys: a survey and a station, written `12.7`.

ghost use Rattle.std.specs.Prelude.{◌≡◌, ℕ, ◌^◌, ◌<◌, Some, MatchOption, ◌≢◌};
ghost use Rattle.std.specs.Option.{option_map};
ghost use Rattle.keys.specs.Hash.{hash_of};
ghost use Rattle.keys.specs.Numbered.{dotted, numbers, numbered_form, numbered_text};

use crate::hash::{SEED, finish, mix};
use crate::kind::{HashedKey, Key, WrittenKey};
use std::fmt;
use text::field::{Mark, cut_at};
use text::number::read_number;

/// A station by the number of its survey and its own number there.
#[derive(Clone, Copy, PartialEq, Eq, Debug)]
pub struct NumberedKey {
    pub survey: u16,
    pub station: u16,
}

impl Key for NumberedKey {
    ghost meaning = { numbers };

    fn same(&self, other: &Self) -> bool {
        self == other
    }
}

impl HashedKey for NumberedKey {
    ghost hashed = { hash_of };

    fn hash(&self) -> u64 {
        let survey = u64::from(self.survey);
        let station = u64::from(self.station);
        finish(mix(mix(SEED, survey), station))
    }
}

impl fmt::Display for NumberedKey {
    ghost output = { λ k. Some (dotted k.survey k.station) };

    fn fmt<W: fmt::Write>(&self, f: &mut fmt::Formatter<W>) -> fmt::Result {
        let NumberedKey { survey, station } = *self;
        write!(f, "{survey}.{station}")
    }
}

/// The numbered key that `text` writes: no text but `SURVEY.STATION` is read, and each of these is.
#[tactic(auto, using(crate::proofs::Numbering::numbered_exact))]
pub fn read_numbered(text: &str) -> Option<NumberedKey>
    ensures value { option_map numbers result ≡ numbered_text text.now }
    ensures exact { MatchOption result ((s t : ℕ) → s < 2 ^ 16 → t < 2 ^ 16 → text.now ≢ dotted s t) (λ k. text.now ≡ dotted k.survey k.station) }
{
    let (survey, station) = cut_at(text, Mark::Dot)?;
    let survey = read_number(survey)?;
    let station = read_number(station)?;
    Some(NumberedKey { survey, station })
}

impl WrittenKey for NumberedKey {
    ghost meant = { numbered_text };

    ghost advised = { numbered_form };

    fn form() -> &'static str {
        "a survey and a station number, each 0 to 65535, as 12.7"
    }

    fn read(text: &str) -> Option<NumberedKey> {
        read_numbered(text)
    }
}
