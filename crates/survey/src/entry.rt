//! A value under its key, and the line of a survey sheet that gives one: `key=1.9 east=70 north=-4 up=12`.

ghost use Rattle.std.specs.Prelude.{◌≡◌};
ghost use Rattle.std.specs.Option.{option_map};
ghost use Rattle.survey.specs.Entry.{entry_of, line_text};

use crate::station::{Station, read_station};
use keys::kind::WrittenKey;
use text::field::field;

/// A value under its key.
#[derive(Clone, Copy)]
pub struct Entry<K, V> {
    pub key: K,
    pub value: V,
}

/// The entry that `line` writes, without its line feed.
pub fn read_entry<K: WrittenKey>(line: &str) -> Option<Entry<K, Station>>
    ensures { option_map (entry_of K.Key.meaning) result ≡ line_text K.WrittenKey.meant line.now }
{
    let (key, rest) = field(line, "key=")?;
    let key = K::read(key)?;
    let value = read_station(rest)?;
    Some(Entry { key, value })
}
