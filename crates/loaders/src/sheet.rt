//! The sheet: text with a record on each line, of which the first with the key counts.

ghost use Rattle.std.specs.Prelude.{◌≡◌};
ghost use Rattle.loaders.specs.Look.{look, sheet_entries};

use crate::fault::{Cause, Fault};
use crate::loader::Loader;
use keys::kind::WrittenKey;
use survey::entry::read_entry;
use survey::station::Station;

/// A loader over the text of a survey sheet.
#[derive(Clone, Copy)]
pub struct Sheet<'a> {
    pub text: &'a str,
}

/// The station on the first line with the key, unless a broken line comes before it.
fn search_sheet<K: WrittenKey>(sheet: &str, key: &K) -> Result<Station, Fault>
    ensures { result ≡ look 1 (sheet_entries K.WrittenKey.meant sheet.now) (K.Key.meaning key.now) }
{
    for (before, line) in sheet.split_inclusive('\n').enumerate() {
        let broken = Fault::new(Cause::BrokenLine(before + 1));
        let line = line.strip_suffix('\n').ok_or(broken)?;
        let entry = read_entry::<K>(line).ok_or(broken)?;
        if entry.key.same(key) {
            return Ok(entry.value);
        }
    }
    Err(Fault::new(Cause::NoRecord))
}

impl<'a, K: WrittenKey> Loader<K, Station> for Sheet<'a> {
    ghost given = { λ sheet word. look 1 (sheet_entries K.WrittenKey.meant sheet.text.now) word };

    fn ask(&mut self, key: &K) -> Result<Station, Fault> {
        search_sheet(self.text, key)
    }
}
