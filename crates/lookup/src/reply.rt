//! What is told of a station that was asked for.

ghost use Rattle.std.specs.Prelude.{◌≡◌, Some};
ghost use Rattle.lookup.specs.Reply.{finding_text, kind_reply, meant_text, reply_for, reply_text, untold_text};
ghost use Rattle.lookup.specs.declared.reply.Untold.TheVariants.{Refused};

use keys::choice::KeyKind;
use keys::kind::WrittenKey;
use keys::named::NamedKey;
use keys::numbered::NumberedKey;
use loaders::fault::Fault;
use loaders::loader::Loader;
use loaders::sheet::Sheet;
use std::error::Error;
use std::fmt;
use survey::station::Station;

/// Why no station is told of a written key.
#[derive(Clone, Copy, PartialEq, Eq, Debug)]
pub enum Untold {
    /// The loader's fault.
    Refused(Fault),
    /// The text is no key: this is what one looks like.
    Unread(&'static str),
}

impl fmt::Display for Untold {
    ghost output = { λ why. Some (untold_text why) };

    fn fmt<W: fmt::Write>(&self, f: &mut fmt::Formatter<W>) -> fmt::Result {
        match self {
            Untold::Refused(Fault { cause, .. }) => write!(f, "cause={}: {cause}", cause.number()),
            Untold::Unread(form) => write!(f, "unread: a key is {form}"),
        }
    }
}

impl Error for Untold {}

impl From<Fault> for Untold {
    ghost from_gives = { λ fault why. why ≡ Refused fault };

    fn from(fault: Fault) -> Untold {
        Untold::Refused(fault)
    }
}

/// A key as it was asked for, and what was found.
#[derive(Clone, Copy)]
pub struct Reply<'a> {
    pub key: &'a str,
    pub finding: Result<Station, Untold>,
}

impl fmt::Display for Reply<'_> {
    ghost output = { λ r. Some (reply_text r) };

    fn fmt<W: fmt::Write>(&self, f: &mut fmt::Formatter<W>) -> fmt::Result {
        let key = self.key;
        match &self.finding {
            Ok(station) => write!(f, "key={key} {station}"),
            Err(why) => write!(f, "key={key} {why}"),
        }
    }
}

/// The station that `loader` has under the key that `text` writes.
fn find<K: WrittenKey, L: Loader<K, Station>>(loader: &mut L, text: &str) -> Result<Station, Untold>
    ensures tells { finding_text result ≡ meant_text K.WrittenKey.advised (L.Loader.given loader.old) (K.WrittenKey.meant text.now) }
    ensures keeps { L.Loader.given loader.new ≡ L.Loader.given loader.old }
{
    let key = K::read(text).ok_or(Untold::Unread(K::form()))?;
    Ok(loader.ask(&key)?)
}

/// What `loader` has under the key that `text` writes.
pub fn look_up<'a, K: WrittenKey, L: Loader<K, Station>>(loader: &mut L, text: &'a str) -> Reply<'a>
    ensures tells { reply_text result ≡ reply_for K.WrittenKey.advised (L.Loader.given loader.old) K.WrittenKey.meant text.now }
    ensures keeps { L.Loader.given loader.new ≡ L.Loader.given loader.old }
{
    Reply {
        key: text,
        finding: find::<K, L>(loader, text),
    }
}

/// What a sheet of one key kind has under a written key.
pub fn look_up_in_sheet<'a>(kind: KeyKind, sheet: &str, text: &'a str) -> Reply<'a>
    ensures { reply_text result ≡ kind_reply kind sheet.now text.now }
{
    let mut loader = Sheet { text: sheet };
    match kind {
        KeyKind::Number => look_up::<NumberedKey, Sheet>(&mut loader, text),
        KeyKind::Name => look_up::<NamedKey, Sheet>(&mut loader, text),
    }
}
