//! The words of the command: `kind=number sheet=FILE KEY KEY ..`.

ghost use Rattle.std.specs.Prelude.{◌≡◌};
ghost use Rattle.lookup.specs.Command.{word_text, word_of};

use text::field::after_label;

/// A word of the command line.
#[derive(Clone, Copy)]
pub enum Word<'a> {
    /// `kind=..`: the keys that follow are of this kind.
    Kind(&'a str),
    /// `sheet=..`: the keys that follow are looked up in this file.
    Sheet(&'a str),
    /// Any other word is a key.
    Key(&'a str),
}

impl<'a> From<&'a str> for Word<'a> {
    ghost from_gives = { λ text word. word_of word ≡ word_text text.now };

    fn from(text: &'a str) -> Word<'a> {
        if let Some(kind) = after_label(text, "kind=") {
            Word::Kind(kind)
        } else if let Some(file) = after_label(text, "sheet=") {
            Word::Sheet(file)
        } else {
            Word::Key(text)
        }
    }
}
