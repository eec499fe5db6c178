//! Texts taken apart: at a mark, and after a label.

ghost use Rattle.std.specs.Prelude.{◌≡◌};
ghost use Rattle.std.specs.Option.{option_map};
ghost use Rattle.text.specs.Field.{cut, field_text, mark_code, parts, stripped};

/// A character at which texts are cut.
#[derive(Clone, Copy, PartialEq, Eq, Debug)]
pub enum Mark {
    /// Ends a line.
    LineFeed,
    /// Stands between two fields.
    Space,
    /// Stands between the two numbers of a key.
    Dot,
}

impl From<Mark> for char {
    ghost from_gives = { λ mark c. c ≡ mark_code mark };

    fn from(mark: Mark) -> char {
        match mark {
            Mark::LineFeed => '\n',
            Mark::Space => ' ',
            Mark::Dot => '.',
        }
    }
}

/// What stands before the first `mark`, and what stands after it.
pub fn cut_at(text: &str, mark: Mark) -> Option<(&str, &str)>
    ensures { option_map parts result ≡ cut (mark_code mark) text.now }
{
    text.split_once(char::from(mark))
}

/// What follows `label` at the beginning of `text`.
pub fn after_label<'a>(text: &'a str, label: &str) -> Option<&'a str>
    ensures { option_map (λ x. x.now) result ≡ stripped label.now text.now }
{
    text.strip_prefix(label)
}

/// The first field, which bears `label` and ends at a space, and what follows that space.
pub fn field<'a>(text: &'a str, label: &str) -> Option<(&'a str, &'a str)>
    ensures { option_map parts result ≡ field_text label.now text.now }
{
    cut_at(after_label(text, label)?, Mark::Space)
}
