//! Numbers in text: decimal digits with no plus, no leading zero and no `-0`.

ghost use Rattle.std.specs.Prelude.{◌≡◌, ℕ, ◌^◌, ◌<◌, ◌||◌, true, false, List, None, Option, Result, decimal, MatchOption, FitsSigned, ◌≢◌};
ghost use Rattle.std.specs.Int.{w32};
ghost use Rattle.std.specs.Fmt.{signed_decimal};
ghost use Rattle.std.specs.Result.{result_ok};
ghost use Rattle.text.specs.Number.{plain, negative, unsigned_text, signed_text};

use std::str::FromStr;

/// A type of numbers, each with one numeral.
pub trait Numeral: FromStr<Err: Drop> {
    ghost numeral: { Self → List ℕ };

    ghost Fits: { Self → Type 0 };

    ghost written: { List ℕ → Option Self };

    /// Whether `text` begins as a numeral may: of such texts `parse` reads the numerals alone.
    fn begins(text: &str) -> bool
        ensures refused { result ≡ false → None ≡ written text.now }
        ensures parsed { result ≡ true → (r : Result Self Self.Err) → Self.FromStr.from_str_gives text.now r → result_ok r ≡ written text.now }
        ensures exact { (r : Option Self) → r ≡ written text.now → MatchOption r ((n : Self) → Fits n → text.now ≢ numeral n) (λ n. text.now ≡ numeral n) };
}

/// Whether `digits` begins with 1 to 9, or is `0` alone.
fn begins_plain(digits: &[u8]) -> bool
    ensures { result ≡ plain digits.now }
{
    matches!(digits, [b'0'] | [b'1'..=b'9', ..])
}

impl Numeral for u16 {
    ghost numeral = { decimal };

    ghost Fits = { λ n. n < 2 ^ 16 };

    ghost written = { unsigned_text (2 ^ 16) };

    fn begins(text: &str) -> bool {
        begins_plain(text.as_bytes())
    }
}

/// Whether `text` begins plainly, or with a minus and 1 to 9.
fn begins_signed(text: &[u8]) -> bool
    ensures { result ≡ negative text.now || plain text.now }
{
    matches!(text, [b'-', b'1'..=b'9', ..]) || begins_plain(text)
}

impl Numeral for i32 {
    ghost numeral = { signed_decimal };

    ghost Fits = { FitsSigned w32 };

    ghost written = { signed_text };

    fn begins(text: &str) -> bool {
        begins_signed(text.as_bytes())
    }
}

/// The number that `text` writes: no text but a numeral is read, and each of these is.
pub fn read_number<N: Numeral>(text: &str) -> Option<N>
    ensures value { result ≡ N.written text.now }
    ensures exact { MatchOption result ((n : N) → N.Fits n → text.now ≢ N.numeral n) (λ n. text.now ≡ N.numeral n) }
{
    if !N::begins(text) {
        return None;
    }
    text.parse::<N>().ok()
}
