//! Why a loader has no value to give.

ghost use Rattle.std.specs.Prelude.{◌≡◌, Some};
ghost use Rattle.loaders.specs.Fault.{cause_line, cause_number, cause_text, fault, passed_up_lem, raised};

use std::fmt;

/// The cause of a fault.
#[derive(Clone, Copy, PartialEq, Eq, Debug)]
pub enum Cause {
    /// The loader has no record of the key.
    NoRecord,
    /// This line of a sheet, counted from 1, is broken.
    BrokenLine(usize),
    /// The shifted coordinates do not fit 32 bits.
    OutOfRange,
}

impl fmt::Display for Cause {
    ghost output = { λ c. Some (cause_text c) };

    fn fmt<W: fmt::Write>(&self, f: &mut fmt::Formatter<W>) -> fmt::Result {
        match self {
            Cause::NoRecord => f.write_str("no record of the key"),
            Cause::BrokenLine(line) => write!(f, "line {line} is broken"),
            Cause::OutOfRange => f.write_str("shifted out of range"),
        }
    }
}

/// A loader's refusal: its cause, and the layers that it has passed on the way up.
#[derive(Clone, Copy, PartialEq, Eq, Debug)]
pub struct Fault {
    pub cause: Cause,
    pub depth: u8,
}

impl Cause {
    /// The cause's number in the refusal table.
    pub fn number(&self) -> u8
        ensures { result ≡ cause_number self.now }
    {
        match self {
            Cause::NoRecord => 6,
            Cause::BrokenLine(_) => 7,
            Cause::OutOfRange => 8,
        }
    }

    /// The line that the cause names, or 0, as answers write it.
    pub fn line(&self) -> usize
        ensures { result ≡ cause_line self.now }
    {
        match self {
            Cause::BrokenLine(line) => *line,
            Cause::NoRecord | Cause::OutOfRange => 0,
        }
    }
}

impl Fault {
    /// The fault where it arises.
    pub fn new(cause: Cause) -> Self
        ensures { result ≡ fault cause }
    {
        Fault { cause, depth: 0 }
    }

    /// The fault as the layer above hands it on: one layer more, staying at 255.
    pub fn passed_up(self) -> Self
        ensures { result ≡ passed_up_lem self }
    {
        let depth = self.depth.saturating_add(1);
        Fault { depth, ..self }
    }
}

/// An answer as the layer above hands it on.
pub fn handed_up<V>(answer: Result<V, Fault>) -> Result<V, Fault>
    ensures { result ≡ raised answer }
{
    answer.map_err(Fault::passed_up)
}
