//! The measuring of a table of records before a cache is opened over it.

ghost use Rattle.std.specs.Prelude.{◌≡◌};
ghost use Rattle.machine.specs.Measure.{measured};

use crate::refusal::Refusal;

/// The capacity of a cache over this many records, or why there is none: 1 to 512 records are allowed.
pub fn measure(records: usize) -> Result<usize, Refusal>
    ensures { result ≡ measured records }
{
    match records {
        0 => Err(Refusal::NoRecords),
        1..=512 => Ok(records),
        _ => Err(Refusal::TooManyRecords(records)),
    }
}
