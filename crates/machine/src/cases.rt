//! The worked cases.

ghost use Rattle.machine.specs.Cases.{WorkedCases};

/// The tables of limits and of runs hold.
pub fn worked_cases()
    ensures { WorkedCases }
{}
