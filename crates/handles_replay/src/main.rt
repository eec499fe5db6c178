//! Replays calls on a handle table with the answers and slots that the Rust table gave, and counts the differences.
#![tactic(auto)]

mod sample;

use handles::{Place, Slot, Table};
use handles_calls::{Answer, Call, make};
use sample::STEPS;
use std::io;

/// One call, the answer to it, and the sum of the slots after it.
#[derive(Clone, Copy)]
pub struct Step {
    pub call: Call,
    pub answer: Answer,
    pub slots: u64,
}

/// The place in a slot plus one; 0 where the slot is empty.
fn held(slot: &Slot<Place>) -> u64 {
    if slot.meta() == 0xFFFF_FFFF {
        0
    } else {
        slot.handle().0 as u64 + 1
    }
}

/// The slots as one number: each meta, and the place where the slot is not empty.
fn slots_sum(table: &Table<'_, Place>) -> u64 {
    table.slots().iter().fold(0, |sum, slot| {
        add(add(sum, slot.meta() as u64), held(slot))
    })
}

/// A sum with one number more.
fn add(sum: u64, number: u64) -> u64 {
    sum.wrapping_mul(65599).wrapping_add(number)
}

/// How many of the steps differ, in answer or slots.
fn differences(steps: &[Step]) -> usize {
    let mut slots = [Slot::vacant(Place(0)); 16];
    let mut table = Table::open(&mut slots);
    let mut differ = 0usize;
    for step in steps {
        let answer = make(&mut table, step.call);
        if answer != step.answer || slots_sum(&table) != step.slots {
            differ = differ.saturating_add(1);
        }
    }
    differ
}

fn main(rt: HostRuntime) -> io::Result<()> {
    let differ = differences(&STEPS);
    println!(rt; "{} calls replayed, {} differences", STEPS.len(), differ)
}
