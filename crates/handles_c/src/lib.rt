//! The handle table for a caller in C or Rust: whole lists of calls on numbers, answered and recorded call by call.
#![tactic(auto)]

ghost use Rattle.std.specs.Prelude.{◌≤◌, length};

use handles::{ListedHashes, Place, Reserved, Slot, Table, TableRefusal};
use handles_calls::{Answer, Call, make, read_sum};

/// The most slots of a table.
const MOST: usize = 4096;

/// One call: 0 inserts, 1 removes, 2 clears, 3 reads, 4 reserves `place` more, with `hash` slots brought along.
#[repr(C)]
#[derive(Clone, Copy)]
pub struct Op {
    pub hash: u64,
    pub kind: u32,
    pub place: u16,
}

impl Op {
    /// The call that brings no slots.
    fn call(self) -> Call {
        let Op { hash, place, .. } = self;
        match self.kind {
            0 => Call::Insert { hash, place },
            1 => Call::Remove { hash, place },
            2 => Call::Clear,
            _ => Call::Read { hash },
        }
    }
}

/// The number that C has for a refusal: 100 and the refusal's own.
fn refused(refusal: TableRefusal) -> u64 {
    100 + refusal.number() as u64
}

/// The number that C has for an answer.
fn number_of(answer: Answer) -> u64 {
    match answer {
        Answer::Inserted(Ok(())) => 1,
        Answer::Inserted(Err(refusal)) => refused(refusal),
        Answer::Removed(removed) => removed as u64,
        Answer::Cleared => 0,
        Answer::Read(sum) => sum,
    }
}

/// Writes every slot's meta and place, as far as they fit, and says how many did.
fn record(table: &Table<'_, Place>, metas: &mut [u32], places: &mut [u16]) -> usize
    ensures metas { result ≤ length metas.old }
    ensures places { result ≤ length places.old }
{
    let slots = table.slots();
    let fits = slots.len().min(metas.len()).min(places.len());
    for (slot, (meta, place)) in slots.iter().zip(metas.iter_mut().zip(places.iter_mut())) {
        *meta = slot.meta();
        *place = slot.handle().0;
    }
    fits
}

/// Reserves, and answers 0 for room, 1 for rebuilt, or a refusal's number.
fn reserve<'a>(
    table: &mut Table<'a, Place>,
    wanted: usize,
    hashes: &[u64],
    brought: &mut &'a mut [Slot<Place>],
) -> u64 {
    let rule = ListedHashes { hashes };
    match table.reserve(wanted, &rule, brought) {
        Ok(Reserved::Room) => 0,
        Ok(Reserved::Rebuilt) => 1,
        Err(refusal) => refused(refusal),
    }
}

/// Opens a table over `count` slots, makes the calls, with `more` slots for reservations, and records the answer to
/// each and the slots after each.
#[unsafe(no_mangle)]
pub extern "C" fn handles_run(
    count: usize,
    more: usize,
    ops: &[Op],
    hashes: &[u64],
    answers: &mut [u64],
    metas: &mut [u32],
    places: &mut [u16],
) -> usize {
    if count > MOST || more > MOST {
        return 0;
    }
    let mut first = [Slot::vacant(Place(0)); MOST];
    let mut second = [Slot::vacant(Place(0)); MOST];
    let mut table = Table::open(&mut first[0..count]);
    let mut brought = &mut second[0..more];
    let mut at = 0;
    for (i, op) in ops.iter().enumerate() {
        let number = if op.kind == 4 {
            reserve(&mut table, op.place as usize, hashes, &mut brought)
        } else {
            number_of(make(&mut table, op.call()))
        };
        if let Some(answer) = answers.get_mut(i) {
            *answer = number;
        }
        at += record(&table, &mut metas[at..], &mut places[at..]);
    }
    at
}

/// Inserts a place under each hash.
fn fill(table: &mut Table<'_, Place>, hashes: &[u64]) {
    for hash in hashes {
        let _ = table.insert(*hash, Place((*hash & 0xFFFF) as u16));
    }
}

/// Removes what `fill` inserted.
fn drain(table: &mut Table<'_, Place>, hashes: &[u64]) {
    for hash in hashes {
        let _ = table.remove(*hash, Place((*hash & 0xFFFF) as u16));
    }
}

/// For timing: clears and fills a table of `count` slots `rounds` times, drains and fills it for kind 1, reads it for
/// kind 2, or clears it for kind 3.
#[unsafe(no_mangle)]
pub extern "C" fn handles_time(kind: u32, count: usize, hashes: &[u64], rounds: usize) -> u64 {
    if count > MOST {
        return 0;
    }
    let mut first = [Slot::vacant(Place(0)); MOST];
    let mut table = Table::open(&mut first[0..count]);
    let mut sum = 0u64;
    fill(&mut table, hashes);
    for _ in 0..rounds {
        match kind {
            0 => {
                table.clear();
                fill(&mut table, hashes);
            }
            1 => {
                drain(&mut table, hashes);
                fill(&mut table, hashes);
            }
            2 => {
                for hash in hashes {
                    sum = sum.wrapping_add(read_sum(&table, *hash));
                }
            }
            _ => table.clear(),
        }
    }
    sum.wrapping_add(table.len() as u64)
}
