//! The laws of the handle table over lists of calls, on the contracts of two calls that read a table.
#![tactic(auto)]

ghost use Rattle.std.specs.Prelude.{◌≡◌, ℕ, true, List, ◌∷◌, ◌++◌, length, nat_lt};
ghost use Rattle.handles.specs.Calls.{roomy};
ghost use Rattle.handles.specs.Seek.{to_come};
ghost use Rattle.handles.specs.Slots.{occupied};
ghost use Rattle.handles.specs.declared.slot.Slot.{Slot as SlotOf};
ghost use Rattle.handle_laws.specs.Runs.{Call, insert, slots_after, held_after, times_in, times_read, AllSpare};

use handles::{Alike, Handle, Reader, Table};

/// A reader of the candidates of a hash. Whatever the calls were that led to this table, it yields each meaning exactly
/// as often as it is in by those calls under a hash with the same home and fingerprint.
pub fn read<'t, X: Handle>(table: &'t Table<'_, X>, hash: u64) -> Reader<'t, X>
    ensures { (start : List (SlotOf X)) (past : List (Call X)) → slots_after X.Handle.meaning start past ≡ table.now.slots.now → (m : List ℕ) → times_read X.Handle.meaning (to_come result.probe.slots.now result.probe.home result.probe.print result.displacement) m ≡ times_in X.Handle.meaning (held_after X.Handle.meaning (length start) past) hash m }
{
    table.get(hash)
}

/// Whether a handle is in under a hash. Whatever the calls were that led to this table, the answer is as they say; and
/// it is yes where the handle was inserted under the hash and no call since took it out or changed its hash.
pub fn is_in<X: Handle>(table: &Table<'_, X>, hash: u64, handle: X) -> bool
    ensures counted { (start : List (SlotOf X)) (past : List (Call X)) → slots_after X.Handle.meaning start past ≡ table.now.slots.now → result ≡ nat_lt 0 (times_in X.Handle.meaning (held_after X.Handle.meaning (length start) past) hash (X.Handle.meaning handle)) }
    ensures stays { (start : List (SlotOf X)) (earlier later : List (Call X)) → slots_after X.Handle.meaning start (later ++ (insert hash handle ∷ earlier)) ≡ table.now.slots.now → roomy (slots_after X.Handle.meaning start earlier) ≡ true → AllSpare X.Handle.meaning hash (X.Handle.meaning handle) later → result ≡ true }
{
    table.find(hash, &Alike { handle }).is_some()
}

/// The number of entries: whatever the calls were that led to this table, as many as are in by those calls.
pub fn entries<X: Handle>(table: &Table<'_, X>) -> usize
    ensures { (start : List (SlotOf X)) (past : List (Call X)) → slots_after X.Handle.meaning start past ≡ table.now.slots.now → result ≡ length (held_after X.Handle.meaning (length start) past).entries }
{
    table.len()
}
