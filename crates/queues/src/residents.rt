//! The slots of all places, with what always holds of them.

ghost use Rattle.std.specs.Prelude.{◌≡◌, ℕ, ◌<◌, ◌≤◌};
ghost use Rattle.queues.specs.Slots.{Sized, Listed, Counted, Sorted, Recent, Rising};

use crate::slots::Slots;

/// Small, Main and the free stack: each opened place once, the young first in Small.
#[derive(Drop)]
pub struct Residents {
    pub(crate) slots: Slots,
    ghost sized: { Sized slots },
    ghost listed: { Listed slots },
    ghost counted: { Counted slots },
    ghost sorted: { Sorted slots },
    ghost recent: { Recent slots },
    ghost rising: { Rising slots },
    ghost open: { (1 ≤ slots.window) × (slots.window ≤ 255) },
}
