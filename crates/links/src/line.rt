//! A line whose lists hold each node at most once.

ghost use Rattle.std.specs.Prelude.{◌≡◌, ℕ, ◌+◌, ◌<◌, true, if◌then◌else◌, nat_eq, slice_index_or};
ghost use Rattle.links.specs.Cells.{Sized, nexts, prevs};
ghost use Rattle.links.specs.Rows.{row, leads, occurs};

use crate::cells::Cells;

/// Four lists of nodes, with their links right both ways.
#[derive(Drop)]
pub struct Line {
    pub(crate) cells: Cells,
    ghost sized: { Sized cells },
    ghost linked: { (k : ℕ) → k < 4 → leads (nexts cells) (prevs cells) (512 + k) (row (nexts cells) cells.lens k) (513 + k) ≡ true },
    ghost once: { (p k : ℕ) → k < 4 → occurs p (row (nexts cells) cells.lens k) ≡ (if nat_eq (slice_index_or cells.home p 4) k then 1 else 0) },
}
