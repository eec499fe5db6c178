//! Ghost's nodes, with what always holds of them.

ghost use Rattle.ghosts.specs.Notes.{Counted, Unopened, Within};

use crate::notes::Notes;

/// The history of keys evicted from Small, as nodes: each opened one remembers a key or is spare.
#[derive(Drop)]
pub struct GhostQueue {
    pub(crate) notes: Notes,
    ghost counted: { Counted notes },
    ghost unopened: { Unopened notes },
    ghost within: { Within notes },
}
