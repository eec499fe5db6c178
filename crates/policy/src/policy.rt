//! The policy, with what always holds of it.

ghost use Rattle.policy.specs.View.{Limited, Kept};

use crate::makeup::Core;

/// Which place is in Small, in Main or free, its mark, and what Ghost remembers.
#[derive(Drop)]
pub struct Policy {
    pub(crate) core: Core,
    ghost limited: { Limited core },
    ghost kept: { Kept core },
}
