//! The insertion: an admission, a plan, a seat.

ghost use Rattle.std.specs.Prelude.{◌≡◌, ℕ, ◌≤◌, ◌&&◌, ◌||◌, length, ◌==◌, nat_le};
ghost use Rattle.machine.specs.Replacement.{vacancy, plan, carried_out, main_full, is_tail_used, ended};
ghost use Rattle.policy.specs.View.{view, Limited, Kept};
ghost use Rattle.policy.specs.Insertion.{Same, Freed, Told, Ready, Done, node_of, is_main, admission_of};

use crate::makeup::Core;
use crate::plan::{Admission, Inserted, Vacancy};
use crate::vacate::{demoted, promoted, replaced, vacant};
use machine::report::Part;

/// Whether fewer are resident than the capacity allows.
fn has_vacancy(core: &Core) -> bool
    ensures { result ≡ vacancy core.now.capacity (view core.now) }
{
    core.residents.small_len() + core.residents.main_len() < core.capacity as usize
}

/// Chooses the resident partition for an incoming key.
fn admission(core: &Core, ghost_hit: bool, has_vacancy: bool) -> Admission
    ensures { result ≡ admission_of (ghost_hit || (core.now.small.capacity == 0 || (has_vacancy && nat_le core.now.small.capacity (length (view core.now).small)))) }
{
    // A Ghost hit bypasses Small. During warm-up, Small fills to its limit before vacant places go to Main.
    if ghost_hit
        || core.small.capacity == 0
        || (has_vacancy && core.residents.small_len() >= core.small.capacity as usize)
    {
        Admission::Main
    } else {
        Admission::Small
    }
}

/// Vacates a place for a newcomer of this admission, by the plan for it.
fn vacate(core: &mut Core, admission: Admission, has_vacancy: bool) -> Vacancy
    requires { Ready core.old admission has_vacancy }
    ensures freed { Freed (carried_out (λ _. node_of result.noted) (λ q. q) core.old.capacity (plan (is_main admission) has_vacancy (main_full core.old.capacity (view core.old)) (is_tail_used (ended (view core.old).small))) (view core.old)) (view core.new) result }
    ensures told { Told (view core.old).remembered result.left result.noted }
    ensures same { Same core.old core.new }
{
    match admission {
        Admission::Small if has_vacancy => vacant(core),
        Admission::Small if core.residents.tail_used() => promoted(core),
        Admission::Small => demoted(core),
        Admission::Main if core.residents.main_len() >= core.main.capacity as usize => replaced(
            core,
        ),
        Admission::Main => vacant(core),
    }
}

/// Brings in a newcomer, which Ghost remembered or not.
pub(crate) fn insert_in(core: &mut Core, ghost_hit: bool) -> Inserted
    requires limited { Limited core.old }
    requires kept { Kept core.old }
    requires some { 1 ≤ core.old.capacity }
    ensures done { Done core.old.capacity ghost_hit (view core.old) (view core.new) result }
    ensures same { Same core.old core.new }
{
    let has_vacancy = has_vacancy(core);
    let admission = admission(core, ghost_hit, has_vacancy);
    let vacancy = vacate(core, admission, has_vacancy);
    let joined = Part::from(admission);
    let Some(place) = core.residents.seat(joined) else {
        unreachable!();
    };
    Inserted {
        place,
        joined,
        vacancy,
    }
}
