//! How a place is vacated for a newcomer.

ghost use Rattle.std.specs.Prelude.{◌≡◌, ℕ, ◌<◌, ◌≤◌, [], length, None};
ghost use Rattle.machine.specs.declared.report.Part.{Part};
ghost use Rattle.machine.specs.Limits.{ghost_limit};
ghost use Rattle.machine.specs.Replacement.{sweep, ended, popped, main_evicted, tail_promoted, tail_evicted};
ghost use Rattle.policy.specs.View.{view};
ghost use Rattle.policy.specs.Insertion.{Same, Freed, Told, node_of};

use crate::makeup::Core;
use crate::plan::{InsertionPlan, Vacancy};
use crate::steps::{evict_main, evict_tail, find_free, promote_then_evict};
use machine::report::Part as Joined;

/// There is room in the cache.
pub(crate) fn vacant(core: &mut Core) -> Vacancy
    requires { (view core.old).free ≡ [] → (view core.old).opened < 512 }
    ensures freed { (part : Part) → Freed (popped part (view core.old) (view core.old).free) (view core.new) result }
    ensures told { Told (view core.old).remembered result.left result.noted }
    ensures same { Same core.old core.new }
{
    find_free(core);
    Vacancy {
        plan: InsertionPlan::Vacant,
        left: None,
        chances: 0,
        noted: None,
    }
}

/// Main is full: a sweep's victim gives its place.
pub(crate) fn replaced(core: &mut Core) -> Vacancy
    requires { 1 ≤ length (view core.old).main }
    ensures freed { Freed (main_evicted (λ _. node_of result.noted) (λ q. q) core.old.capacity (view core.old) (sweep (view core.old).main)) (view core.new) result }
    ensures told { Told (view core.old).remembered result.left result.noted }
    ensures same { Same core.old core.new }
{
    let Some(selected) = evict_main(core) else {
        unreachable!();
    };
    Vacancy {
        plan: InsertionPlan::Evict {
            victim: selected.victim,
        },
        left: Some(Joined::Main),
        chances: selected.chances,
        noted: None,
    }
}

/// The cache is full and Small's tail is used: it joins Main, and a sweep's victim gives its place.
pub(crate) fn promoted(core: &mut Core) -> Vacancy
    requires main { 1 ≤ length (view core.old).main }
    requires small { 1 ≤ length (view core.old).small }
    ensures freed { Freed (tail_promoted (λ _. node_of result.noted) (λ q. q) core.old.capacity (view core.old) (ended (view core.old).small) (sweep (view core.old).main)) (view core.new) result }
    ensures told { Told (view core.old).remembered result.left result.noted }
    ensures same { Same core.old core.new }
{
    let Some(promoted) = core.residents.tail() else {
        unreachable!();
    };
    let Some(selected) = promote_then_evict(core) else {
        unreachable!();
    };
    Vacancy {
        plan: InsertionPlan::PromoteThenEvict {
            promoted,
            victim: selected.victim,
        },
        left: Some(Joined::Main),
        chances: selected.chances,
        noted: None,
    }
}

/// The cache is full and Small's tail is not used: it gives its place, and Ghost remembers it.
pub(crate) fn demoted(core: &mut Core) -> Vacancy
    requires small { 1 ≤ length (view core.old).small }
    requires limit { core.old.ghosts.notes.capacity ≡ ghost_limit core.old.capacity }
    requires some { 1 ≤ ghost_limit core.old.capacity }
    ensures freed { Freed (tail_evicted (λ _. node_of result.noted) (λ q. q) core.old.capacity (view core.old) (ended (view core.old).small)) (view core.new) result }
    ensures told { Told (view core.old).remembered result.left result.noted }
    ensures same { Same core.old core.new }
{
    let Some(victim) = core.residents.tail() else {
        unreachable!();
    };
    let Some(noted) = evict_tail(core) else {
        unreachable!();
    };
    Vacancy {
        plan: InsertionPlan::Evict { victim },
        left: Some(Joined::Small),
        chances: 0,
        noted: Some(noted),
    }
}
