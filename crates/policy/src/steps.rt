//! The steps that vacate a place for a newcomer; each leaves it on top of the free stack.

ghost use Rattle.std.specs.Prelude.{◌≡◌, ◌<◌, ◌⊎◌, [], None, MatchOption};
ghost use Rattle.machine.specs.Replacement.{sweep, ended};
ghost use Rattle.queues.specs.Steps.{told};
ghost use Rattle.policy.specs.View.{view};
ghost use Rattle.policy.specs.Insertion.{Same, topped, main_out, promoted_out, TailEvicted};

use crate::makeup::Core;
use ghosts::noted::Noted;
use queues::selected::Selected;

/// Has a free place: the top of the free stack, else the next never opened.
pub(crate) fn find_free(core: &mut Core)
    requires { (view core.old).free ≡ [] → (view core.old).opened < 512 }
    ensures view { view core.new ≡ topped (view core.old).free (view core.old) }
    ensures same { Same core.old core.new }
{
    if core.residents.top().is_none() {
        core.residents.unlock();
    }
}

/// Sweeps Main for a victim and takes it out.
pub(crate) fn evict_main(core: &mut Core) -> Option<Selected>
    ensures answer { result ≡ told (sweep (view core.old).main) }
    ensures view { view core.new ≡ main_out (sweep (view core.old).main) (view core.old) }
    ensures same { Same core.old core.new }
{
    let selected = core.residents.sweep()?;
    core.residents.release(selected.victim);
    Some(selected)
}

/// Sweeps Main for a victim and takes it out, and Small's tail joins Main.
pub(crate) fn promote_then_evict(core: &mut Core) -> Option<Selected>
    ensures answer { result ≡ told (sweep (view core.old).main) }
    ensures view { view core.new ≡ promoted_out (sweep (view core.old).main) (view core.old) }
    ensures same { Same core.old core.new }
{
    let selected = evict_main(core)?;
    core.residents.promote_tail();
    Some(selected)
}

/// Takes Small's tail out, and a node of Ghost is the newest for its key.
pub(crate) fn evict_tail(core: &mut Core) -> Option<Noted>
    ensures evicted { MatchOption result ((ended (view core.old).small ≡ None) ⊎ (core.old.ghosts.notes.capacity ≡ 0)) (λ n. TailEvicted core.old.ghosts.notes.capacity (view core.old) (view core.new) n) }
    ensures same { Same core.old core.new }
{
    let tail = core.residents.tail()?;
    core.residents.release(tail);
    core.ghosts.push()
}
