//! The laws, for every kind of key, value, loader and keep rule.

ghost use Rattle.machine_laws.specs.Laws.{ValuesHold, ReplacementHolds, ChancesHold, RunsAreLawful, CallsAreLawful, SmallCachesNeverPromote};

use keys::kind::Key;
use loaders::loader::Loader;
use machine::keep::KeepRule;

/// Values: every value answered under a key is the last earlier put or write there since the key last came in, or,
/// lacking one, the loader's; a fetch faults exactly when its key is not resident and the loader refuses it.
pub fn values<K: Key, V, L: Loader<K, V>, R: KeepRule<K, V>>()
    ensures { ValuesHold K.Key.meaning L.Loader.given R.KeepRule.keeps }
{}

/// Replacement: who joins which part, what becomes of Small's tail, and whom Main gives up.
pub fn replacement<K: Key, V, L: Loader<K, V>, R: KeepRule<K, V>>()
    ensures { ReplacementHolds K.Key.meaning L.Loader.given R.KeepRule.keeps }
{}

/// Chances: second chances never outnumber uses, no call tells more of them than Main held, and no key stands twice.
pub fn chances<K: Key, V, L: Loader<K, V>, R: KeepRule<K, V>>()
    ensures { ChancesHold K.Key.meaning L.Loader.given R.KeepRule.keeps }
{}

/// All three laws, of every event of every run.
pub fn runs<K: Key, V, L: Loader<K, V>, R: KeepRule<K, V>>()
    ensures { RunsAreLawful K.Key.meaning L.Loader.given R.KeepRule.keeps }
{}

/// All three laws, of one call after every past that leads to the state before it.
pub fn calls<K: Key, V, L: Loader<K, V>, R: KeepRule<K, V>>()
    ensures { CallsAreLawful K.Key.meaning L.Loader.given R.KeepRule.keeps }
{}

/// From 2 to 19 records no key moves from Small to Main.
pub fn never_promotes<K: Key, V, L: Loader<K, V>, R: KeepRule<K, V>>()
    ensures { SmallCachesNeverPromote K.Key.meaning L.Loader.given R.KeepRule.keeps }
{}
