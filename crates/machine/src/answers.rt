//! What each call says, as an answer of a run.

ghost use Rattle.std.specs.Prelude.{◌≡◌};
ghost use Rattle.machine.specs.Machine.{says_if_lem, says_found_lem, says_placed_lem, says_fetched_lem, says_done_lem};

use crate::call::{Answer, Fetched, Placed};
use crate::refusal::Refusal;

impl<V> From<bool> for Answer<V> {
    ghost from_gives = { λ yes answer. answer ≡ says_if_lem yes };

    fn from(yes: bool) -> Self {
        if yes { Answer::Yes } else { Answer::No }
    }
}

impl<V> From<Option<V>> for Answer<V> {
    ghost from_gives = { λ found answer. answer ≡ says_found_lem found };

    fn from(found: Option<V>) -> Self {
        match found {
            Some(value) => Answer::Held(value),
            None => Answer::Absent,
        }
    }
}

impl<V> From<Result<Placed<V>, Refusal>> for Answer<V> {
    ghost from_gives = { λ placed answer. answer ≡ says_placed_lem placed };

    fn from(placed: Result<Placed<V>, Refusal>) -> Self {
        match placed {
            Ok(Placed::Old(value)) => Answer::Old(value),
            Ok(Placed::New(report)) => Answer::New(report),
            Err(why) => Answer::Refused(why),
        }
    }
}

impl<V> From<Result<Fetched<V>, Refusal>> for Answer<V> {
    ghost from_gives = { λ fetched answer. answer ≡ says_fetched_lem fetched };

    fn from(fetched: Result<Fetched<V>, Refusal>) -> Self {
        match fetched {
            Ok(Fetched::Held(value)) => Answer::Held(value),
            Ok(Fetched::New(value, report)) => Answer::Loaded(value, report),
            Err(why) => Answer::Refused(why),
        }
    }
}

impl<V> From<Result<(), Refusal>> for Answer<V> {
    ghost from_gives = { λ done answer. answer ≡ says_done_lem done };

    fn from(done: Result<(), Refusal>) -> Self {
        match done {
            Ok(()) => Answer::Done,
            Err(why) => Answer::Refused(why),
        }
    }
}
