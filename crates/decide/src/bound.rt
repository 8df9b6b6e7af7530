// Solutions and stops: 01, "News", "Stop"; and what is decided where nothing is sent.

ghost use Rattle.std.specs.Prelude.{◌≡◌, List, ℕ};
ghost use Rattle.base.specs.Refusal.{number_of};
ghost use Rattle.costs.specs.Instance.{View};
ghost use Rattle.rules.specs.Step.{quiet, refused, take_bound, on_solution, on_stop};
ghost use Rattle.rules.specs.Tests.{silent, holding};
ghost use Rattle.rules.specs.Ready.{decided_of};

use crate::state::{hold, release, with_best};
use base::Refusal;
use message::Message;
use rules::{Decided, Held, Plan, Sending, Unit};

// A solution.
pub(crate) fn on_solution(u: Unit, m: Message) -> Decided
    ensures { (w : View) (was : Unit) → result ≡ decided_of was (on_solution w u m) }
{
    quiet(release(u.estimates, take_bound(m, hold(u))))
}

// A stop.
pub(crate) fn on_stop(u: Unit, m: Message) -> Decided
    ensures { (w : View) (was : Unit) → result ≡ decided_of was (on_stop w u m) }
{
    let mut t = take_bound(m, hold(u));
    t.stopped = true;
    quiet(release(u.estimates, t))
}

// The bound and best of a message, if lower.
pub(crate) fn take_bound(m: Message, t: Held) -> Held
    ensures { (e : List ℕ) → holding result e ≡ take_bound m (holding t e) }
{
    if m.bound < t.bound {
        with_best(m.bound, m.best, t)
    } else {
        t
    }
}

// This state, and nothing is sent.
pub(crate) fn quiet(u: Unit) -> Decided
    ensures { (was : Unit) → result ≡ decided_of was (quiet u) }
{
    Decided {
        refusal: 0,
        unit: u,
        sending: nothing(),
        records: 0,
    }
}

// A refusal, with the state as lent.
pub fn refuse(refusal: u8, u: Unit) -> Decided
    ensures { result ≡ decided_of u (refused refusal) }
{
    Decided {
        refusal,
        unit: u,
        sending: nothing(),
        records: 0,
    }
}

// The same, by its name.
pub(crate) fn refused(refusal: Refusal, u: Unit) -> Decided
    ensures { result ≡ decided_of u (refused (number_of refusal)) }
{
    refuse(refusal.number(), u)
}

// Nothing is sent.
fn nothing() -> Sending
    ensures { result ≡ silent }
{
    Sending {
        plan: Plan::Nothing,
        improved: false,
        message: Message {
            sender: 0,
            receiver: 0,
            stamp: [0; 16],
            values: [0; 16],
            cost: 0,
            bound: 0,
            best: [0; 16],
        },
    }
}
