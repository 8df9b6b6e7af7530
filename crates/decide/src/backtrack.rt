// Backtracking: 01, "Back up"; the own value off, and the fields that a cpa's messages carry.

ghost use Rattle.std.specs.Prelude.{◌≡◌, List, ℕ, suc, ◌-◌, ◌≤◌, get_or};
ghost use Rattle.costs.specs.Instance.{View};
ghost use Rattle.rules.specs.State.{own_cost};
ghost use Rattle.rules.specs.Step.{take_off, carried, backed_up, backtrack};
ghost use Rattle.rules.specs.Tests.{holding};
ghost use Rattle.rules.specs.Ready.{Own, counted};

use crate::state::release;
use message::Message;
use rules::{Decided, Held, Plan, Sending, Unit};

// Backtrack after this many records, the own value off already.
pub(crate) fn backtrack(own: u8, improved: bool, records: u8, t: Held) -> Decided
    requires { Own own × (get_or t.threshold (own - 1) 0 ≤ 254) }
    ensures { (w : View) (was : Unit) (e : List ℕ) → suc w.place ≡ own → result ≡ counted records was (backtrack w improved (holding t e)) }
{
    Decided {
        refusal: 0,
        unit: back_up(own, t),
        sending: Sending {
            plan: Plan::Back,
            improved,
            message: carry(own, t),
        },
        records,
    }
}

// The state after backtracking: the threshold's own place up by 1, no cpa out, unit 1 stopped.
fn back_up(own: u8, t: Held) -> Unit
    requires { Own own × (get_or t.threshold (own - 1) 0 ≤ 254) }
    ensures { (w : View) (e : List ℕ) → suc w.place ≡ own → result ≡ backed_up w (holding t e) }
{
    let mut s = t;
    s.stamp = [0; 16];
    s.values = [0; 16];
    s.cost = 0;
    s.stopped = own == 1 || t.stopped;
    s.threshold[usize::from(own - 1)] += 1;
    release([0; 16], s)
}

// The own value off, which costs `paid`.
pub(crate) fn take_off(own: u8, paid: u32, t: Held) -> Held
    requires { Own own }
    ensures { (w : View) (e : List ℕ) → suc w.place ≡ own → paid ≡ own_cost w (holding t e) → holding result e ≡ take_off w (holding t e) }
{
    let place = usize::from(own - 1);
    let mut s = t;
    s.cost = t.cost.saturating_sub(paid);
    s.stamp[place] = 0;
    s.values[place] = 0;
    s
}

// The fields that the messages of a cpa carry.
pub(crate) fn carry(own: u8, t: Held) -> Message
    ensures { (w : View) (e : List ℕ) → suc w.place ≡ own → result ≡ carried w (holding t e) }
{
    let Held {
        stamp,
        values,
        cost,
        bound,
        best,
        ..
    } = t;
    Message {
        sender: own,
        receiver: 0,
        stamp,
        values,
        cost,
        bound,
        best,
    }
}
