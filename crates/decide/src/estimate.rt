// Requests and the estimates that answer them: 01, "Copy", "Estimate".

ghost use Rattle.std.specs.Prelude.{◌≡◌, [], suc, ◌*◌, ◌-◌, ◌≤◌, set};
ghost use Rattle.base.specs.Limits.{NONE, places};
ghost use Rattle.costs.specs.Instance.{View, view_knowing};
ghost use Rattle.rules.specs.Step.{reply, on_request, on_timely, on_estimate, accepted};
ghost use Rattle.rules.specs.Tests.{sum_later, stored};
ghost use Rattle.rules.specs.Ready.{Own, Shaped, Ready, Heard, decided_of};

use crate::assign::assign;
use crate::bound::{quiet, refused};
use crate::receive::is_stamp_out;
use crate::short::reply;
use crate::state::{compare, hold, with_threshold};
use base::Refusal;
use costs::Seat;
use message::Message;
use rules::{Decided, Plan, Sending, Unit};
use std::cmp::Ordering;

// A request.
pub(crate) fn on_request(seat: Seat, costs: &[u8], ahead: &[u32], u: Unit, m: Message) -> Decided
    requires { Own seat.own }
    ensures { (was : Unit) → result ≡ decided_of was (on_request (view_knowing seat costs.now ahead.now) u m) }
{
    match compare(usize::from(seat.own - 1), m.stamp, u.threshold) {
        Ordering::Less => quiet(u),
        Ordering::Equal => answer(seat, costs, ahead, u, m),
        Ordering::Greater => answer(seat, costs, ahead, with_threshold(m.stamp, u), m),
    }
}

// The estimate for a request goes back to its sender.
fn answer(seat: Seat, costs: &[u8], ahead: &[u32], u: Unit, m: Message) -> Decided
    requires { Own seat.own }
    ensures { (was : Unit) → result ≡ decided_of was (accepted u (reply (view_knowing seat costs.now ahead.now) m) []) }
{
    Decided {
        refusal: 0,
        unit: u,
        sending: Sending {
            plan: Plan::Reply,
            improved: false,
            message: reply(seat, costs, ahead, m),
        },
        records: 0,
    }
}

// An estimate.
pub(crate) fn on_estimate(seat: Seat, costs: &[u8], ahead: &[u32], u: Unit, m: Message) -> Decided
    requires { Shaped seat × Ready seat u × Heard seat.own m }
    ensures { result ≡ decided_of u (on_estimate (view_knowing seat costs.now ahead.now) u m) }
{
    match compare(usize::from(seat.own), m.stamp, u.threshold) {
        Ordering::Less => quiet(u),
        Ordering::Equal => on_own_estimate(seat, costs, ahead, u, m),
        Ordering::Greater => refused(Refusal::NotOut, u),
    }
}

// An estimate that is neither stale nor ahead. It is stored, but not where assigning clears it at once.
fn on_own_estimate(seat: Seat, costs: &[u8], ahead: &[u32], u: Unit, m: Message) -> Decided
    requires { Shaped seat × Ready seat u × Heard seat.own m }
    ensures { result ≡ decided_of u (on_timely (view_knowing seat costs.now ahead.now) Ordering.Equal u m) }
{
    if !is_stamp_out(seat.own, u.values, u.stamp, m.stamp) {
        return refused(Refusal::NotOut, u);
    }
    let reached = u64::from(u.cost) + sum_later(seat, with_estimate(m, u.estimates));
    if u64::from(u.bound) <= reached {
        return assign(seat, costs, ahead, hold(u));
    }
    quiet(store(m, u))
}

// The estimate is stored.
pub(crate) fn store(m: Message, u: Unit) -> Unit
    requires { Own m.sender }
    ensures { result ≡ stored m u }
{
    Unit {
        estimates: with_estimate(m, u.estimates),
        ..u
    }
}

// The estimates with that of a message.
pub(crate) fn with_estimate(m: Message, estimates: [u32; 16]) -> [u32; 16]
    requires { Own m.sender }
    ensures { result ≡ set estimates (m.sender - 1) m.cost }
{
    let mut estimates = estimates;
    estimates[usize::from(m.sender - 1)] = m.cost;
    estimates
}

// The estimates of the units after this one, together; wide, so that no sum wraps.
pub(crate) fn sum_later(seat: Seat, estimates: [u32; 16]) -> u64
    requires { (seat.own ≤ seat.n) × (seat.n ≤ 16) }
    ensures { (result ≤ NONE * places) × ((w : View) → suc w.place ≡ seat.own → w.n ≡ seat.n → result ≡ sum_later w estimates) }
{
    let mut sum: u64 = 0;
    for j in usize::from(seat.own)..usize::from(seat.n) {
        sum += u64::from(estimates[j]);
    }
    sum
}
