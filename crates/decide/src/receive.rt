// A cpa comes in: 01, "Paper".

ghost use Rattle.std.specs.Prelude.{◌≡◌, ◌&&◌, List, ℕ, suc, ◌<◌, ltb, get_or};
ghost use Rattle.costs.specs.Instance.{View, view_knowing};
ghost use Rattle.rules.specs.State.{zeros, with_threshold, same_on};
ghost use Rattle.rules.specs.Step.{received, resume, on_down, is_cpa_out, on_back, on_cpa};
ghost use Rattle.rules.specs.Tests.{holding};
ghost use Rattle.rules.specs.Ready.{Own, Shaped, Ready, Heard, decided_of};

use crate::assign::{assign_paid, of_value};
use crate::backtrack::{backtrack, take_off};
use crate::bound::{quiet, refused, take_bound};
use crate::state::{compare, hold, same};
use base::Refusal;
use costs::Seat;
use message::Message;
use rules::{Decided, Held, Unit};
use std::cmp::Ordering;

// A cpa: one from a lower unit goes down.
pub(crate) fn on_cpa(seat: Seat, costs: &[u8], ahead: &[u32], u: Unit, m: Message) -> Decided
    requires { Shaped seat × Ready seat u × Heard seat.own m }
    ensures { result ≡ decided_of u (on_cpa (view_knowing seat costs.now ahead.now) u m) }
{
    let order = compare(usize::from(seat.own), m.stamp, u.threshold);
    if m.sender < seat.own {
        on_down(seat, costs, ahead, order, u, m)
    } else {
        on_back(seat, costs, ahead, order, u, m)
    }
}

// A cpa going down, by how its stamp compares with the threshold.
fn on_down(seat: Seat, costs: &[u8], ahead: &[u32], order: Ordering, u: Unit, m: Message) -> Decided
    requires { Shaped seat × Ready seat u × Heard seat.own m × (m.sender < seat.own) }
    ensures { (was : Unit) → result ≡ decided_of was (on_down (view_knowing seat costs.now ahead.now) order u m) }
{
    match order {
        Ordering::Less => quiet(u),
        Ordering::Equal => resume(seat, costs, ahead, receive(m, u.threshold, u)),
        Ordering::Greater => resume(seat, costs, ahead, receive(m, m.stamp, u)),
    }
}

// The cpa of a message is the one out, with this threshold, and its bound is taken if lower.
fn receive(m: Message, threshold: [u8; 16], u: Unit) -> Held
    ensures { holding result u.estimates ≡ received m (with_threshold threshold u) }
{
    let Message {
        stamp,
        values,
        cost,
        ..
    } = m;
    let mut t = hold(u);
    t.threshold = threshold;
    t.stamp = stamp;
    t.values = values;
    t.cost = cost;
    take_bound(m, t)
}

// A cpa going back, by how its stamp compares with the threshold.
fn on_back(seat: Seat, costs: &[u8], ahead: &[u32], order: Ordering, u: Unit, m: Message) -> Decided
    requires { Shaped seat × Ready seat u }
    ensures { result ≡ decided_of u (on_back (view_knowing seat costs.now ahead.now) order u m) }
{
    if order.is_lt() {
        return quiet(u);
    }
    let t = hold(u);
    if !is_cpa_out(seat.own, t, m) {
        return refused(Refusal::NotOut, u);
    }
    resume(seat, costs, ahead, take_bound(m, t))
}

// Whether a message's cpa is the one out.
fn is_cpa_out(own: u8, t: Held, m: Message) -> bool
    requires { Own own }
    ensures { (w : View) (e : List ℕ) → suc w.place ≡ own → result ≡ is_cpa_out w (holding t e) m }
{
    is_stamp_out(own, t.values, t.stamp, m.stamp)
        && same(usize::from(own), m.values, t.values)
        && m.cost == t.cost
}

// Whether a cpa with these values and this stamp is out, and a message's stamp is its stamp.
pub(crate) fn is_stamp_out(own: u8, values: [u8; 16], stamp: [u8; 16], theirs: [u8; 16]) -> bool
    requires { Own own }
    ensures { (w : View) → suc w.place ≡ own → result ≡ (ltb 0 (get_or values w.place 0) && same_on (suc w.place) theirs stamp) }
{
    0 < values[usize::from(own - 1)] && same(usize::from(own), theirs, stamp)
}

// Backtrack where the cost without the own value reaches the bound, else assign. What the values cost is worked out once for both.
fn resume(seat: Seat, costs: &[u8], ahead: &[u32], t: Held) -> Decided
    requires { Shaped seat × Ready seat (holding t zeros) }
    ensures { (was : Unit) (e : List ℕ) → result ≡ decided_of was (resume (view_knowing seat costs.now ahead.now) (holding t e)) }
{
    let paid = costs::paid(seat, costs, t.values);
    let own = of_value(t.values[usize::from(seat.own - 1)], paid);
    if t.bound <= t.cost.saturating_sub(own) {
        return backtrack(seat.own, false, 0, take_off(seat.own, own, t));
    }
    assign_paid(seat, costs, ahead, paid, t)
}
