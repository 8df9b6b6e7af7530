// A unit's state: whether it is in range, the order of stamps, its parts set one at a time, and what is held of it.

ghost use Rattle.std.specs.Prelude.{◌≡◌, List, ℕ, ◌-◌, ◌≤◌, ◌&&◌, cond, leb, eqb, get_or};
ghost use Rattle.std.specs.List.{list_all};
ghost use Rattle.base.specs.Limits.{estimate_limit};
ghost use Rattle.costs.specs.Instance.{view_knowing};
ghost use Rattle.rules.specs.State.{
  own_cost,
  with_threshold,
  with_best,
  with_estimates,
  compare_on,
  same_on,
  all_at_most,
  cpa_zero,
  cpa_out_in_range,
  paid_in_range,
  in_range_paid,
};
ghost use Rattle.rules.specs.Tests.{holding};
ghost use Rattle.rules.specs.Trusted.{in_range_at};
ghost use Rattle.rules.specs.Ready.{Own};

use costs::Seat;
use rules::{Held, Unit};
use std::cmp::Ordering;

// Whether a lent state is in range; none is for a number that is not 1 to 16.
pub fn in_range(seat: Seat, costs: &[u8], ahead: &[u32], u: Unit) -> bool
    ensures { result ≡ in_range_at seat costs.now ahead.now u }
{
    if !message::is_unit(16, seat.own) {
        return false;
    }
    let paid = own_cost(seat, costs, u.values);
    let place = costs::place_tried(seat, costs, ahead, u.values[usize::from(seat.own - 1)]);
    paid_in_range(seat.own, seat.n, seat.sizes, paid, place, &u)
}

// The own value's costs, NONE where they are forbidden; without one there are none to add up.
fn own_cost(seat: Seat, costs: &[u8], values: [u8; 16]) -> u32
    requires { Own seat.own }
    ensures { (ahead : List ℕ) (u : Unit) → u.values ≡ values → result ≡ own_cost (view_knowing seat costs.now ahead) u }
{
    let place = seat.own - 1;
    let value = values[usize::from(place)];
    if value == 0 {
        return 0;
    }
    costs::as_number(costs::cost_with(seat, costs, values, place, value))
}

// Whether the state of unit `own` is in range, its own value's costs being `paid` and its place `place`; no state is for a number that is not
// 1 to 16.
#[tactic(auto, unfolding(rules::specs::State::in_range_paid))]
pub fn in_range_paid(own: u8, n: u8, sizes: [u8; 16], paid: u32, place: usize, u: Unit) -> bool
    ensures { result ≡ in_range_paid n sizes own paid place u }
{
    message::is_unit(16, own) && paid_in_range(own, n, sizes, paid, place, &u)
}

// The same of a unit.
#[tactic(auto, using(rules::specs::Laws::Readiness::pred_sub), unfolding(rules::specs::State::paid_in_range))]
fn paid_in_range(own: u8, n: u8, sizes: [u8; 16], paid: u32, place: usize, u: &Unit) -> bool
    requires { Own own }
    ensures { result ≡ paid_in_range n sizes own paid place u.now }
{
    limits_kept(&u.threshold, &u.estimates)
        && message::none_or_bound(n, sizes, u.bound, u.best)
        && cpa_in_range(own, sizes, paid, place, u)
}

// Whether each of the 16 places keeps its limit.
fn limits_kept(threshold: &[u8; 16], estimates: &[u32; 16]) -> bool
    ensures { result ≡ (all_at_most 17 threshold.now && all_at_most estimate_limit estimates.now) }
{
    thresholds_kept(threshold) && estimates_kept(estimates)
}

// Whether each threshold keeps its limit.
fn thresholds_kept(threshold: &[u8; 16]) -> bool
    ensures { result ≡ list_all (λ t. leb t 17) threshold.now }
{
    threshold.iter().all(|t| *t <= 17)
}

// Whether each estimate keeps its limit.
fn estimates_kept(estimates: &[u32; 16]) -> bool
    ensures { result ≡ list_all (λ e. leb e estimate_limit) estimates.now }
{
    estimates.iter().all(|e| *e <= base::ESTIMATE_LIMIT)
}

// Whether a cpa keeps its limits: all zero where none is out.
fn cpa_in_range(own: u8, sizes: [u8; 16], paid: u32, place: usize, u: &Unit) -> bool
    requires { Own own }
    ensures { result ≡ cond (eqb (get_or u.now.values (own - 1) 0) 0) (cpa_zero sizes u.now) (cpa_out_in_range sizes own paid place u.now) }
{
    if u.values[usize::from(own - 1)] == 0 {
        cpa_zero(sizes, u)
    } else {
        cpa_out_in_range(own, sizes, paid, place, u)
    }
}

// Whether the cpa is all zero.
#[tactic(auto, unfolding(rules::specs::State::cpa_zero))]
fn cpa_zero(sizes: [u8; 16], u: &Unit) -> bool
    ensures { result ≡ cpa_zero sizes u.now }
{
    message::filled_to(0, sizes, u.stamp) && message::filled_to(0, sizes, u.values) && u.cost == 0
}

// Whether a cpa that is out keeps its limits.
#[tactic(auto, unfolding(rules::specs::State::cpa_out_in_range))]
fn cpa_out_in_range(own: u8, sizes: [u8; 16], paid: u32, place: usize, u: &Unit) -> bool
    requires { Own own }
    ensures { result ≡ cpa_out_in_range sizes own paid place u.now }
{
    message::filled_to(own, sizes, u.stamp)
        && message::filled_to(own, sizes, u.values)
        && u.cost <= message::prefix_limit(own)
        && u.counter == u.stamp[usize::from(own - 1)]
        && usize::from(u.counter) <= place
        && compare(usize::from(own), u.threshold, u.stamp).is_ge()
        && paid <= u.cost
        && u.cost - paid <= message::prefix_limit(own - 1)
}

// How two stamps compare on all units.
pub fn compare_stamps(a: [u8; 16], b: [u8; 16]) -> Ordering
    ensures { result ≡ compare_on 16 a b }
{
    compare(base::PLACES, a, b)
}

// How a compares with b on the first k units. Place by place: the slices' own `cmp` takes stack at each call, and the calls for C then need more than
// their header says.
pub(crate) fn compare(k: usize, a: [u8; 16], b: [u8; 16]) -> Ordering
    requires { k ≤ 16 }
    ensures { result ≡ compare_on k a b }
{
    for i in 0..k {
        if a[i] < b[i] {
            return Ordering::Less;
        }
        if b[i] < a[i] {
            return Ordering::Greater;
        }
    }
    Ordering::Equal
}

// Whether the first k places are equal.
pub(crate) fn same(k: usize, a: [u8; 16], b: [u8; 16]) -> bool
    requires { k ≤ 16 }
    ensures { result ≡ same_on k a b }
{
    compare(k, a, b).is_eq()
}

pub(crate) fn with_threshold(threshold: [u8; 16], u: Unit) -> Unit
    ensures { result ≡ with_threshold threshold u }
{
    let mut v = u;
    v.threshold = threshold;
    v
}

// A bound and the assignment that has it, always together.
pub(crate) fn with_best(bound: u32, best: [u8; 16], t: Held) -> Held
    ensures { (e : List ℕ) → holding result e ≡ with_best bound best (holding t e) }
{
    let mut s = t;
    s.bound = bound;
    s.best = best;
    s
}

// What is held of a unit.
pub(crate) fn hold(u: Unit) -> Held
    ensures { (e : List ℕ) → holding result e ≡ with_estimates e u }
{
    let Unit {
        threshold,
        bound,
        best,
        stamp,
        values,
        cost,
        counter,
        stopped,
        ..
    } = u;
    Held {
        threshold,
        bound,
        best,
        stamp,
        values,
        cost,
        counter,
        stopped,
    }
}

// The unit with these estimates.
pub(crate) fn release(estimates: [u32; 16], t: Held) -> Unit
    ensures { result ≡ holding t estimates }
{
    let Held {
        threshold,
        bound,
        best,
        stamp,
        values,
        cost,
        counter,
        stopped,
    } = t;
    Unit {
        threshold,
        bound,
        best,
        estimates,
        stamp,
        values,
        cost,
        counter,
        stopped,
    }
}
