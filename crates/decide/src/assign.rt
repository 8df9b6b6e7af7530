// Assigning: 01, "Assign".

ghost use Rattle.std.specs.Prelude.{◌≡◌, false, List, ℕ, suc, ◌+◌, ◌-◌, ◌≤◌, ltb, get_or};
ghost use Rattle.base.specs.Limits.{NONE};
ghost use Rattle.costs.specs.Cost.{as_number};
ghost use Rattle.costs.specs.Bounds.{h};
ghost use Rattle.costs.specs.Instance.{View, view_knowing};
ghost use Rattle.costs.specs.Order.{left};
ghost use Rattle.rules.specs.State.{zeros, own_cost};
ghost use Rattle.rules.specs.Step.{write, try_after, begun, assign};
ghost use Rattle.rules.specs.Tests.{holding, improved_by};
ghost use Rattle.rules.specs.Ready.{Own, Shaped, Ready, OwnOff, Paid, decided_of, sent_on};

use crate::backtrack::{backtrack, carry, take_off};
use crate::order::{keys, next};
use crate::state::{release, with_best};
use costs::Seat;
use rules::{Decided, Held, Plan, Sending, Unit};

// Assign: the first value after the own one that stays below the bound is written and sent on; without one, backtrack.
pub(crate) fn assign(seat: Seat, costs: &[u8], ahead: &[u32], t: Held) -> Decided
    requires { Shaped seat × Ready seat (holding t zeros) }
    ensures { (was : Unit) (e : List ℕ) → result ≡ decided_of was (assign (view_knowing seat costs.now ahead.now) (holding t e)) }
{
    let paid = costs::paid(seat, costs, t.values);
    assign_paid(seat, costs, ahead, paid, t)
}

// The same, with what each value costs.
pub(crate) fn assign_paid(
    seat: Seat,
    costs: &[u8],
    ahead: &[u32],
    paid: [u32; 16],
    t: Held,
) -> Decided
    requires { Shaped seat × Ready seat (holding t zeros) × Paid (view_knowing seat costs.now ahead.now) t.values paid }
    ensures { (was : Unit) (e : List ℕ) → result ≡ decided_of was (assign (view_knowing seat costs.now ahead.now) (holding t e)) }
{
    let value = t.values[usize::from(seat.own - 1)];
    let s = begin(seat.own, of_value(value, paid), t);
    try_after(seat, costs, ahead, paid, value, s)
}

// The number of a value, its costs or its key, of those of all values; 0 of no value.
pub(crate) fn of_value(value: u8, numbers: [u32; 16]) -> u32
    requires { value ≤ 16 }
    ensures { (value ≡ 0 → result ≡ 0) × (1 ≤ value → result ≡ get_or numbers (value - 1) 0) }
{
    if value == 0 {
        0
    } else {
        numbers[usize::from(value - 1)]
    }
}

// The counter as assigning begins, 0 with no own value; and the own value off, which costs `paid`.
fn begin(own: u8, paid: u32, t: Held) -> Held
    requires { Own own }
    ensures { (w : View) (e : List ℕ) → suc w.place ≡ own → paid ≡ own_cost w (holding t e) → holding result zeros ≡ begun w (holding t e) }
{
    let s = take_off(own, paid, t);
    if t.values[usize::from(own - 1)] == 0 {
        Held { counter: 0, ..s }
    } else {
        s
    }
}

// Try the values after `from`, in the order of the seat; the own value is off. Sums are wide, so that none wraps; NONE, for what is forbidden,
// reaches every bound.
fn try_after(seat: Seat, costs: &[u8], ahead: &[u32], paid: [u32; 16], from: u8, s: Held) -> Decided
    requires { Shaped seat × Paid (view_knowing seat costs.now ahead.now) s.values paid × (from ≤ get_or seat.sizes (seat.own - 1) 0) × OwnOff seat.own s }
    ensures { (was : Unit) → result ≡ decided_of was (try_after (view_knowing seat costs.now ahead.now) (left (view_knowing seat costs.now ahead.now) from) from false (holding s zeros)) }
{
    let keys = keys(seat, costs, ahead);
    let mut t = s;
    let mut improved = false;
    let mut records = 0;
    let mut v = from;
    loop {
        v = next(seat, keys, v);
        if v == 0 {
            return backtrack(seat.own, improved, records, t);
        }
        let cost = sum(t.cost, paid[usize::from(v - 1)]);
        if below_bound(seat, costs, ahead, v, cost, t.bound) {
            records += 1;
            if seat.own != seat.n {
                return forward(seat.own, v, cost as u32, records, t);
            }
            t = improve(seat.own, v, cost as u32, t);
            improved = true;
        }
    }
}

// Two costs together.
fn sum(a: u32, b: u32) -> u64
    ensures { (result ≡ a + b) × (result ≤ 8589934590) }
{
    u64::from(a) + u64::from(b)
}

// Whether this cost with own value v, and h, stay below the bound. h is asked for only where the cost does.
fn below_bound(seat: Seat, costs: &[u8], ahead: &[u32], v: u8, cost: u64, bound: u32) -> bool
    requires { cost ≤ 8589934590 }
    ensures { (result ≡ ltb (cost + as_number (h (view_knowing seat costs.now ahead.now) v)) bound) × (bound ≤ NONE) }
{
    let bound = u64::from(bound);
    cost < bound && cost + u64::from(costs::as_number(costs::h(seat, costs, ahead, v))) < bound
}

// Value v at this cost is written: the cpa goes to the next unit, and requests to every later one.
fn forward(own: u8, v: u8, cost: u32, records: u8, t: Held) -> Decided
    requires { Own own × (t.counter ≤ 254) }
    ensures { (w : View) → suc w.place ≡ own → result ≡ sent_on w records (write w v cost (holding t zeros)) }
{
    let s = put(own, v, cost, t);
    Decided {
        refusal: 0,
        unit: release([0; 16], s),
        sending: Sending {
            plan: Plan::Forward,
            improved: false,
            message: carry(own, s),
        },
        records,
    }
}

// Value v at this cost is written: one record.
fn put(own: u8, v: u8, cost: u32, t: Held) -> Held
    requires { Own own × (t.counter ≤ 254) }
    ensures { (w : View) (e : List ℕ) → suc w.place ≡ own → holding result e ≡ write w v cost (holding t e) }
{
    let place = usize::from(own - 1);
    let counter = t.counter + 1;
    let mut s = Held { counter, cost, ..t };
    s.stamp[place] = counter;
    s.values[place] = v;
    s.threshold = s.stamp;
    s
}

// Unit n writes value v at this cost and takes it as its best. It is off again at once, so the cpa in hand stays.
fn improve(own: u8, v: u8, cost: u32, t: Held) -> Held
    requires { Own own × (t.counter ≤ 254) }
    ensures { (get_or result.threshold (own - 1) 0 ≡ t.counter + 1) × ((w : View) (e : List ℕ) → suc w.place ≡ own → holding result e ≡ improved_by w v cost (holding t e)) }
{
    let place = usize::from(own - 1);
    let counter = t.counter + 1;
    let mut best = t.values;
    best[place] = v;
    let mut threshold = t.stamp;
    threshold[place] = counter;
    Held {
        threshold,
        counter,
        ..with_best(cost, best, t)
    }
}
