// The value that a unit tries after another: ascending the next number, by rising h the first of those that come later.

ghost use Rattle.std.specs.Prelude.{◌≡◌, cond, ◌&&◌, List, ℕ, ◌-◌, ◌≤◌, ltb, eqb, get_or};
ghost use Rattle.base.specs.Limits.{NONE};
ghost use Rattle.costs.specs.Instance.{View, view_knowing};
ghost use Rattle.costs.specs.Order.{next};
ghost use Rattle.rules.specs.Ready.{Shaped, Keys};

use crate::assign::of_value;
use costs::{Seat, ValueOrder};

// Above every key, as before one is found.
const NO_KEY: u64 = 4294967296;

// h of each value as a number, NONE where it has none: value v's at place v - 1. Ascending, no h is looked at.
pub(crate) fn keys(seat: Seat, costs: &[u8], ahead: &[u32]) -> [u32; 16]
    requires { Shaped seat }
    ensures { Keys (view_knowing seat costs.now ahead.now) result }
{
    let mut keys = [0; 16];
    let ValueOrder::CheapestFirst = seat.order else {
        return keys;
    };
    let d = seat.sizes[usize::from(seat.own - 1)];
    for v in 0..d {
        keys[usize::from(v)] = costs::as_number(costs::h(seat, costs, ahead, v + 1));
    }
    keys
}

// The value tried after v, 0 where there is none; before the first of all stands no value, 0.
pub(crate) fn next(seat: Seat, keys: [u32; 16], v: u8) -> u8
    requires { Shaped seat × (v ≤ get_or seat.sizes (seat.own - 1) 0) }
    ensures { ((costs ahead : List ℕ) → Keys (view_knowing seat costs ahead) keys → result ≡ next (view_knowing seat costs ahead) v) × (result ≤ get_or seat.sizes (seat.own - 1) 0) }
{
    let d = seat.sizes[usize::from(seat.own - 1)];
    match seat.order {
        ValueOrder::Ascending => number_after(d, v),
        ValueOrder::CheapestFirst => cheapest_after(keys, d, v),
    }
}

// Ascending, the value after v of d values.
fn number_after(d: u8, v: u8) -> u8
    ensures { (result ≤ d) × ((w : View) → w.order ≡ ValueOrder.Ascending → w.dom w.place ≡ d → result ≡ next w v) }
{
    if v < d { v + 1 } else { 0 }
}

// By rising h, the value after v of d values: the first of those that come later. Each key is read once.
fn cheapest_after(keys: [u32; 16], d: u8, v: u8) -> u8
    requires { (d ≤ 16) × (v ≤ d) }
    ensures { (result ≤ d) × ((w : View) → w.order ≡ ValueOrder.CheapestFirst → w.dom w.place ≡ d → Keys w keys → result ≡ next w v) }
{
    let low = of_value(v, keys);
    let mut best = NO_KEY;
    let mut found: u8 = 0;
    for u in 0..d {
        let key = keys[usize::from(u)];
        if comes_next(low, v, key, u + 1, best) {
            best = u64::from(key);
            found = u + 1;
        }
    }
    found
}

// Whether value u, by its key, comes after v and before the best key found among lower numbers: the lower number is first on a tie. No value has
// key 0, and so stands before all.
fn comes_next(low: u32, v: u8, key: u32, u: u8, best: u64) -> bool
    ensures { (result ≡ (ltb key best && cond (eqb low key) (ltb v u) (ltb low key))) × (key ≤ NONE) }
{
    u64::from(key) < best && if low == key { v < u } else { low < key }
}
