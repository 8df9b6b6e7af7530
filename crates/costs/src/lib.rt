// Unary costs, pair costs, which may be forbidden, and what is worked out from both: the costs lent with one unit, as bytes.
#![tactic(auto)]

mod opened; // where the sizes and costs of a stream stand
mod order; // the place of a value in the order tried
mod prefix; // the cost of a value with those before it, straight from a stream
mod rows; // the costs of all own values at once
mod stream; // what is read out of a stream

ghost use Rattle.std.specs.Prelude.{◌≡◌, pred, ◌+◌, ◌*◌, ◌≤◌, ◌<◌, if◌then◌else◌, nat_eq, slice_index, length};
ghost use Rattle.base.specs.Refusal.{told};
ghost use Rattle.base.specs.Sums.{sum_from};
ghost use Rattle.costs.specs.Cost.{◌⊕◌, as_number, pair_cost};
ghost use Rattle.costs.specs.Cost.Laws.{AtMost};
ghost use Rattle.costs.specs.Instance.{in_pair, cost_number, dom_in, lent_unary, view_from, ahead_limit, ahead_cost, view_knowing};
ghost use Rattle.costs.specs.Bounds.{cost_with, h, estimate};
ghost use Rattle.costs.specs.Lent.{lent_count, lent_good, lent_refusal};
ghost use Rattle.costs.specs.Knowing.{Knows};
ghost use Rattle.costs.specs.Lent.Parts.{others_before, pair_from, least_run, runs_from, dom_from};

use base::{Refusal, is_value};
pub use order::place_tried;
pub use prefix::stream_cost_with;
pub use rows::paid;
pub use stream::{gather, sizes_of};

// What a forbidden cost counts in a sum, as specs/Rows has it: a number, and not None, so that four sums are added at once.
const FORBIDDEN_SUM: u32 = 16777216;

// The most that an h comes to, as specs/Instance has it.
const AHEAD_LIMIT: u32 = 16711425;

// The order in which a unit tries its values: by number; or by rising h, the lower number first on a tie, values without an h last.
#[derive(Clone, Copy, Debug, PartialEq, Eq)]
pub enum ValueOrder {
    Ascending,
    CheapestFirst,
}

// Where a unit sits: its own number, 1 to n, among n units with these domain sizes; places past n are not looked at; and the order in which it
// tries its values. The costs that touch it are lent beside it; and with these, as `ahead`, h of its first values where it is known beforehand:
// value v's at place v - 1, NONE where it has none.
#[derive(Clone, Copy, Debug, PartialEq, Eq)]
pub struct Seat {
    pub own: u8,
    pub n: u8,
    pub sizes: [u8; 16],
    pub order: ValueOrder,
}

impl Seat {
    // How many costs touch the unit.
    fn lent_count(self) -> usize
        ensures { (result ≡ lent_count self.own self.n self.sizes) × (result ≤ 16777216) }
    {
        let d = self.size_of(self.place());
        d + d * self.others_before(usize::from(self.n))
    }

    // How many values the other units before place j have together.
    fn others_before(self, j: usize) -> usize
        requires { j ≤ 256 }
        ensures { (result ≡ others_before self j) × (result ≤ 255 * j) }
    {
        let all = self.sum_sizes(0, j);
        let place = self.place();
        if j <= place {
            all
        } else {
            all - self.size_of(place)
        }
    }

    // The sizes of m units from place lo on, added up.
    #[tactic(auto, using(crate::specs::Gather::Steps::sum_more))]
    fn sum_sizes(self, lo: usize, m: usize) -> usize
        requires { (lo ≤ 256) × (m ≤ 256) }
        ensures { (result ≡ sum_from (dom_from self) lo m) × (result ≤ 255 * m) }
    {
        let mut sum = 0;
        for i in 0..m {
            sum += self.size_of(lo + i);
        }
        sum
    }

    // The domain size of the unit at place b, or 0 where that is the own unit.
    fn other_size(self, b: usize) -> usize
        ensures { (result ≡ (if nat_eq b (pred self.own) then 0 else dom_from self b)) × (result ≤ 255) }
    {
        if b == self.place() {
            0
        } else {
            self.size_of(b)
        }
    }

    // The domain size of the unit at place b, 0 where there is none.
    fn size_of(self, b: usize) -> usize
        ensures { (result ≡ dom_from self b) × (result ≤ 255) }
    {
        if b < 16 {
            size_in(&self.sizes, self.n, b)
        } else {
            0
        }
    }

    // The own place.
    fn place(self) -> usize
        ensures { (result ≡ pred self.own) × (result ≤ 254) }
    {
        place_at(self.own)
    }
}

// What looking up a cost gives. 02: "a number or "barred"", and None is barred; a sum is forbidden as soon as one part is.
pub type Cost = Option<u32>;

// A cost where a number is asked for: NONE where it is forbidden.
pub fn as_number(cost: Cost) -> u32
    ensures { result ≡ as_number cost }
{
    cost.unwrap_or(base::NONE)
}

// Whether the costs lent with the unit are as many as they have to be, and each within its limit: refusal 6 or 7.
#[tactic(auto, unfolding(crate::specs::Lent::lent_refusal))]
pub fn check_lent(seat: Seat, costs: &[u8]) -> Result<(), Refusal>
    ensures { told result ≡ lent_refusal seat.own seat.n seat.sizes costs.now }
{
    let unaries = seat.size_of(seat.place());
    let count = seat.lent_count();
    if costs.len() != 2 * count {
        return Err(Refusal::BadLength);
    }
    if !lent_good(costs, unaries, count) {
        return Err(Refusal::BadCost);
    }
    Ok(())
}

// Whether each of the costs lent, of which the first are unary ones, is within its limit.
#[tactic(auto, unfolding(crate::specs::Lent::lent_good))]
fn lent_good(costs: &[u8], unaries: usize, all: usize) -> bool
    requires { (unaries ≤ all) × (all ≤ 16777216) }
    ensures { result ≡ lent_good costs.now unaries all }
{
    table::unary_costs_good(costs, 0, unaries)
        && table::pair_costs_good(costs, 2 * unaries, all - unaries)
}

// The cost of own value v, alone and with the values of the first k units.
pub fn cost_with(seat: Seat, costs: &[u8], values: [u8; 16], k: u8, v: u8) -> Cost
    ensures { result ≡ cost_with (view_from seat costs.now) values k v }
{
    prefix_cost(seat, costs, values, usize::from(k), usize::from(v))
}

// The lookahead bound: over later units, the least cost of own value v with any value of that unit; forbidden where one has none for it.
pub fn h(seat: Seat, costs: &[u8], ahead: &[u32], v: u8) -> Cost
    ensures { (result ≡ h (view_knowing seat costs.now ahead.now) v) × AtMost ahead_limit result }
{
    known_h(seat, costs, ahead, usize::from(v))
}

// h of the first 16 own values, as it is known beforehand.
pub fn lookahead(seat: Seat, costs: &[u8]) -> [u32; 16]
    ensures { Knows (view_from seat costs.now) result }
{
    let mut ahead = [0u32; 16];
    for k in 0..16 {
        ahead[k] = as_number(later_cost(seat, costs, k + 1));
    }
    ahead
}

// The least, over own values, of the cost with the values of the first k units and the lookahead bound; NONE where no value is left.
pub fn estimate(seat: Seat, costs: &[u8], ahead: &[u32], values: [u8; 16], k: u8) -> u32
    ensures { result ≡ as_number (estimate (view_knowing seat costs.now ahead.now) values k) }
{
    let place = seat.place();
    let d = seat.size_of(place);
    let k = usize::from(k);
    if rows::in_rows(place, k, d) {
        let mut sums = [0u32; 16];
        rows::prefix_sums(seat, costs, values, k, &mut sums);
        return rows::least_sum(seat, costs, ahead, &sums, d);
    }
    least_cost(seat, costs, ahead, values, k, d)
}

// The cost of own value v, alone and with the values of the first k units.
fn prefix_cost(seat: Seat, costs: &[u8], values: [u8; 16], k: usize, v: usize) -> Cost
    requires { k ≤ 255 }
    ensures { (result ≡ cost_with (view_from seat costs.now) values k v) × AtMost (65535 * (k + 1)) result }
{
    let place = seat.place();
    let d = seat.size_of(place);
    let mut sum = unary_cost(costs, d, v);
    let mut before = 0;
    for j in 0..k {
        let e = seat.size_of(j);
        let u = value_at(values, j);
        sum += pair_cost(costs, place, j, d, e, before, u, v)?;
        before += seat.other_size(j);
    }
    Some(sum)
}

// The unary cost of own value v, 0 where there is no such value; the unit has d values, and their costs come first.
fn unary_cost(costs: &[u8], d: usize, v: usize) -> u32
    requires { d ≤ 255 }
    ensures { (result ≡ lent_unary d costs.now v) × (result ≤ 65535) }
{
    if is_value(d, v) {
        base::u16_at(costs, 2 * (v - 1))
    } else {
        0
    }
}

// The cost of own value v with value u of the unit at place j, 0 where there is no such pair of values.
// The units have d and e values; the others before place j have `before` values together. The d unary costs come first.
fn pair_cost(
    costs: &[u8],
    place: usize,
    j: usize,
    d: usize,
    e: usize,
    before: usize,
    u: usize,
    v: usize,
) -> Cost
    requires { (d ≤ 255) × (e ≤ 255) × (before ≤ 65025) }
    ensures { (result ≡ pair_from costs.now place j d e before u v) × AtMost 65535 result }
{
    if j == place || !is_value(e, u) || !is_value(d, v) {
        return Some(0);
    }
    let start = d + d * before;
    if j < place {
        return cost_number(costs, start + in_pair(d, u, v));
    }
    cost_number(costs, start + in_pair(e, v, u))
}

// The place of the values u and v among the costs of their pair, the second unit having d values.
fn in_pair(d: usize, u: usize, v: usize) -> usize
    requires { (d ≤ 255) × (1 ≤ u) × (u ≤ 255) × (1 ≤ v) × (v ≤ 255) }
    ensures { (result ≡ in_pair d u v) × (result ≤ 65024) }
{
    (u - 1) * d + (v - 1)
}

// The pair cost number k of those lent.
fn cost_number(costs: &[u8], k: usize) -> Cost
    requires { k ≤ 67108864 }
    ensures { (result ≡ pair_cost (cost_number costs.now k)) × AtMost 65535 result }
{
    cost_of(base::u16_at(costs, 2 * k))
}

// What a number of 16 bits stands for.
fn cost_of(number: u32) -> Cost
    requires { number ≤ 65535 }
    ensures { (result ≡ pair_cost number) × AtMost 65535 result }
{
    (number != base::FORBIDDEN_PAIR).then_some(number)
}

// The lookahead bound of own value v, as it is known or worked out.
fn known_h(seat: Seat, costs: &[u8], ahead: &[u32], v: usize) -> Cost
    ensures { (result ≡ h (view_knowing seat costs.now ahead.now) v) × AtMost ahead_limit result }
{
    if is_value(ahead.len(), v) {
        ahead_cost(ahead[v - 1])
    } else {
        later_cost(seat, costs, v)
    }
}

// What a number stands for that is known as h.
fn ahead_cost(number: u32) -> Cost
    ensures { (result ≡ ahead_cost number) × AtMost ahead_limit result }
{
    (number <= AHEAD_LIMIT).then_some(number)
}

// The lookahead bound of own value v, worked out. What is no value costs nothing: the runs are then read from no bytes, as zeros.
fn later_cost(seat: Seat, costs: &[u8], v: usize) -> Cost
    ensures { (result ≡ h (view_from seat costs.now) v) × AtMost ahead_limit result }
{
    if is_value(seat.size_of(seat.place()), v) {
        least_runs(seat, costs, v)
    } else {
        least_runs(seat, &[], 1)
    }
}

// The runs of own value v with later units, the least of each added up.
fn least_runs(seat: Seat, costs: &[u8], v: usize) -> Cost
    requires { (1 ≤ v) × (v ≤ 255) }
    ensures { (result ≡ runs_from seat costs.now v (pred seat.own + 1)) × AtMost ahead_limit result }
{
    let place = seat.place();
    let d = seat.size_of(place);
    let mut before = seat.others_before(place + 1);
    let mut sum = 0;
    for j in place + 1..usize::from(seat.n) {
        let e = seat.size_of(j);
        let start = d + d * before + (v - 1) * e;
        sum += least_run(costs, start, e)?;
        before += e;
    }
    Some(sum)
}

// The least of the e costs from number `start` on; forbidden, the last number of 16 bits, where there are none.
fn least_run(costs: &[u8], start: usize, e: usize) -> Cost
    requires { (start ≤ 67108864) × (e ≤ 255) }
    ensures { (result ≡ least_run costs.now start e) × AtMost 65535 result }
{
    let mut best = base::FORBIDDEN_PAIR;
    for u in 0..e {
        best = best.min(base::u16_at(costs, 2 * (start + u)));
    }
    cost_of(best)
}

// The least, over own values up to d, of the cost with the first k units and the lookahead bound; NONE where all are forbidden.
fn least_cost(seat: Seat, costs: &[u8], ahead: &[u32], values: [u8; 16], k: usize, d: usize) -> u32
    requires { (k ≤ 255) × (d ≡ dom_from seat (pred seat.own)) }
    ensures { result ≡ as_number (estimate (view_knowing seat costs.now ahead.now) values k) }
{
    let mut best = base::NONE;
    for i in 0..d {
        best = best.min(as_number(value_cost(seat, costs, ahead, values, k, i + 1)));
    }
    best
}

// The cost of own value v with the first k units, and its lookahead bound.
fn value_cost(seat: Seat, costs: &[u8], ahead: &[u32], values: [u8; 16], k: usize, v: usize) -> Cost
    requires { k ≤ 255 }
    ensures { result ≡ cost_with (view_knowing seat costs.now ahead.now) values k v ⊕ h (view_knowing seat costs.now ahead.now) v }
{
    let cost = prefix_cost(seat, costs, values, k, v)?;
    let later = known_h(seat, costs, ahead, v)?;
    Some(cost + later)
}

// The size of the unit at place b, of these sizes of n units; 0 where there is no such unit.
fn size_in(sizes: &[u8], n: u8, b: usize) -> usize
    requires { b < length sizes.now }
    ensures { (result ≡ dom_in n sizes.now b) × (result ≤ 255) }
{
    if b < usize::from(n) {
        usize::from(sizes[b])
    } else {
        0
    }
}

// The place of unit `own`.
fn place_at(own: u8) -> usize
    ensures { (result ≡ pred own) × (result ≤ 254) }
{
    usize::from(own.saturating_sub(1))
}

// The value of the unit at place j, 0 past the end.
fn value_at(values: [u8; 16], j: usize) -> usize
    ensures { (result ≡ slice_index values j) × (result ≤ 255) }
{
    usize::from(base::byte_at(&values, j))
}
