// The costs of all own values with the values of the units before, a row of own values at a time.

ghost use Rattle.std.specs.Prelude.{◌≡◌, ℕ, suc, pred, ◌+◌, ◌*◌, ◌<◌, ◌≤◌, min, true, ◌&&◌, List, length, nat_le, slice_index};
ghost use Rattle.base.specs.Bytes.{u16_at};
ghost use Rattle.base.specs.Limits.{places};
ghost use Rattle.costs.specs.Cost.{◌⊕◌, as_number};
ghost use Rattle.costs.specs.Cost.Laws.{AtMost};
ghost use Rattle.costs.specs.Instance.{dom_in, view_from, view_knowing};
ghost use Rattle.costs.specs.Bounds.{h, estimate};
ghost use Rattle.costs.specs.Lent.Parts.{dom_from};
ghost use Rattle.costs.specs.Rows.{widened, sum_cost, Added, Small, four_added, Sums, unit_row, paid_number};

use crate::{Cost, FORBIDDEN_SUM, Seat, as_number, known_h, size_in};
use base::{PLACES, is_value};

// The cost of each own value, of the first 16, alone and with the values of the units before, as a number: value v's at place v - 1, NONE where it
// is forbidden, 0 where there is no such value.
pub fn paid(seat: Seat, costs: &[u8], values: [u8; 16]) -> [u32; 16]
    ensures { (i : ℕ) → i < places → slice_index result i ≡ paid_number (view_from seat costs.now) values (min (pred seat.own) places) (suc i) }
{
    let place = seat.place();
    let most = seat.size_of(place).min(PLACES);
    let mut sums = [0u32; 16];
    prefix_sums(seat, costs, values, place.min(PLACES), &mut sums);
    let mut paid = [0u32; 16];
    for i in 0..most {
        paid[i] = as_number(sum_cost(sums[i]));
    }
    paid
}

// The cost that a sum stands for.
fn sum_cost(sum: u32) -> Cost
    ensures { (result ≡ sum_cost sum) × AtMost 16777215 result }
{
    (sum < FORBIDDEN_SUM).then_some(sum)
}

// Whether the costs with the first k units, for d own values, stand in rows and in 16 places.
pub(crate) fn in_rows(place: usize, k: usize, d: usize) -> bool
    ensures { result ≡ (nat_le k place && nat_le k places && nat_le d places) }
{
    k <= place && k <= PLACES && d <= PLACES
}

// The least of the d sums, each with its h; NONE where all are forbidden.
pub(crate) fn least_sum(seat: Seat, costs: &[u8], ahead: &[u32], sums: &[u32], d: usize) -> u32
    requires { (d ≤ places) × (d ≡ dom_from seat (pred seat.own)) × (d ≤ length sums.now) }
    ensures { (values : List ℕ) (k : ℕ) → Sums (view_from seat costs.now) values k sums.now → result ≡ as_number (estimate (view_knowing seat costs.now ahead.now) values k) }
{
    let mut best = base::NONE;
    for i in 0..d {
        best = best.min(as_number(with_h(seat, costs, ahead, sums[i], i + 1)));
    }
    best
}

// The cost that a sum of own value v stands for, and its h.
fn with_h(seat: Seat, costs: &[u8], ahead: &[u32], sum: u32, v: usize) -> Cost
    ensures { result ≡ sum_cost sum ⊕ h (view_knowing seat costs.now ahead.now) v }
{
    let cost = sum_cost(sum)?;
    let later = known_h(seat, costs, ahead, v)?;
    Some(cost + later)
}

// The costs of the own values, of the first 16, alone and with the values of the first k units, each as a sum in which what is forbidden counts
// FORBIDDEN_SUM. The units after the own one cost rows of another shape: k is not past its place. They are written where they are wanted: an
// array that was just written costs time to copy.
pub(crate) fn prefix_sums(seat: Seat, costs: &[u8], values: [u8; 16], k: usize, sums: &mut [u32])
    requires { (k ≤ pred seat.own) × (k ≤ places) × (places ≤ length sums.old) }
    ensures { Sums (view_from seat costs.now) values k sums.new }
{
    let d = seat.size_of(seat.place());
    let most = d.min(PLACES);
    put_unaries(sums, costs, most);
    let sizes = seat.sizes;
    let mut at = 2 * d;
    for j in 0..k {
        let e = size_in(&sizes, seat.n, j);
        let u = usize::from(values[j]);
        add_unit(sums, costs, at, d, e, u, most);
        at += 2 * (d * e);
    }
}

// The unary costs of the first `most` own values are written.
fn put_unaries(sums: &mut [u32], costs: &[u8], most: usize)
    requires { (most ≤ length sums.old) × (most ≤ places) }
    ensures { (i : ℕ) → i < most → slice_index sums.new i ≡ u16_at costs.now (2 * i) }
{
    let there = 2 * most <= costs.len();
    for i in 0..most {
        sums[i] = number_at(costs, 2 * i, there);
    }
}

// The costs with value u of a unit of e values are added, none where it is no value. They begin at byte `at`, in rows of d own values.
fn add_unit(sums: &mut [u32], costs: &[u8], at: usize, d: usize, e: usize, u: usize, most: usize)
    requires { (places ≤ length sums.old) × Small most sums.old × (most ≤ places) × (at ≤ 16777216) × (d ≤ 255) × (u ≤ 255) }
    ensures { Added most (unit_row costs.now at d e u) sums.old sums.new }
{
    if is_value(e, u) {
        add_row(sums, costs, at + 2 * ((u - 1) * d), most);
    }
}

// The row of costs that begins at byte `at` is added: four at a time, where three costs more are there behind it.
fn add_row(sums: &mut [u32], costs: &[u8], at: usize, most: usize)
    requires { (places ≤ length sums.old) × Small most sums.old × (most ≤ places) × (at ≤ 33554432) }
    ensures { Added most (λ (i : ℕ). widened (u16_at costs.now (at + 2 * i))) sums.old sums.new }
{
    if at + 2 * most + 6 <= costs.len() {
        add_fours(sums, costs, at, most);
    } else {
        add_each(sums, costs, at, most);
    }
}

// Four costs at a time. Those behind the row are added to sums that nobody asks for.
fn add_fours(sums: &mut [u32], costs: &[u8], at: usize, most: usize)
    requires { (places ≤ length sums.old) × Small most sums.old × (most ≤ places) × (at ≤ 33554432) × (at + 2 * most + 6 ≤ length costs.now) }
    ensures { Added most (λ (i : ℕ). widened (u16_at costs.now (at + 2 * i))) sums.old sums.new }
{
    for four in 0..most.div_ceil(4) {
        add_four(sums, costs, at + 8 * four, 4 * four);
    }
}

// The four costs from byte `at` on are added to the sums from place i on, each kept in 32 bits. All are read before one is written, so that a
// compiler can add them at once.
fn add_four(sums: &mut [u32], costs: &[u8], at: usize, i: usize)
    requires { (i + 4 ≤ length sums.old) × (i ≤ places) × (at + 8 ≤ length costs.now) × (at ≤ 33554464) }
    ensures { sums.new ≡ four_added costs.now at i sums.old }
{
    let first = in_sum(number_at(costs, at, true));
    let second = in_sum(number_at(costs, at + 2, true));
    let third = in_sum(number_at(costs, at + 4, true));
    let fourth = in_sum(number_at(costs, at + 6, true));
    sums[i] = sums[i].wrapping_add(first);
    sums[i + 1] = sums[i + 1].wrapping_add(second);
    sums[i + 2] = sums[i + 2].wrapping_add(third);
    sums[i + 3] = sums[i + 3].wrapping_add(fourth);
}

// One cost at a time; bytes past the end count as 0.
fn add_each(sums: &mut [u32], costs: &[u8], at: usize, most: usize)
    requires { (most ≤ length sums.old) × Small most sums.old × (most ≤ places) × (at ≤ 33554432) }
    ensures { Added most (λ (i : ℕ). widened (u16_at costs.now (at + 2 * i))) sums.old sums.new }
{
    for i in 0..most {
        sums[i] += in_sum(base::u16_at(costs, at + 2 * i));
    }
}

// The 16-bit number at byte k; bytes past the end count as 0. Where it is known to be there it is read without a test.
fn number_at(costs: &[u8], k: usize, there: bool) -> u32
    requires { there ≡ true → k + 1 < length costs.now }
    ensures { (result ≡ u16_at costs.now k) × (result < 65536) }
{
    if there {
        return u32::from(costs[k]) + 256 * u32::from(costs[k + 1]);
    }
    base::u16_at(costs, k)
}

// A cost of 16 bits as it is added.
fn in_sum(number: u32) -> u32
    requires { number < 65536 }
    ensures { (result ≡ widened number) × (result ≤ 16777216) }
{
    if number == base::FORBIDDEN_PAIR {
        FORBIDDEN_SUM
    } else {
        number
    }
}
