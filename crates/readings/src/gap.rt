// What the gap between the readings of two lines in one lot costs.

ghost use Rattle.std.specs.Prelude.{◌≡◌, ◌≤◌, ◌<◌, pos, nat_abs, ◌≤ℤ◌};
ghost use Rattle.base.specs.Limits.{pair_limit};
ghost use Rattle.readings.specs.Readings.{penalty, gap, gap_cost};

use base::PAIR_LIMIT;

// 02: "For gaps 0 to 19 the schedule is .."
const PENALTIES: [u16; 20] = [
    0, 0, 1, 2, 4, 7, 11, 16, 22, 29, 37, 46, 56, 67, 79, 92, 106, 121, 137, 154,
];

// What two lines cost in the same lot, from their readings.
pub(crate) fn pair_cost(earlier: u32, later: u32) -> u32
    requires { (earlier < 65536) × (later < 65536) }
    ensures { (result ≡ gap_cost (gap earlier later)) × (result ≤ pair_limit) }
{
    gap_cost(gap_of(earlier, later))
}

// The later line's reading less the earlier line's, below zero when finer.
fn gap_of(earlier: u32, later: u32) -> i32
    requires { (earlier < 65536) × (later < 65536) }
    ensures { result ≡ gap earlier later }
{
    signed(later) - signed(earlier)
}

fn signed(x: u32) -> i32
    requires { x < 65536 }
    ensures { result ≡ pos x }
{
    x as i32
}

// The cost of a gap, and half of its positive twin's below zero.
fn gap_cost(gap: i32) -> u32
    requires { nat_abs gap < 65536 }
    ensures { (result ≡ gap_cost gap) × (result ≤ pair_limit) }
{
    if gap < 0 {
        return penalty(size_of(-gap)) / 2;
    }
    penalty(size_of(gap))
}

fn size_of(gap: i32) -> usize
    requires { pos 0 ≤ℤ gap }
    ensures { pos result ≡ gap }
{
    gap as usize
}

// The cost of a gap of that size.
fn penalty(size: usize) -> u32
    ensures { (result ≡ penalty size) × (result ≤ pair_limit) }
{
    if size < 20 {
        return PENALTIES[size] as u32;
    }
    PAIR_LIMIT
}
