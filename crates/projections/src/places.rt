// Where the held costs of n units with given sizes stand. Units count from 0 here, but for the numbers that are lent.

ghost use Rattle.std.specs.Prelude.{◌≡◌, ◌*◌, ◌≤◌, ◌<◌, pred};
ghost use Rattle.base.specs.Sums.{sum_from};
ghost use Rattle.costs.specs.Instance.{dom_in, pair_start};
ghost use Rattle.costs.specs.Laws.Stream.{row_start};
ghost use Rattle.projections.specs.Held.{own_at, with_at, cost_count};
ghost use Rattle.projections.specs.Moves.Changed.{Row};
ghost use Rattle.projections.specs.Steps.{RunOf};

use crate::Run;

// The own cost of a unit's value.
pub(crate) fn own_place(n: u8, sizes: [u8; 16], unit: u8, value: u8) -> usize
    requires { (1 ≤ unit) × (unit ≤ 16) × (1 ≤ value) }
    ensures { (result ≡ own_at (dom_in n sizes) (pred unit) value) × (result ≤ 4335) }
{
    sum_sizes(n, sizes, 0, usize::from(unit) - 1) + (usize::from(value) - 1)
}

// The own costs of all values of a unit.
pub(crate) fn own_run(n: u8, sizes: [u8; 16], unit: u8) -> Run
    requires { (1 ≤ unit) × (unit ≤ 16) }
    ensures { RunOf (own_at (dom_in n sizes) (pred unit)) (dom_in n sizes (pred unit)) result }
{
    let place = usize::from(unit) - 1;
    Run {
        start: sum_sizes(n, sizes, 0, place),
        step: 1,
        count: size_of(n, sizes, place),
    }
}

// The costs of a unit's value with the values of another unit.
pub(crate) fn row_run(n: u8, sizes: [u8; 16], unit: u8, value: u8, other: u8) -> Run
    requires { (n ≤ 16) × (1 ≤ unit) × (1 ≤ other) × Row (dom_in n sizes) n (pred unit) value (pred other) }
    ensures { RunOf (with_at (dom_in n sizes) n (pred unit) value (pred other)) (dom_in n sizes (pred other)) result }
{
    let i = usize::from(unit) - 1;
    let j = usize::from(other) - 1;
    let u = usize::from(value) - 1;
    let own = sum_sizes(n, sizes, 0, usize::from(n));
    let count = size_of(n, sizes, j);
    if i < j {
        Run {
            start: own + (pair_start(n, sizes, i, j) + u * count),
            step: 1,
            count,
        }
    } else {
        Run {
            start: own + (pair_start(n, sizes, j, i) + u),
            step: size_of(n, sizes, i),
            count,
        }
    }
}

// How many costs there are.
pub(crate) fn cost_count(n: u8, sizes: [u8; 16]) -> usize
    requires { n ≤ 16 }
    ensures { result ≡ cost_count (dom_in n sizes) n }
{
    sum_sizes(n, sizes, 0, usize::from(n)) + row_start(n, sizes, usize::from(n))
}

// How many pair costs stand before those of the units i and j.
fn pair_start(n: u8, sizes: [u8; 16], i: usize, j: usize) -> usize
    requires { (n ≤ 16) × (i < j) × (j < n) }
    ensures { (result ≡ pair_start (dom_in n sizes) n i j) × (result ≤ 33423360) }
{
    row_start(n, sizes, i) + size_of(n, sizes, i) * sum_sizes(n, sizes, i + 1, j - (i + 1))
}

// How many stand before those of unit i with later units.
pub(crate) fn row_start(n: u8, sizes: [u8; 16], i: usize) -> usize
    requires { (n ≤ 16) × (i ≤ n) }
    ensures { (result ≡ row_start (dom_in n sizes) n i) × (result ≤ 1040400 * i) }
{
    let count = usize::from(n);
    let mut start = 0;
    for a in 0..i {
        start += size_of(n, sizes, a) * sum_sizes(n, sizes, a + 1, count - (a + 1));
    }
    start
}

// The sizes of m units from place lo on, added up.
pub(crate) fn sum_sizes(n: u8, sizes: [u8; 16], lo: usize, m: usize) -> usize
    requires { (lo ≤ 256) × (m ≤ 256) }
    ensures { (result ≡ sum_from (dom_in n sizes) lo m) × (result ≤ 255 * m) }
{
    let mut sum = 0;
    for i in 0..m {
        sum += size_of(n, sizes, lo + i);
    }
    sum
}

// The domain size of the unit at place b, 0 where there is none.
pub(crate) fn size_of(n: u8, sizes: [u8; 16], b: usize) -> usize
    ensures { (result ≡ dom_in n sizes b) × (result ≤ 255) }
{
    if usize::from(n) <= b {
        return 0;
    }
    usize::from(sizes.get(b).copied().unwrap_or(0))
}
