// The bench's two searches over the assignments of a stream's table: exhaustive, and synchronous branch and bound.
#![tactic(auto)]

ghost use Rattle.std.specs.Prelude.{◌≡◌, ◌+◌, ◌*◌, ◌-◌, ◌≤◌, ◌<◌, false, cond, ltb, leb, get_or, length, replicate};
ghost use Rattle.base.specs.Limits.{pair_limit, unary_limit, search_limit};
ghost use Rattle.costs.specs.Cost.Laws.{AtMost};
ghost use Rattle.costs.specs.Instance.{instance_of, view_of};
ghost use Rattle.costs.specs.Bounds.{cost_with};
ghost use Rattle.search.specs.Search.{assignment_count, found_by, search_of, branch_and_bound_of};
ghost use Rattle.search.specs.Best.{keep, best_from, best_of};
ghost use Rattle.search.specs.Steps.{Sized, Filled, Filling, Adding, Extending};

use base::Refusal;
use costs::Cost;

// What a search gives: the refusal, or 0 with the least total and its first assignment, places past n zero; where there is none, NONE and zeros.
// C is handed it as it is.
#[repr(C)]
#[derive(Clone, Copy, Debug, PartialEq, Eq)]
pub struct Found {
    pub refusal: u8,
    pub total: u32,
    pub values: [u8; 16],
}

// The best assignment so far. The values stand first, so that they are copied in one piece.
#[derive(Clone, Copy)]
struct Best {
    values: [u8; 16],
    total: u32,
}

impl From<Result<Best, Refusal>> for Found {
    ghost use Rattle.search.specs.Search.{found_by};

    ghost from_gives = { λ r f. f ≡ found_by r };

    fn from(r: Result<Best, Refusal>) -> Found {
        match r {
            Ok(best) => {
                let values = best.values;
                Found {
                    refusal: 0,
                    total: best.total,
                    values,
                }
            }
            Err(e) => {
                let values = [0u8; 16];
                Found {
                    refusal: e.number(),
                    total: 0,
                    values,
                }
            }
        }
    }
}

// The least total over all assignments, with its first assignment in ascending order; NONE where there is none.
pub fn exhaustive(stream: &[u8]) -> Found
    ensures { result ≡ search_of stream.now }
{
    Found::from(search_all(stream))
}

// The same of any number of assignments, by synchronous branch and bound: a value is dropped when the cost so far reaches the best total.
pub fn branch_and_bound(stream: &[u8]) -> Found
    ensures { result ≡ branch_and_bound_of stream.now }
{
    Found::from(search_bounded(stream))
}

// What the exhaustive search finds, where there are not too many assignments.
fn search_all(stream: &[u8]) -> Result<Best, Refusal>
    ensures { found_by result ≡ search_of stream.now }
{
    table::check_stream(stream)?;
    let first = table::opening(stream) + 1;
    let n = usize::from(table::units_of(stream));
    if too_many(stream, first, n) {
        return Err(Refusal::TooMany);
    }
    Ok(find(stream, first, n, false))
}

// What branch and bound finds.
fn search_bounded(stream: &[u8]) -> Result<Best, Refusal>
    ensures { found_by result ≡ branch_and_bound_of stream.now }
{
    table::check_stream(stream)?;
    let first = table::opening(stream) + 1;
    let n = usize::from(table::units_of(stream));
    Ok(find(stream, first, n, true))
}

// The best of n units, whose sizes begin at byte `first`.
fn find(stream: &[u8], first: usize, n: usize, bounded: bool) -> Best
    requires { Sized stream.now first n }
    ensures { result ≡ best_of (instance_of stream.now) }
{
    let none = [0u8; 16];
    let starts = cost_starts(stream, first, n);
    let nothing = Best {
        values: none,
        total: base::NONE,
    };
    extend(stream, first, &starts, bounded, n, 0, 0, none, nothing)
}

// Whether there are more than 1,048,576 assignments of n units, whose sizes begin at byte `first`, forbidden ones counted; the product
// stops once it is above.
fn too_many(stream: &[u8], first: usize, n: usize) -> bool
    requires { Sized stream.now first n }
    ensures { result ≡ ltb search_limit (assignment_count (instance_of stream.now)) }
{
    let mut count = 1;
    for i in 0..n {
        count *= byte(stream, first + i);
        if base::SEARCH_LIMIT < count {
            return true;
        }
    }
    false
}

// The best of b and of the assignments that begin with the first `level` places of `chosen`, which cost `cost`. `left` units come
// after these: each value of the next that is neither forbidden with those before nor dropped hands on to the one after it.
fn extend(
    stream: &[u8],
    first: usize,
    starts: &[u32],
    bounded: bool,
    left: usize,
    level: usize,
    cost: u32,
    chosen: [u8; 16],
    b: Best,
) -> Best
    requires { Extending stream.now first starts.now left level cost chosen }
    ensures { result ≡ best_from (instance_of stream.now) left level chosen b }
{
    if left == 0 {
        return better(b, cost, chosen);
    }
    let d = byte(stream, first + level);
    let mut best = b;
    for v in 1..d + 1 {
        // stored before the costs are added, as the call's copy would wait for a byte just stored
        let mut next = chosen;
        next[level] = v as u8;
        if let Some(more) = added_cost(stream, starts, level, d, chosen, v) {
            let sum = cost + more;
            if !dropped(bounded, sum, best.total) {
                best = extend(
                    stream,
                    first,
                    starts,
                    bounded,
                    left - 1,
                    level + 1,
                    sum,
                    next,
                    best,
                );
            }
        }
    }
    best
}

// Whether a prefix of this cost is dropped: all that begin with it cost at least as much, and come after the best.
fn dropped(bounded: bool, cost: u32, best: u32) -> bool
    ensures { result ≡ cond bounded (leb best cost) false }
{
    bounded && best <= cost
}

// The assignment in place of b where its total is lower.
fn better(b: Best, total: u32, values: [u8; 16]) -> Best
    ensures { result ≡ keep b total values }
{
    if total < b.total {
        Best { values, total }
    } else {
        b
    }
}

// The cost of value v of the unit at `level`, which has d values, alone and with the values chosen before it: forbidden as soon as one pair is.
fn added_cost(
    stream: &[u8],
    starts: &[u32],
    level: usize,
    d: usize,
    chosen: [u8; 16],
    v: usize,
) -> Cost
    requires { Adding stream.now starts.now level d chosen v }
    ensures { (result ≡ cost_with (view_of (instance_of stream.now) level) chosen level v) × AtMost (unary_limit + pair_limit * level) result }
{
    let column = 16 * level;
    let mut sum = base::u16_at(stream, unary_place(starts[column + level], v));
    for i in 0..level {
        let at = cost_place(starts[column + i], d, chosen[i], v);
        let number = base::u16_at(stream, at);
        if number == base::FORBIDDEN_PAIR {
            return None;
        }
        sum += number;
    }
    Some(sum)
}

// Where the unary cost of value v stands, of a unit whose unary costs begin at `start`.
fn unary_place(start: u32, v: usize) -> usize
    requires { (1 ≤ v) × (v < 256) }
    ensures { result ≡ start + 2 * (v - 1) }
{
    start as usize + 2 * (v - 1)
}

// Where the cost of the values u and v stands, the second unit having d values, of a pair whose costs begin at `start`.
fn cost_place(start: u32, d: usize, u: u8, v: usize) -> usize
    requires { (d < 256) × (1 ≤ u) × (1 ≤ v) × (v < 256) }
    ensures { result ≡ start + 2 * ((u - 1) * d + (v - 1)) }
{
    start as usize + 2 * ((usize::from(u) - 1) * d + (v - 1))
}

// Where in the stream the costs of each pair of places i < j begin, at 16 × j + i, and the unary costs of each place k, at 16 × k + k.
fn cost_starts(stream: &[u8], first: usize, n: usize) -> [u32; 256]
    requires { Sized stream.now first n }
    ensures { Filled stream.now 256 result }
{
    let end = stream.len() as u32;
    let mut starts = [end; 256];
    let mut at = fill_unaries(stream, first, n, &mut starts);
    for i in 0..n {
        at = fill_row(stream, first, n, i, at, &mut starts);
    }
    starts
}

// The starts of the unary costs of each place; gives where the pair costs begin. Form one has no unary costs: each place keeps the
// stream's end, where zeros are read.
fn fill_unaries(stream: &[u8], first: usize, n: usize, starts: &mut [u32]) -> usize
    requires { Sized stream.now first n × (starts.old ≡ replicate 256 (length stream.now)) }
    ensures { Filling stream.now first n 0 result starts.new }
{
    let mut at = first + n;
    if first == 1 {
        return at;
    }
    for i in 0..n {
        starts[16 * i + i] = at as u32;
        at += 2 * byte(stream, first + i);
    }
    at
}

// The starts of the pairs of place i, the first of which begins at `at`; gives where those of the next place begin.
fn fill_row(stream: &[u8], first: usize, n: usize, i: usize, at: usize, starts: &mut [u32]) -> usize
    requires { Filling stream.now first n i at starts.old × (i < n) }
    ensures { Filling stream.now first n (i + 1) result starts.new }
{
    let d = byte(stream, first + i);
    let mut from = at;
    for j in i + 1..n {
        starts[16 * j + i] = from as u32;
        from += 2 * (d * byte(stream, first + j));
    }
    from
}

// The byte at k, 0 past the end.
fn byte(stream: &[u8], k: usize) -> usize
    ensures { (result ≡ get_or stream.now k 0) × (result < 256) }
{
    usize::from(base::byte_at(stream, k))
}
