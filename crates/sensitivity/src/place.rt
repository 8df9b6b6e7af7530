// Where the number of a cost stands in a stream, so that it can be retested.

ghost use Rattle.std.specs.Prelude.{◌≡◌, suc, ◌*◌, ◌≤◌};
ghost use Rattle.base.specs.Sums.{sum_from};
ghost use Rattle.costs.specs.Instance.{pair_start};
ghost use Rattle.sensitivity.specs.Changes.{Unary, Pair};
ghost use Rattle.sensitivity.specs.Streams.{place_of, found_at};
ghost use Rattle.sensitivity.specs.Steps.{size_in};

// The byte at which the number of the unary cost of value v of the unit at place k stands; none where the stream is refused or has none.
pub fn unary_at(stream: &[u8], k: usize, v: usize) -> Option<usize>
    ensures { result ≡ found_at (place_of stream.now (Unary k v)) }
{
    if table::check_stream(stream).is_err() {
        return None;
    }
    if table::opening(stream) == 0 {
        return None;
    }
    let n = usize::from(table::units_of(stream));
    if n <= k {
        return None;
    }
    let sizes = costs::sizes_of(stream);
    if !base::is_value(size(sizes, k), v) {
        return None;
    }
    Some(2 + n + 2 * (sum_sizes(sizes, 0, k) + (v - 1)))
}

// The same of the pair cost of value u of the unit at place i with value v of that at place j.
pub fn pair_at(stream: &[u8], i: usize, u: usize, j: usize, v: usize) -> Option<usize>
    ensures { result ≡ found_at (place_of stream.now (Pair i u j v)) }
{
    if table::check_stream(stream).is_err() {
        return None;
    }
    let n = usize::from(table::units_of(stream));
    if j <= i {
        return None;
    }
    if n <= j {
        return None;
    }
    let sizes = costs::sizes_of(stream);
    let e = size(sizes, j);
    if !base::is_value(size(sizes, i), u) {
        return None;
    }
    if !base::is_value(e, v) {
        return None;
    }
    let before = table::opening(stream);
    let unaries = before * sum_sizes(sizes, 0, n);
    Some(before + 1 + n + 2 * (unaries + (pair_start(sizes, n, i, j) + ((u - 1) * e + (v - 1)))))
}

// How many pair costs stand before those of the units at places i and j.
fn pair_start(sizes: [u8; 16], n: usize, i: usize, j: usize) -> usize
    requires { (suc i ≤ j) × (j ≤ n) × (n ≤ 16) }
    ensures { (result ≡ pair_start (size_in sizes) n i j) × (result ≤ 17686800) }
{
    let mut rows = 0;
    for a in 0..i {
        rows += size(sizes, a) * sum_sizes(sizes, a + 1, n - (a + 1));
    }
    rows + size(sizes, i) * sum_sizes(sizes, i + 1, j - (i + 1))
}

// The sizes of m units from place lo on, added up.
fn sum_sizes(sizes: [u8; 16], lo: usize, m: usize) -> usize
    requires { (lo ≤ 16) × (m ≤ 16) }
    ensures { (result ≡ sum_from (size_in sizes) lo m) × (result ≤ 255 * m) }
{
    let mut sum = 0;
    for i in 0..m {
        sum += size(sizes, lo + i);
    }
    sum
}

// The domain size of the unit at place k, 0 past the last place.
fn size(sizes: [u8; 16], k: usize) -> usize
    ensures { (result ≡ size_in sizes k) × (result ≤ 255) }
{
    usize::from(sizes.get(k).copied().unwrap_or(0))
}
