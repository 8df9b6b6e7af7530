// The checks 5, 6 and 7 of a stream, over one view of it: plain, or in the blocks of a file.

ghost use Rattle.std.specs.Prelude.{◌≡◌, true, ◌+◌, ◌*◌, ◌≤◌, ◌<◌, get_or, take, drop};
ghost use Rattle.base.specs.Limits.{places};
ghost use Rattle.base.specs.Refusal.{told};
ghost use Rattle.base.specs.Shape.{all_in_sixteen};
ghost use Rattle.table.specs.Stream.{opening, sum_list, pairs_in, costs_good, stream_refusal};
ghost use Rattle.table.specs.StreamLaws.{test_of};
ghost use Rattle.table.specs.File.{stream_of};
ghost use Rattle.table.specs.View.{BlocksAccepted, place_in_file, Viewed, ShapeSays, RunAt};

use crate::{Costs, costs_good};
use base::{BLOCK_SIZE, FORM_TWO, PAYLOAD_SIZE, PLACES, Refusal};

// A stream of `count` bytes, which lies in `bytes`: it is these, or a file's blocks carry it.
#[derive(Clone, Copy)]
pub(crate) struct View<'a> {
    bytes: &'a [u8],
    blocked: bool,
    count: usize,
    ghost viewed: { Viewed blocked bytes.now count },
}

impl<'a> View<'a> {
    ghost use Rattle.table.specs.Seen.{seen};

    // A stream as it is.
    pub(crate) fn of_stream(stream: &'a [u8]) -> View<'a>
        ensures { seen result ≡ stream.now }
    {
        View {
            bytes: stream,
            blocked: false,
            count: stream.len(),
        }
    }

    // The stream of a file with accepted blocks.
    pub(crate) fn of_file(file: &'a [u8]) -> View<'a>
        requires { BlocksAccepted file.now }
        ensures { seen result ≡ stream_of file.now }
    {
        View {
            bytes: file,
            blocked: true,
            count: crate::stream_length(file),
        }
    }

    // Whether the stream passes the checks 5, 6 and 7.
    pub(crate) fn check(&self) -> Result<(), Refusal>
        ensures { told result ≡ stream_refusal (seen self.now) }
    {
        let before = self.opening();
        self.check_shape(before)?;
        let n = self.byte(before);
        let unaries = self.unaries_in(before, n);
        let pairs = self.pairs_in(before + 1, n);
        let unaries_at = before + 1 + n;
        let pairs_at = unaries_at + 2 * unaries;
        if self.count != pairs_at + 2 * pairs {
            return Err(Refusal::BadLength);
        }
        if !self.costs_good(unaries_at, unaries, Costs::Unary) {
            return Err(Refusal::BadCost);
        }
        if !self.costs_good(pairs_at, pairs, Costs::Pair) {
            return Err(Refusal::BadCost);
        }
        Ok(())
    }

    // How many bytes of the stream stand before n.
    pub(crate) fn opening(&self) -> usize
        ensures { (result ≡ opening (seen self.now)) × (result ≤ 1) }
    {
        if self.count == 0 {
            return 0;
        }
        if self.byte(0) == usize::from(FORM_TWO) {
            return 1;
        }
        0
    }

    // Whether n and the sizes are good: those that are present are checked by 5, then all must be.
    fn check_shape(&self, before: usize) -> Result<(), Refusal>
        requires { (before ≡ opening (seen self.now)) × (before ≤ 1) }
        ensures { ShapeSays (told result) (seen self.now) }
    {
        if self.count <= before {
            return Err(Refusal::BadLength);
        }
        let n = self.byte(before);
        if !base::is_value(PLACES, n) {
            return Err(Refusal::OutOfRange);
        }
        if !self.sizes_good(before + 1, n) {
            return Err(Refusal::OutOfRange);
        }
        if self.count < before + 1 + n {
            return Err(Refusal::BadLength);
        }
        Ok(())
    }

    // Whether the sizes that are present from byte `from` on, of n, are 1 to 16.
    fn sizes_good(&self, from: usize, n: usize) -> bool
        requires { (from ≤ 2) × (n ≤ places) }
        ensures { result ≡ all_in_sixteen (take n (drop from (seen self.now))) }
    {
        for i in 0..n {
            if self.count <= from + i {
                return true;
            }
            if !base::is_value(PLACES, self.byte(from + i)) {
                return false;
            }
        }
        true
    }

    // How many unary costs the n sizes need: one for each value, and none in form one, where no byte stands before n.
    fn unaries_in(&self, before: usize, n: usize) -> usize
        requires { (before ≤ 1) × (n ≤ places) × (before + 1 + n ≤ self.now.count) }
        ensures { (result ≡ before * sum_list (take n (drop (before + 1) (seen self.now)))) × (result ≤ 4080) }
    {
        if before == 0 {
            return 0;
        }
        self.sum_sizes(before + 1, n)
    }

    // The n sizes from byte `from` on, added up.
    pub(crate) fn sum_sizes(&self, from: usize, n: usize) -> usize
        requires { (from ≤ 2) × (n ≤ places) × (from + n ≤ self.now.count) }
        ensures { (result ≡ sum_list (take n (drop from (seen self.now)))) × (result ≤ 4080) }
    {
        let mut sum: usize = 0;
        for i in 0..n {
            sum += self.byte(from + i);
        }
        sum
    }

    // How many pair costs the n sizes from byte `from` on need.
    fn pairs_in(&self, from: usize, n: usize) -> usize
        requires { (from ≤ 2) × (n ≤ places) × (from + n ≤ self.now.count) }
        ensures { (result ≡ pairs_in (take n (drop from (seen self.now)))) × (result < 33554432) }
    {
        let mut earlier: usize = 0;
        let mut pairs: usize = 0;
        for i in 0..n {
            let size = self.byte(from + i);
            pairs += earlier * size;
            earlier += size;
        }
        pairs
    }

    // Whether so many costs from byte `from` of the stream on pass check 7.
    fn costs_good(&self, from: usize, costs: usize, kind: Costs) -> bool
        requires { (from + 2 * costs ≤ self.now.count) × (self.now.count < 268435456) }
        ensures { result ≡ costs_good (test_of kind) (seen self.now) from costs }
    {
        if self.blocked {
            return self.file_costs_good(from, costs, kind);
        }
        costs_good(self.bytes, from, costs, kind)
    }

    // The same of a file, a run at a time of costs that stand in one block.
    fn file_costs_good(&self, from: usize, costs: usize, kind: Costs) -> bool
        requires { (self.now.blocked ≡ true) × (from + 2 * costs ≤ self.now.count) × (self.now.count < 268435456) }
        ensures { result ≡ costs_good (test_of kind) (seen self.now) from costs }
    {
        let mut at = from;
        let mut left = costs;
        // a step is as long as its run, so no range counts them
        while 0 < left {
            let run = run_at(at, left);
            if !self.run_good(at, run, kind) {
                return false;
            }
            at += 2 * run;
            left -= run;
        }
        true
    }

    // Whether such a run of costs passes check 7.
    fn run_good(&self, at: usize, run: usize, kind: Costs) -> bool
        requires { (self.now.blocked ≡ true) × (at + 2 * run ≤ self.now.count) × (self.now.count < 268435456) × (1 ≤ run) × RunAt at run }
        ensures { result ≡ costs_good (test_of kind) (seen self.now) at run }
    {
        if at % PAYLOAD_SIZE + 1 == PAYLOAD_SIZE {
            let cost = [
                base::byte_at(self.bytes, place_in_file(at)),
                base::byte_at(self.bytes, place_in_file(at + 1)),
            ];
            return costs_good(&cost, 0, 1, kind);
        }
        costs_good(self.bytes, place_in_file(at), run, kind)
    }

    // Byte k of the stream.
    pub(crate) fn byte(&self, k: usize) -> usize
        requires { (k < self.now.count) × (k < 268435456) }
        ensures { (result ≡ get_or (seen self.now) k 0) × (result < 256) }
    {
        if self.blocked {
            return usize::from(base::byte_at(self.bytes, place_in_file(k)));
        }
        usize::from(base::byte_at(self.bytes, k))
    }
}

// How many of the costs left from byte `at` of the stream on stand whole in its block; 1 for a cost that stands in two blocks.
fn run_at(at: usize, left: usize) -> usize
    requires { 0 < left }
    ensures { (1 ≤ result) × (result ≤ left) × RunAt at result }
{
    let inside = at % PAYLOAD_SIZE;
    if inside + 1 == PAYLOAD_SIZE {
        return 1;
    }
    left.min((PAYLOAD_SIZE - inside) / 2)
}

// Where byte k of the stream stands in a file.
pub(crate) fn place_in_file(k: usize) -> usize
    requires { k < 268435456 }
    ensures { result ≡ place_in_file k }
{
    BLOCK_SIZE * (k / PAYLOAD_SIZE) + 4 + k % PAYLOAD_SIZE
}
