// What is read out of a stream: its sizes, and the costs that touch one unit.

ghost use Rattle.std.specs.Prelude.{◌≡◌, pred, ◌+◌, ◌*◌, ◌<◌, ◌≤◌, ◌++◌, length, drop, nat_eq};
ghost use Rattle.std.proofs.Math.Seq.{paste};
ghost use Rattle.base.specs.Put.{put_at};
ghost use Rattle.base.specs.Refusal.{told, answered};
ghost use Rattle.table.specs.Stream.{units_of, pairs_at};
ghost use Rattle.costs.specs.Lent.Parts.{dom_from};
ghost use Rattle.costs.specs.Gather.Steps.{SeatIn, RowsOf};
ghost use Rattle.costs.specs.Gather.{sizes_in, gather_refusal, gather_of, gather_into};
ghost use Rattle.costs.specs.Gathered.{unary_bytes, pair_bytes, with_other, gathered};

use crate::opened::Opened;
use crate::{Seat, ValueOrder};
use base::{Refusal, is_value};

// The bytes of the costs that touch unit `own` are written to the front of `out`: how many, or the refusal and nothing is written.
pub fn gather(stream: &[u8], own: u8, out: &mut [u8]) -> Result<usize, Refusal>
    ensures { (answered result ≡ gather_of stream.now own (length out.old)) × (out.new ≡ gather_into stream.now own out.old) }
{
    let n = table::units_of(stream);
    let sizes = sizes_of(stream);
    let order = ValueOrder::Ascending; // no order changes costs
    let seat = Seat {
        own,
        n,
        sizes,
        order,
    };
    check_gather(stream, seat, out.len())?;
    Ok(gather_all(stream, seat, out))
}

// The first n sizes, zero after.
pub fn sizes_of(stream: &[u8]) -> [u8; 16]
    ensures { result ≡ sizes_in stream.now }
{
    let opened = Opened::new(stream);
    let mut sizes = [0u8; 16];
    for i in 0..16 {
        sizes[i] = opened.size_at(i);
    }
    sizes
}

// Whether the costs of the unit can be gathered into a buffer of `room` bytes, by 01's order of refusals.
fn check_gather(stream: &[u8], seat: Seat, room: usize) -> Result<(), Refusal>
    requires { (seat.n ≡ units_of stream.now) × (seat.sizes ≡ sizes_in stream.now) }
    ensures { told result ≡ gather_refusal stream.now seat.own room }
{
    let checked = table::check_stream(stream);
    if is_out_of_range(checked) {
        return checked;
    }
    if !is_value(usize::from(seat.n), usize::from(seat.own)) {
        return Err(Refusal::BadUnit);
    }
    checked?;
    if room < 2 * seat.lent_count() {
        return Err(Refusal::NoRoom);
    }
    Ok(())
}

// Whether it is refusal 5.
fn is_out_of_range(checked: Result<(), Refusal>) -> bool
    ensures { result ≡ nat_eq (told checked) 5 }
{
    checked == Err(Refusal::OutOfRange)
}

// The bytes of the unary costs of the unit, and of its costs with every other.
fn gather_all(stream: &[u8], seat: Seat, out: &mut [u8]) -> usize
    requires { SeatIn stream.now seat × (pred seat.own < seat.n) × (length (gathered stream.now seat.own) ≤ length out.old) }
    ensures { (result ≡ length (gathered stream.now seat.own)) × (out.new ≡ gathered stream.now seat.own ++ drop (length (gathered stream.now seat.own)) out.old) }
{
    let count = usize::from(seat.n);
    let opened = Opened::new(stream);
    let rows = row_starts(seat, opened.pairs_at(seat.sum_sizes(0, count)));
    let gathering = Gathering { opened, seat, rows };
    let mut at = gathering.put_unaries(out);
    for j in 0..count {
        at = gathering.put_other(j, out, at);
    }
    at
}

// A unit's seat in an accepted stream, and the bytes at which the costs of the pairs of each unit begin.
#[derive(Clone, Copy)]
struct Gathering<'a> {
    opened: Opened<'a>,
    seat: Seat,
    rows: [usize; 16],
    ghost seated: { SeatIn opened.stream.now seat },
    ghost unit: { pred seat.own < seat.n },
    ghost found: { RowsOf seat (pairs_at opened.stream.now) rows },
}

impl Gathering<'_> {
    // The bytes of the unary costs of the unit, written to the front; gives the place after them. In form one they are zeros.
    fn put_unaries(&self, out: &mut [u8]) -> usize
        requires { length (unary_bytes self.now.opened.stream.now (pred self.now.seat.own)) ≤ length out.old }
        ensures { (result ≡ length (unary_bytes self.now.opened.stream.now (pred self.now.seat.own))) × (out.new ≡ put_at out.old 0 (unary_bytes self.now.opened.stream.now (pred self.now.seat.own))) }
    {
        let place = self.seat.place();
        let count = 2 * self.seat.size_of(place);
        if self.opened.before == 0 {
            out[..count].fill(0);
        } else {
            let from = self.opened.unaries_at() + 2 * self.seat.sum_sizes(0, place);
            copy_part(self.opened.stream, from, count, out, 0);
        }
        count
    }

    // The bytes of the costs of the unit with the one at place j, written at `at`; gives the place after them.
    fn put_other(&self, j: usize, out: &mut [u8], at: usize) -> usize
        requires { (j < self.now.seat.n) × (at + length (with_other self.now.opened.stream.now (pred self.now.seat.own) j) ≤ length out.old) }
        ensures { (result ≡ at + length (with_other self.now.opened.stream.now (pred self.now.seat.own) j)) × (out.new ≡ put_at out.old at (with_other self.now.opened.stream.now (pred self.now.seat.own) j)) }
    {
        let place = self.seat.place();
        if j == place {
            at
        } else if j < place {
            self.put_pair(j, place, out, at)
        } else {
            self.put_pair(place, j, out, at)
        }
    }

    // The bytes of the costs of the pair of places i and j, written at `at`; gives the place after them.
    fn put_pair(&self, i: usize, j: usize, out: &mut [u8], at: usize) -> usize
        requires { (i < j) × (j < self.now.seat.n) × (at + length (pair_bytes self.now.opened.stream.now i j) ≤ length out.old) }
        ensures { (result ≡ at + length (pair_bytes self.now.opened.stream.now i j)) × (out.new ≡ put_at out.old at (pair_bytes self.now.opened.stream.now i j)) }
    {
        let d = self.seat.size_of(i);
        let from = self.rows[i] + 2 * (d * self.seat.sum_sizes(i + 1, j - (i + 1)));
        let count = 2 * (d * self.seat.size_of(j));
        copy_part(self.opened.stream, from, count, out, at);
        at + count
    }
}

// The bytes at which the costs of the pairs of each unit begin, those of the first at byte `from`.
fn row_starts(seat: Seat, from: usize) -> [usize; 16]
    requires { (seat.n ≤ 16) × (from ≤ 131072) }
    ensures { RowsOf seat from result }
{
    let count = usize::from(seat.n);
    let mut rows = [0usize; 16];
    let mut row = from;
    for a in 0..count {
        rows[a] = row;
        row += 2 * (seat.size_of(a) * seat.sum_sizes(a + 1, count - (a + 1)));
    }
    rows
}

// The bytes of `source` from `from` on, `count` of them, written at `at`.
fn copy_part(source: &[u8], from: usize, count: usize, out: &mut [u8], at: usize)
    requires { (from + count ≤ length source.now) × (at + count ≤ length out.old) }
    ensures { out.new ≡ paste out.old at (drop from source.now) count }
{
    out[at..at + count].copy_from_slice(&source[from..from + count]);
}
