// The costs held of a table, from its stream.

ghost use Rattle.std.specs.Prelude.{◌≡◌, cond, ◌+◌, ◌≤◌, eqb, length};
ghost use Rattle.base.specs.Bytes.{u16_at};
ghost use Rattle.base.specs.Put.{put_at};
ghost use Rattle.base.specs.Refusal.{answered};
ghost use Rattle.table.specs.Stream.{opening, unaries_at, pairs_at};
ghost use Rattle.costs.specs.Cost.{as_number, pair_cost};
ghost use Rattle.projections.specs.Made.{numbers, own_number, pair_number, hold_of, hold_into};

use crate::BARRED;
use crate::places::{row_start, sum_sizes};
use base::Refusal;

// The costs of a table to the front of `out`: how many, or the refusal and nothing is written.
pub fn hold(stream: &[u8], out: &mut [u32]) -> Result<usize, Refusal>
    ensures { (answered result ≡ hold_of stream.now (length out.old)) × (out.new ≡ hold_into stream.now out.old) }
{
    table::check_stream(stream)?;
    let n = table::units_of(stream);
    let sizes = costs::sizes_of(stream);
    let own = sum_sizes(n, sizes, 0, usize::from(n));
    let pairs = row_start(n, sizes, usize::from(n));
    if out.len() < own + pairs {
        return Err(Refusal::NoRoom);
    }
    let before = table::opening(stream);
    let from = before + 1 + usize::from(n);
    put_own(stream, before, from, own, out);
    put_pairs(stream, from + 2 * (before * own), pairs, own, out);
    Ok(own + pairs)
}

// The own costs, which begin at byte `from`, to the front; zeros where no byte stands before n.
fn put_own(stream: &[u8], before: usize, from: usize, count: usize, out: &mut [u32])
    requires { (before ≡ opening stream.now) × (from ≡ unaries_at stream.now) × (from ≤ 257) × (count ≤ 65536) × (count ≤ length out.old) }
    ensures { out.new ≡ put_at out.old 0 (numbers (own_number stream.now) count) }
{
    for k in 0..count {
        out[k] = own_number(stream, before, from + 2 * k);
    }
}

// The pair costs, which begin at byte `from`, written at `at`.
fn put_pairs(stream: &[u8], from: usize, count: usize, at: usize, out: &mut [u32])
    requires { (from ≡ pairs_at stream.now) × (from ≤ 262144) × (count ≤ 33554432) × (at + count ≤ length out.old) }
    ensures { out.new ≡ put_at out.old at (numbers (pair_number stream.now) count) }
{
    for k in 0..count {
        out[at + k] = held_number(base::u16_at(stream, from + 2 * k));
    }
}

// The own cost at byte k; 0 in form one, where no byte stands before n.
fn own_number(stream: &[u8], before: usize, k: usize) -> u32
    ensures { result ≡ cond (eqb before 0) 0 (u16_at stream.now k) }
{
    if before == 0 {
        0
    } else {
        base::u16_at(stream, k)
    }
}

// A pair cost of 16 bits in 32.
fn held_number(number: u32) -> u32
    ensures { result ≡ as_number (pair_cost number) }
{
    if number == base::FORBIDDEN_PAIR {
        BARRED
    } else {
        number
    }
}
