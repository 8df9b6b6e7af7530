// Costs from readings: the stream of a table, made of the mean fibre diameters of its lines. Document 02, job 1.
#![tactic(auto)]

mod gap;

ghost use Rattle.std.specs.Prelude.{◌≡◌, ◌+◌, ◌≤◌, ◌<◌, length, take, ◌∷◌};
ghost use Rattle.base.specs.Bytes.{le16};
ghost use Rattle.base.specs.Every.{every};
ghost use Rattle.base.specs.Limits.{places};
ghost use Rattle.base.specs.Put.{put_at};
ghost use Rattle.base.specs.Refusal.{told, answered};
ghost use Rattle.base.specs.Join.{join_to};
ghost use Rattle.costs.specs.Streamed.{later_costs};
ghost use Rattle.readings.specs.Readings.{reading_good, reading_at, in_lots, lines_of, readings_refusal, table_of, table_into};
ghost use Rattle.readings.specs.Pieces.{row_of, pair_of, lines_pair};

use crate::gap::pair_cost;
use base::{Refusal, STREAM_SIZE};

// The least and the most of a reading, in tenths of a micron.
pub const READING_LEAST: u32 = 100;

pub const READING_MOST: u32 = 400;

// The stream of the table of n lines of wool into the lent buffer, from a reading for each, two bytes; a refusal leaves the buffer as it was.
pub fn write_stream(
    n: u8,
    sizes: [u8; 16],
    readings: &[u8],
    stream: &mut [u8],
) -> Result<usize, Refusal>
    ensures { (answered result ≡ table_of n sizes readings.now (length stream.old)) × (stream.new ≡ table_into n sizes readings.now stream.old) }
{
    check(n, sizes, readings, stream.len())?;
    put_shape(n, sizes, stream);
    let length = put_costs(n, sizes, readings, stream);
    Ok(length)
}

// The first of 5, 6, 17, 13 that applies.
fn check(n: u8, sizes: [u8; 16], readings: &[u8], room: usize) -> Result<(), Refusal>
    ensures { told result ≡ readings_refusal n sizes readings.now room }
{
    if !base::shape_good(n, sizes) {
        return Err(Refusal::OutOfRange);
    }
    let count = usize::from(n);
    if readings.len() != 2 * count {
        return Err(Refusal::BadLength);
    }
    if !readings_good(readings, count) {
        return Err(Refusal::BadReading);
    }
    if room < STREAM_SIZE {
        return Err(Refusal::NoRoom);
    }
    Ok(())
}

// Whether the first `count` readings are in range.
fn readings_good(readings: &[u8], count: usize) -> bool
    requires { count < 256 }
    ensures { result ≡ every (λ k. reading_good (reading_at readings.now k)) count }
{
    for k in 0..count {
        if !reading_good(base::u16_at(readings, 2 * k)) {
            return false;
        }
    }
    true
}

fn reading_good(reading: u32) -> bool
    ensures { result ≡ reading_good reading }
{
    READING_LEAST <= reading && reading <= READING_MOST
}

// ---- the stream, piece by piece

// n and the sizes, at the front.
fn put_shape(n: u8, sizes: [u8; 16], stream: &mut [u8])
    requires { (n ≤ places) × (1 + n ≤ length stream.old) }
    ensures { stream.new ≡ put_at stream.old 0 (n ∷ take n sizes) }
{
    stream[0] = n;
    let count = usize::from(n);
    base::put(stream, 1, &sizes[..count]);
}

// The costs of all pairs, behind n and the sizes; gives the place after them.
fn put_costs(n: u8, sizes: [u8; 16], readings: &[u8], stream: &mut [u8]) -> usize
    requires { (n ≤ places) × (1 + n + length (join_to (later_costs (lines_of n sizes readings.now)) n) ≤ length stream.old) }
    ensures { (result ≡ 1 + n + length (join_to (later_costs (lines_of n sizes readings.now)) n)) × (stream.new ≡ put_at stream.old (1 + n) (join_to (later_costs (lines_of n sizes readings.now)) n)) }
{
    let count = usize::from(n);
    let mut at = 1 + count;
    for i in 0..count {
        at = put_later(n, sizes, readings, i, stream, at);
    }
    at
}

// The costs of line i with every later one, written at `at`; gives the place after them.
fn put_later(
    n: u8,
    sizes: [u8; 16],
    readings: &[u8],
    i: usize,
    stream: &mut [u8],
    at: usize,
) -> usize
    requires { (n ≤ places) × (i < n) × (at + length (later_costs (lines_of n sizes readings.now) i) ≤ length stream.old) }
    ensures { (result ≡ at + length (later_costs (lines_of n sizes readings.now) i)) × (stream.new ≡ put_at stream.old at (later_costs (lines_of n sizes readings.now) i)) }
{
    let count = usize::from(n);
    let mut end = at;
    for j in i + 1..count {
        end = put_lines(sizes, readings, i, j, stream, end);
    }
    end
}

// The costs of lines i and j, written at `at`; gives the place after them.
fn put_lines(
    sizes: [u8; 16],
    readings: &[u8],
    i: usize,
    j: usize,
    stream: &mut [u8],
    at: usize,
) -> usize
    requires { (i < places) × (j < places) × (at + length (lines_pair sizes readings.now i j) ≤ length stream.old) }
    ensures { (result ≡ at + length (lines_pair sizes readings.now i j)) × (stream.new ≡ put_at stream.old at (lines_pair sizes readings.now i j)) }
{
    let earlier = base::u16_at(readings, 2 * i);
    let later = base::u16_at(readings, 2 * j);
    put_pair(
        pair_cost(earlier, later),
        usize::from(sizes[i]),
        usize::from(sizes[j]),
        stream,
        at,
    )
}

// The costs of two lines that cost so much in the same lot, of d lots and of e; gives the place after them.
fn put_pair(cost: u32, d: usize, e: usize, stream: &mut [u8], at: usize) -> usize
    requires { (cost < 65536) × (d < 256) × (e < 256) × (at + length (pair_of cost d e) ≤ length stream.old) }
    ensures { (result ≡ at + length (pair_of cost d e)) × (stream.new ≡ put_at stream.old at (pair_of cost d e)) }
{
    for u in 0..d {
        put_row(cost, u, e, stream, at + 2 * e * u);
    }
    at + 2 * e * d
}

// The costs of the earlier line's lot u with each lot of the later one.
fn put_row(cost: u32, u: usize, e: usize, stream: &mut [u8], at: usize)
    requires { (cost < 65536) × (e < 256) × (at + length (row_of cost e u) ≤ length stream.old) }
    ensures { stream.new ≡ put_at stream.old at (row_of cost e u) }
{
    for v in 0..e {
        put_cost(in_lots(cost, u, v), stream, at + 2 * v);
    }
}

// Two lines in different lots cost nothing.
fn in_lots(cost: u32, u: usize, v: usize) -> u32
    ensures { result ≡ in_lots cost u v }
{
    if u == v { cost } else { 0 }
}

fn put_cost(cost: u32, stream: &mut [u8], at: usize)
    requires { at + 2 ≤ length stream.old }
    ensures { stream.new ≡ put_at stream.old at (le16 cost) }
{
    stream[at] = (cost % 256) as u8;
    stream[at + 1] = (cost / 256 % 256) as u8;
}
