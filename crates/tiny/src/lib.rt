// Every tiny table: those of two or three units with two values each and pair costs 0 or 1, by number. Document 02, job 13.
#![tactic(auto)]

ghost use Rattle.std.specs.Prelude.{◌≡◌, true, ◌+◌, ◌*◌, ◌^◌, ◌≤◌, length};
ghost use Rattle.base.specs.Bytes.{le16};
ghost use Rattle.base.specs.Put.{put_at};
ghost use Rattle.base.specs.Refusal.{told, answered};
ghost use Rattle.tiny.specs.Tiny.{is_tiny, costs_for, tables_of, cost_bytes, tiny_refusal, tiny_of, tiny_into};

use base::{Refusal, STREAM_SIZE};

// How many there are of n units: 16 of two, 4,096 of three, none of any other count.
#[tactic(auto, using(crate::specs::Once::sixteen, crate::specs::Once::four_thousand_ninety_six, crate::specs::Once::none_of_another))]
pub fn tables_of(n: u8) -> u32
    ensures { result ≡ tables_of n }
{
    match n {
        2 => 16,
        3 => 4096,
        _ => 0,
    }
}

// The stream of the table of n units with this number, in form one, into the lent buffer; a refusal leaves the buffer as it was.
pub fn write_stream(n: u8, number: u32, stream: &mut [u8]) -> Result<usize, Refusal>
    ensures { (answered result ≡ tiny_of n number (length stream.old)) × (stream.new ≡ tiny_into n number stream.old) }
{
    check_number(n, number, stream.len())?;
    let shape = [n, 2, 2, 2];
    let start = 1 + usize::from(n);
    base::put(stream, 0, &shape[..start]);
    let tables = tables_of(n);
    let costs = costs_of(n);
    put_costs(number, tables, costs, stream, start);
    Ok(start + 2 * costs)
}

// Whether there is a table of that number, and room for its stream.
#[tactic(auto, unfolding(crate::specs::Tiny::tiny_refusal))]
fn check_number(n: u8, number: u32, room: usize) -> Result<(), Refusal>
    ensures { told result ≡ tiny_refusal n number room }
{
    if number >= tables_of(n) {
        return Err(Refusal::NoSuchTable);
    }
    if room < STREAM_SIZE {
        return Err(Refusal::NoRoom);
    }
    Ok(())
}

// ---- the stream, piece by piece

// How many pair costs a table of n units has.
#[tactic(auto, using(crate::specs::Steps::four_costs, crate::specs::Steps::twelve_costs))]
fn costs_of(n: u8) -> usize
    requires { is_tiny n ≡ true }
    ensures { result ≡ costs_for n }
{
    if n == 2 { 4 } else { 12 }
}

// The digits of the number as costs, the top one first. `tables` numbers have that many digits.
fn put_costs(number: u32, tables: u32, costs: usize, stream: &mut [u8], at: usize)
    requires { (tables ≡ 2 ^ costs) × (at + 2 * costs ≤ length stream.old) }
    ensures { stream.new ≡ put_at stream.old at (cost_bytes costs number) }
{
    let mut weight = tables;
    for k in 0..costs {
        weight /= 2;
        put_cost(number / weight % 2, stream, at + 2 * k);
    }
}

// A cost of 0 or 1.
fn put_cost(cost: u32, stream: &mut [u8], at: usize)
    requires { (cost ≤ 1) × (at + 2 ≤ length stream.old) }
    ensures { stream.new ≡ put_at stream.old at (le16 cost) }
{
    base::put(stream, at, &[cost as u8, 0]);
}
