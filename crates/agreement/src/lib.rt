// Whether shed and bench total the same, and of how many tiny tables. Document 02, job 13.
#![tactic(auto)]

ghost use Rattle.std.specs.Prelude.{◌≡◌, ◌<◌};
ghost use Rattle.tiny.specs.Tiny.{tables_of, tiny_stream};
ghost use Rattle.agreement.specs.Agreement.{unless_refused, shed_total, messages_total, slots_total, first_total, found_total, same_total, agree_of, agreeing_of};

use costs::ValueOrder;
use runs::Core;
use search::Found;

// What the shed is run over: 01's pool, or 02's of one cell each.
#[derive(Clone, Copy, Debug, PartialEq, Eq)]
pub enum Pool {
    Messages,
    Slots,
}

// Of how many tables of n units the shed, run so, the exhaustive search and branch and bound give the same total.
#[tactic(auto, unfolding(crate::specs::Agreement::agreeing_of))]
pub fn agreeing(pool: Pool, order: ValueOrder, n: u8) -> u32
    ensures { result ≡ agreeing_of pool order n }
{
    let mut count = 0;
    for number in 0..tiny::tables_of(n) {
        if table_agrees(pool, order, n, number) {
            count += 1;
        }
    }
    count
}

// Whether they do of the table with this number.
fn table_agrees(pool: Pool, order: ValueOrder, n: u8, number: u32) -> bool
    requires { number < tables_of n }
    ensures { result ≡ agree_of pool order (tiny_stream n number) }
{
    let mut stream = [0; base::STREAM_SIZE];
    match tiny::write_stream(n, number, &mut stream) {
        Ok(length) => agree(pool, order, &stream[..length]),
        Err(_) => false,
    }
}

// Whether the three give the same total of a table, and refuse none.
#[tactic(auto, unfolding(crate::specs::Agreement::agree_of))]
fn agree(pool: Pool, order: ValueOrder, stream: &[u8]) -> bool
    ensures { result ≡ agree_of pool order stream.now }
{
    let full = found_total(search::exhaustive(stream));
    same(shed_total(pool, order, stream), full)
        && same(full, found_total(search::branch_and_bound(stream)))
}

// Whether neither is refused and the totals are the same.
fn same(a: Option<u32>, b: Option<u32>) -> bool
    ensures { result ≡ same_total a b }
{
    a.is_some() && a == b
}

// ---- what each of them totals of a table: none where it refuses

// What unit 1 reports at the end of the run.
fn shed_total(pool: Pool, order: ValueOrder, stream: &[u8]) -> Option<u32>
    ensures { result ≡ shed_total pool order stream.now }
{
    match pool {
        Pool::Messages => messages_total(order, stream),
        Pool::Slots => slots_total(order, stream),
    }
}

#[tactic(auto, unfolding(crate::specs::Agreement::messages_total))]
fn messages_total(order: ValueOrder, stream: &[u8]) -> Option<u32>
    ensures { result ≡ messages_total order stream.now }
{
    let mut pool = [0; base::POOL_SIZE];
    let answer = network::settle_by(order, stream, &mut pool);
    first_total(answer.refusal, answer.network.core)
}

#[tactic(auto, unfolding(crate::specs::Agreement::slots_total))]
fn slots_total(order: ValueOrder, stream: &[u8]) -> Option<u32>
    ensures { result ≡ slots_total order stream.now }
{
    let mut pool = [0; slots::SLOT_POOL_SIZE];
    let answer = slots::settle_by(order, stream, &mut pool);
    first_total(answer.refusal, answer.core)
}

fn first_total(refusal: u8, core: Core) -> Option<u32>
    ensures { result ≡ first_total refusal core }
{
    unless_refused(refusal, core.units[0].bound)
}

fn found_total(found: Found) -> Option<u32>
    ensures { result ≡ found_total found }
{
    unless_refused(found.refusal, found.total)
}

fn unless_refused(refusal: u8, total: u32) -> Option<u32>
    ensures { result ≡ unless_refused refusal total }
{
    (refusal == 0).then_some(total)
}
