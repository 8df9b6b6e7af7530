// A delivery: the checks, the step of the unit that the message is for, and what it leaves in the network and the pool.

ghost use Rattle.std.specs.Prelude.{◌≡◌, ℕ, ◌+◌, ◌-◌, ◌*◌, ◌<◌, ◌≤◌, List, length};
ghost use Rattle.std.proofs.Math.Seq.{paste};
ghost use Rattle.base.specs.Limits.{message_size, pool_cells};
ghost use Rattle.base.specs.Refusal.{number_of, told};
ghost use Rattle.costs.specs.Order.{default_order};
ghost use Rattle.runs.specs.Calls.{network_refusal, deliver_refusal, network_after, deliver_by, deliver_of};
ghost use Rattle.runs.specs.Pool.Laws.{close_gap};
ghost use Rattle.runs.specs.Code.{Open, Storing, stored_answer, stored_pool};

use crate::pool::{close, copy_in};
use base::{MESSAGE_SIZE, Refusal};
use costs::ValueOrder;
use runs::{Answer, Network};
use unit::Outcome;

// The message at a cell is delivered: the network and pool after it, or a refusal with both as lent. Refusals 13, 5, 6, 7, 5, 12, 15, then
// the step's from 8 on, then 14.
pub fn deliver(net: Network, stream: &[u8], pool: &mut [u8], cell: u64) -> Answer
    ensures { (result ≡ (deliver_of default_order net stream.now pool.old cell).answer) × (pool.new ≡ (deliver_of default_order net stream.now pool.old cell).pool) }
{
    deliver_by(ValueOrder::CheapestFirst, net, stream, pool, cell)
}

// The same, values tried in this order.
pub fn deliver_by(
    order: ValueOrder,
    net: Network,
    stream: &[u8],
    pool: &mut [u8],
    cell: u64,
) -> Answer
    ensures { (result ≡ (deliver_of order net stream.now pool.old cell).answer) × (pool.new ≡ (deliver_of order net stream.now pool.old cell).pool) }
{
    match check_delivery(order, net, stream, pool.len(), cell) {
        Ok(()) => hand_over(order, net, stream, pool, cell as usize),
        Err(refusal) => refused(refusal, net),
    }
}

// What a refused call gives beside the network as it was lent.
pub(crate) fn refused(refusal: Refusal, network: Network) -> Answer
    ensures { result ≡ record { refusal = number_of refusal; network = network } }
{
    Answer {
        refusal: refusal.number(),
        network,
    }
}

// Whether a message can be delivered from the cell, before it is read.
fn check_delivery(
    order: ValueOrder,
    net: Network,
    stream: &[u8],
    room: usize,
    cell: u64,
) -> Result<(), Refusal>
    ensures { (pool : List ℕ) → length pool ≡ room → told result ≡ deliver_refusal order net stream.now pool cell }
{
    check_network(order, net, stream, room)?;
    if net.used <= cell {
        return Err(Refusal::NoMessage);
    }
    Ok(())
}

// What is asked whatever message is to be handed over: 13, 5, 6, 7, 5, 12 in order.
pub(crate) fn check_network(
    order: ValueOrder,
    net: Network,
    stream: &[u8],
    room: usize,
) -> Result<(), Refusal>
    ensures { (pool : List ℕ) → length pool ≡ room → told result ≡ network_refusal order net stream.now pool }
{
    if room < base::POOL_SIZE {
        return Err(Refusal::NoRoom);
    }
    shed_core::check(order, net.core, stream)?;
    if base::POOL_CELLS < net.used {
        return Err(Refusal::OutOfRange);
    }
    if net.core.units[0].stopped {
        return Err(Refusal::Stopped);
    }
    Ok(())
}

// The message at the cell goes to its receiver, and what that unit sends is added at the end.
fn hand_over(order: ValueOrder, net: Network, stream: &[u8], pool: &mut [u8], cell: usize) -> Answer
    requires { Open order net stream.now pool.old cell }
    ensures { (result ≡ (deliver_by order 0 net stream.now pool.old cell).answer) × (pool.new ≡ (deliver_by order 0 net stream.now pool.old cell).pool) }
{
    let at = MESSAGE_SIZE * cell;
    let end = at + MESSAGE_SIZE;
    let own = shed_core::receiver(table::units_of(stream), &pool[at..end]);
    let u = net.core.units[usize::from(own - 1)];
    let mut out = [0u8; base::SENDING_SIZE];
    let r = shed_core::step(order, u, stream, own, &pool[at..end], &mut out);
    // the number goes on as it is: `Outcome` and `Answer` are what C is handed
    if r.refusal != 0 {
        return Answer {
            refusal: r.refusal,
            network: net,
        };
    }
    store(net, pool, cell, own, r, &out)
}

// The gap is closed, what was sent is added at the end, and the unit and the counts are put in place; or 14, and all stays.
fn store(net: Network, pool: &mut [u8], cell: usize, own: u8, r: Outcome, out: &[u8]) -> Answer
    requires { (cell < net.used) × (net.used ≤ pool_cells) × Storing (net.used - 1) r pool.old out.now }
    ensures { (result ≡ stored_answer net (net.used - 1) own r) × (pool.new ≡ stored_pool (close_gap pool.old (message_size * cell) (message_size * net.used)) (net.used - 1) r out.now pool.old) }
{
    let left = net.used - 1;
    if base::POOL_CELLS < left + u64::from(r.sent) {
        return refused(Refusal::PoolFull, net);
    }
    close(pool, MESSAGE_SIZE * cell, MESSAGE_SIZE * net.used as usize);
    add(net, pool, left, own, r, out)
}

// What the unit sent is added behind the `left` cells that stay in use, and the unit and the counts are put in place.
pub(crate) fn add(
    net: Network,
    pool: &mut [u8],
    left: u64,
    own: u8,
    r: Outcome,
    out: &[u8],
) -> Answer
    requires { Storing left r pool.old out.now × (left + r.sent ≤ pool_cells) }
    ensures { (result ≡ record { refusal = 0; network = network_after net own r.unit (left + r.sent) r.records }) × (pool.new ≡ paste pool.old (message_size * left) out.now (message_size * r.sent)) }
{
    let sent = usize::from(r.sent);
    copy_in(pool, MESSAGE_SIZE * left as usize, out, MESSAGE_SIZE * sent);
    Answer {
        refusal: 0,
        network: Network {
            core: shed_core::advance(net.core, own, r),
            used: left + u64::from(r.sent),
        },
    }
}
