// An echo, 02, job 2: a packet that was sent is heard again. It goes to its unit as in a delivery, but nothing leaves the pool.

ghost use Rattle.std.specs.Prelude.{◌≡◌};
ghost use Rattle.costs.specs.Order.{default_order};
ghost use Rattle.runs.specs.Calls.{echo_by, echo_of};
ghost use Rattle.runs.specs.Code.{Passing};

use crate::delivery::{add, check_network, refused};
use base::Refusal;
use costs::ValueOrder;
use runs::{Answer, Network};

// The lent packet is heard again: the network and pool after it, or a refusal with both as lent. Refusals 13, 5, 6, 7, 5, 12, then the
// step's from 8 on, then 14. The call can't tell an echo from a forgery.
pub fn echo(net: Network, stream: &[u8], pool: &mut [u8], packet: &[u8]) -> Answer
    ensures { (result ≡ (echo_of default_order net stream.now pool.old packet.now).answer) × (pool.new ≡ (echo_of default_order net stream.now pool.old packet.now).pool) }
{
    echo_by(ValueOrder::CheapestFirst, net, stream, pool, packet)
}

// The same, values tried in this order.
pub fn echo_by(
    order: ValueOrder,
    net: Network,
    stream: &[u8],
    pool: &mut [u8],
    packet: &[u8],
) -> Answer
    ensures { (result ≡ (echo_of order net stream.now pool.old packet.now).answer) × (pool.new ≡ (echo_of order net stream.now pool.old packet.now).pool) }
{
    match check_network(order, net, stream, pool.len()) {
        Ok(()) => hear(order, net, stream, pool, packet),
        Err(refusal) => refused(refusal, net),
    }
}

// The packet goes to its receiver, and what that unit sends is added at the end; or 14, and all stays.
fn hear(order: ValueOrder, net: Network, stream: &[u8], pool: &mut [u8], packet: &[u8]) -> Answer
    requires { Passing order net stream.now pool.old }
    ensures { (result ≡ (echo_by order 0 net stream.now pool.old packet.now).answer) × (pool.new ≡ (echo_by order 0 net stream.now pool.old packet.now).pool) }
{
    let own = shed_core::receiver(table::units_of(stream), packet);
    let u = net.core.units[usize::from(own - 1)];
    let mut out = [0u8; base::SENDING_SIZE];
    let r = shed_core::step(order, u, stream, own, packet, &mut out);
    // the number goes on as it is: `Outcome` and `Answer` are what C is handed
    if r.refusal != 0 {
        return Answer {
            refusal: r.refusal,
            network: net,
        };
    }
    if base::POOL_CELLS < net.used + u64::from(r.sent) {
        return refused(Refusal::PoolFull, net);
    }
    add(net, pool, net.used, own, r, &out)
}
