// Running a network to its end: the table is checked once, when the network is made.

ghost use Rattle.std.specs.Prelude.{◌≡◌};
ghost use Rattle.costs.specs.Order.{default_order};
ghost use Rattle.runs.specs.Settle.{settle_of};
ghost use Rattle.runs.specs.Settle.Laws.{Begun, Ended};

use crate::lending::{LENT_SIZE, lend};
use crate::make_by;
use crate::short::{changed, decided, first_seat, hear, seat_of, send_on};
use costs::ValueOrder;
use runs::{Answer, Network};
use unit::Way;

// Makes a network of a stream and delivers cell 0 until unit 1 stops; none of these deliveries is refused. Refusals: making's.
pub fn settle(stream: &[u8], pool: &mut [u8]) -> Answer
    ensures { (result ≡ (settle_of default_order stream.now pool.old).answer) × (pool.new ≡ (settle_of default_order stream.now pool.old).pool) }
{
    settle_by(ValueOrder::CheapestFirst, stream, pool)
}

// The same, values tried in this order.
pub fn settle_by(order: ValueOrder, stream: &[u8], pool: &mut [u8]) -> Answer
    ensures { (result ≡ (settle_of order stream.now pool.old).answer) × (pool.new ≡ (settle_of order stream.now pool.old).pool) }
{
    let made = make_by(order, stream, pool);
    if made.refusal != 0 {
        return made;
    }
    let network = run(order, stream, made.network, pool);
    Answer {
        refusal: 0,
        network,
    }
}

// Delivers cell 0 of a new network until unit 1 stops. No delivery is asked what the making has seen: the costs of each unit are gathered
// once, and so is h of its values; the packets are those that the units sent. Most go a short way, on which the unit stays where it is: each
// such way has an arm of its own, so that a compiler writes only what it changes.
fn run(order: ValueOrder, stream: &[u8], net: Network, pool: &mut [u8]) -> Network
    requires { Begun order stream.now net pool.old }
    ensures { Ended order stream.now net pool.old result pool.new }
{
    let mut lent = [0u8; LENT_SIZE];
    let loans = lend(order, stream, &mut lent);
    let first = first_seat(order, stream);
    let mut core = net.core;
    let mut used = net.used;
    // what ends it is a state: no range counts it
    while !core.units[0].stopped {
        let seat = seat_of(first, &pool[..base::MESSAGE_SIZE]);
        let place = usize::from(seat.own - 1);
        let lo = loans.starts[place];
        let hi = loans.starts[place + 1];
        let h = loans.looks[place].ahead;
        let turn = hear(seat, &lent[lo..hi], &h, core.units[place], pool, used);
        let mut sent = turn.sent;
        match turn.way {
            Way::Quiet | Way::Reply => {}
            Way::Follow => core.units[place] = changed(turn, core.units[place]),
            Way::Store => core.units[place] = changed(turn, core.units[place]),
            Way::Lower => core.units[place] = changed(turn, core.units[place]),
            Way::Whole => {
                let d = decided(seat, &lent[lo..hi], &h, turn, core.units[place]);
                core.units[place] = d.unit;
                core.records = shed_core::plus(core.records, u64::from(d.records));
                sent = send_on(seat, d, pool, used as usize);
            }
        }
        used = used - 1 + u64::from(sent);
        core.deliveries = shed_core::plus(core.deliveries, 1);
    }
    Network { core, used }
}
