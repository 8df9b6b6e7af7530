// A recorded run replayed on a lent network.

ghost use Rattle.std.specs.Prelude.{◌≡◌};
ghost use Rattle.costs.specs.Order.{default_order};
ghost use Rattle.slots.specs.Calls.{lent_refusal};
ghost use Rattle.slots.specs.Replay.{cells_in, deliver_until, replay_of};

use crate::Answer;
use crate::delivery::{check_lent, deliver_checked};
use base::Refusal;
use costs::ValueOrder;
use runs::Core;

// The cells of a list, two bytes each, low byte first, are delivered one after another up to the first that is refused: units, counts and pool
// after those before it, and its refusal or 0. A list of odd length is refused by 22, and an empty one never.
pub fn replay(core: Core, stream: &[u8], pool: &mut [u8], list: &[u8]) -> Answer
    ensures { (result ≡ (replay_of default_order core stream.now pool.old list.now).answer) × (pool.new ≡ (replay_of default_order core stream.now pool.old list.now).pool) }
{
    replay_by(ValueOrder::CheapestFirst, core, stream, pool, list)
}

// The same, values tried in this order.
pub fn replay_by(
    order: ValueOrder,
    core: Core,
    stream: &[u8],
    pool: &mut [u8],
    list: &[u8],
) -> Answer
    ensures { (result ≡ (replay_of order core stream.now pool.old list.now).answer) × (pool.new ≡ (replay_of order core stream.now pool.old list.now).pool) }
{
    if list.len() % 2 != 0 {
        return Answer::refused(Refusal::OddList, core);
    }
    if list.is_empty() {
        return Answer { refusal: 0, core };
    }
    if let Err(refusal) = check_lent(order, core, stream, pool) {
        return Answer::refused(refusal, core);
    }
    deliver_all(order, core, stream, pool, list)
}

// The deliveries, to a network that was checked.
fn deliver_all(
    order: ValueOrder,
    begun: Core,
    stream: &[u8],
    pool: &mut [u8],
    list: &[u8],
) -> Answer
    requires { lent_refusal order begun stream.now pool.old ≡ 0 }
    ensures { (result ≡ (deliver_until order stream.now (record { core = begun; pool = pool.old }) (cells_in list.now)).answer) × (pool.new ≡ (deliver_until order stream.now (record { core = begun; pool = pool.old }) (cells_in list.now)).pool) }
{
    let pairs = list.len() / 2;
    let mut core = begun;
    for k in 0..pairs {
        let cell = base::u16_at(list, 2 * k);
        let d = deliver_checked(order, core, stream, pool, u64::from(cell));
        if d.refusal != 0 {
            return d;
        }
        core = d.core;
    }
    Answer { refusal: 0, core }
}
