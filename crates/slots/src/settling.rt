// A network over this pool run to its end.

ghost use Rattle.std.specs.Prelude.{◌≡◌};
ghost use Rattle.costs.specs.Order.{default_order};
ghost use Rattle.slots.specs.Settle.{settle_of};
ghost use Rattle.slots.specs.Settle.Laws.{Begun, Ended};

use crate::cells::lowest;
use crate::delivery::deliver_checked;
use crate::{Answer, make_by};
use costs::ValueOrder;
use runs::Core;

// Makes a network of a stream and delivers the lowest cell in use until unit 1 stops; none of these deliveries is refused. Refusals: making's.
pub fn settle(stream: &[u8], pool: &mut [u8]) -> Answer
    ensures { (result ≡ (settle_of default_order stream.now pool.old).answer) × (pool.new ≡ (settle_of default_order stream.now pool.old).pool) }
{
    settle_by(ValueOrder::CheapestFirst, stream, pool)
}

// The same, values tried in this order.
pub fn settle_by(order: ValueOrder, stream: &[u8], pool: &mut [u8]) -> Answer
    ensures { (result ≡ (settle_of order stream.now pool.old).answer) × (pool.new ≡ (settle_of order stream.now pool.old).pool) }
{
    let made = make_by(order, stream, pool);
    if made.refusal != 0 {
        return made;
    }
    let core = run(order, stream, made.core, pool);
    Answer { refusal: 0, core }
}

// Delivers the lowest cell in use of a new network until unit 1 stops. It ends, as no run accepts more than (3n - 1) × N deliveries.
fn run(order: ValueOrder, stream: &[u8], begun: Core, pool: &mut [u8]) -> Core
    requires { Begun order stream.now begun pool.old }
    ensures { Ended order stream.now begun pool.old result pool.new }
{
    let n = table::units_of(stream);
    let mut core = begun;
    // what ends it is a state: no range counts it
    while !core.units[0].stopped {
        let cell = lowest(n, pool);
        core = deliver_checked(order, core, stream, pool, cell).core;
    }
    core
}
