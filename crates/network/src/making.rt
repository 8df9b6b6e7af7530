// Making a network of a stream: unit 1 assigns, the others wait.

ghost use Rattle.std.specs.Prelude.{◌≡◌};
ghost use Rattle.base.specs.Refusal.{number_of};
ghost use Rattle.costs.specs.Order.{default_order};
ghost use Rattle.runs.specs.Calls.{no_network, make_of};
ghost use Rattle.runs.specs.Code.{begun_answer};

use base::Refusal;
use costs::ValueOrder;
use runs::{Answer, Network};
use unit::Outcome;

// A network of a stream's table, its messages at the front of the pool. Refusals 5, 6, 7, 13 in order.
pub fn make(stream: &[u8], pool: &mut [u8]) -> Answer
    ensures { (result ≡ (make_of default_order stream.now pool.old).answer) × (pool.new ≡ (make_of default_order stream.now pool.old).pool) }
{
    make_by(ValueOrder::CheapestFirst, stream, pool)
}

// The same, values tried in this order.
pub fn make_by(order: ValueOrder, stream: &[u8], pool: &mut [u8]) -> Answer
    ensures { (result ≡ (make_of order stream.now pool.old).answer) × (pool.new ≡ (make_of order stream.now pool.old).pool) }
{
    if let Err(refusal) = shed_core::check_making(stream, pool.len(), base::POOL_SIZE) {
        return not_made(refusal);
    }
    begun(shed_core::first_step(order, stream, pool))
}

// The network after unit 1's making: what it sent waits in the pool.
fn begun(r: Outcome) -> Answer
    ensures { result ≡ begun_answer r }
{
    Answer {
        refusal: 0,
        network: Network {
            core: shed_core::begun(r),
            used: u64::from(r.sent),
        },
    }
}

// A refusal of making: all zero beside it. Written at once, as a network handed on takes 2,280 bytes of stack more.
fn not_made(refusal: Refusal) -> Answer
    ensures { result ≡ record { refusal = number_of refusal; network = no_network } }
{
    Answer {
        refusal: refusal.number(),
        network: Network {
            core: shed_core::no_core(),
            used: 0,
        },
    }
}
