// A network over this pool made of a stream: unit 1 assigns, the others wait.

ghost use Rattle.std.specs.Prelude.{◌≡◌, length};
ghost use Rattle.costs.specs.Order.{default_order};
ghost use Rattle.runs.specs.Calls.{making_refusal};
ghost use Rattle.slots.specs.Slot.{slot_pool_size};
ghost use Rattle.slots.specs.Calls.{make_of};

use crate::cells::{place_all, zero_cells};
use crate::{Answer, SLOT_POOL_SIZE};
use costs::ValueOrder;

// A network of a stream's table, its messages each in its own cell. Refusals 5, 6, 7, 13 in order.
pub fn make(stream: &[u8], pool: &mut [u8]) -> Answer
    ensures { (result ≡ (make_of default_order stream.now pool.old).answer) × (pool.new ≡ (make_of default_order stream.now pool.old).pool) }
{
    make_by(ValueOrder::CheapestFirst, stream, pool)
}

// The same, values tried in this order.
pub fn make_by(order: ValueOrder, stream: &[u8], pool: &mut [u8]) -> Answer
    ensures { (result ≡ (make_of order stream.now pool.old).answer) × (pool.new ≡ (make_of order stream.now pool.old).pool) }
{
    if let Err(refusal) = shed_core::check_making(stream, pool.len(), SLOT_POOL_SIZE) {
        return Answer {
            refusal: refusal.number(),
            core: shed_core::no_core(),
        };
    }
    place_first(order, stream, pool)
}

// Unit 1 is made, and what it sends is placed among empty cells.
fn place_first(order: ValueOrder, stream: &[u8], pool: &mut [u8]) -> Answer
    requires { making_refusal slot_pool_size stream.now (length pool.old) ≡ 0 }
    ensures { (result ≡ (make_of order stream.now pool.old).answer) × (pool.new ≡ (make_of order stream.now pool.old).pool) }
{
    let n = table::units_of(stream);
    let mut out = [0u8; base::SENDING_SIZE];
    let r = shed_core::first_step(order, stream, &mut out);
    zero_cells(pool, n);
    place_all(n, pool, &out, usize::from(r.sent));
    Answer {
        refusal: 0,
        core: shed_core::begun(r),
    }
}
