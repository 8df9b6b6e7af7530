// A delivery over this pool: the checks, the step of the unit that the message is for, and what it leaves in the units, the counts and the cells.

ghost use Rattle.std.specs.Prelude.{◌≡◌, ◌≤◌, length};
ghost use Rattle.base.specs.Limits.{places};
ghost use Rattle.table.specs.Stream.{units_of};
ghost use Rattle.costs.specs.Order.{default_order};
ghost use Rattle.slots.specs.Slot.{slot_pool_size};
ghost use Rattle.base.specs.Refusal.{told};
ghost use Rattle.slots.specs.Calls.{lent_refusal, cell_refusal, is_stray, deliver_by, deliver_of};
ghost use Rattle.slots.specs.Code.{Open};

use crate::cells::{is_empty, place_all, zero_cell};
use crate::numbering::slot_of;
use crate::{Answer, SLOT_POOL_SIZE};
use base::{MESSAGE_SIZE, Refusal};
use costs::ValueOrder;
use runs::Core;

// The message at a cell is delivered: units, counts and pool after it, or a refusal with all as lent. Refusals 13, 5, 6, 7, 5, 12, 15, then the
// step's from 8 on; a message that reads but stands in a cell not its own gets 9.
pub fn deliver(core: Core, stream: &[u8], pool: &mut [u8], cell: u64) -> Answer
    ensures { (result ≡ (deliver_of default_order core stream.now pool.old cell).answer) × (pool.new ≡ (deliver_of default_order core stream.now pool.old cell).pool) }
{
    deliver_by(ValueOrder::CheapestFirst, core, stream, pool, cell)
}

// The same, values tried in this order.
pub fn deliver_by(
    order: ValueOrder,
    core: Core,
    stream: &[u8],
    pool: &mut [u8],
    cell: u64,
) -> Answer
    ensures { (result ≡ (deliver_of order core stream.now pool.old cell).answer) × (pool.new ≡ (deliver_of order core stream.now pool.old cell).pool) }
{
    match check_lent(order, core, stream, pool) {
        Ok(()) => deliver_checked(order, core, stream, pool, cell),
        Err(refusal) => Answer::refused(refusal, core),
    }
}

// Whether what is lent can take a delivery, whatever cell is named.
pub(crate) fn check_lent(
    order: ValueOrder,
    core: Core,
    stream: &[u8],
    pool: &[u8],
) -> Result<(), Refusal>
    ensures { told result ≡ lent_refusal order core stream.now pool.now }
{
    if pool.len() < SLOT_POOL_SIZE {
        return Err(Refusal::NoRoom);
    }
    shed_core::check(order, core, stream)
}

// A delivery where that is 0. It stays so, as a step leaves its unit in range: a list of deliveries is checked once.
pub(crate) fn deliver_checked(
    order: ValueOrder,
    core: Core,
    stream: &[u8],
    pool: &mut [u8],
    cell: u64,
) -> Answer
    requires { lent_refusal order core stream.now pool.old ≡ 0 }
    ensures { (result ≡ (deliver_of order core stream.now pool.old cell).answer) × (pool.new ≡ (deliver_of order core stream.now pool.old cell).pool) × (lent_refusal order result.core stream.now pool.new ≡ 0) }
{
    match check_cell(core, stream, pool, cell) {
        Ok(()) => hand_over(order, core, stream, pool, cell as usize),
        Err(refusal) => Answer::refused(refusal, core),
    }
}

// Whether a message waits at the cell, and unit 1 has not stopped.
fn check_cell(core: Core, stream: &[u8], pool: &[u8], cell: u64) -> Result<(), Refusal>
    requires { (units_of stream.now ≤ places) × (slot_pool_size ≤ length pool.now) }
    ensures { told result ≡ cell_refusal core stream.now pool.now cell }
{
    if core.units[0].stopped {
        return Err(Refusal::Stopped);
    }
    let n = table::units_of(stream);
    if is_empty(n, pool, cell) {
        return Err(Refusal::NoMessage);
    }
    Ok(())
}

// The message at the cell goes to its receiver, the cell is emptied, and what that unit sends is placed.
fn hand_over(order: ValueOrder, core: Core, stream: &[u8], pool: &mut [u8], cell: usize) -> Answer
    requires { Open order core stream.now pool.old cell }
    ensures { (result ≡ (deliver_by order 0 core stream.now pool.old cell).answer) × (pool.new ≡ (deliver_by order 0 core stream.now pool.old cell).pool) × (lent_refusal order result.core stream.now pool.new ≡ 0) }
{
    let at = MESSAGE_SIZE * cell;
    let end = at + MESSAGE_SIZE;
    let n = table::units_of(stream);
    let own = shed_core::receiver(n, &pool[at..end]);
    if is_stray(stream, own, &pool[at..end], cell) {
        return Answer::refused(Refusal::BadField, core);
    }
    let u = core.units[usize::from(own - 1)];
    let mut out = [0u8; base::SENDING_SIZE];
    let r = shed_core::step(order, u, stream, own, &pool[at..end], &mut out);
    // the number goes on as it is: `Outcome` and `Answer` are what C is handed
    if r.refusal != 0 {
        return Answer {
            refusal: r.refusal,
            core,
        };
    }
    zero_cell(pool, cell);
    place_all(n, pool, &out, usize::from(r.sent));
    Answer {
        refusal: 0,
        core: shed_core::advance(core, own, r),
    }
}

// Whether a message that unit `own` can read has another cell.
fn is_stray(stream: &[u8], own: u8, packet: &[u8], cell: usize) -> bool
    ensures { result ≡ is_stray stream.now own packet.now cell }
{
    let n = table::units_of(stream);
    let sizes = costs::sizes_of(stream);
    let Ok((kind, m)) = message::parse_for(n, sizes, own, packet) else {
        return false;
    };
    slot_of(n, kind, m.sender, m.receiver) != cell as u64
}
