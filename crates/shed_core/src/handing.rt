// A packet handed to its unit: which one that is, its step, and what the step leaves in the units and counts.

ghost use Rattle.std.specs.Prelude.{◌≡◌, pred, length};
ghost use Rattle.base.specs.Bytes.Laws.{AllBytes};
ghost use Rattle.table.specs.Stream.{units_of};
ghost use Rattle.rules.specs.Calls.{outcome_of, bytes_of};
ghost use Rattle.rules.specs.Laws.Range.{SizedUnit};
ghost use Rattle.runs.specs.Calls.{core_after, lent_of, receiver_of, step_lent};

use crate::counting::plus;
use costs::ValueOrder;
use runs::Core;
use unit::{Outcome, Unit};

// The longest stream of which a unit's costs are first gathered into a short buffer, and that buffer's bytes.
pub(crate) const SHORT_STREAM: usize = 4096;

pub(crate) const SHORT_COSTS: usize = 1024;

// The unit that a packet names as its receiver, or 1.
pub fn receiver(n: u8, packet: &[u8]) -> u8
    ensures { (result ≡ receiver_of n packet.now) × AllBytes packet.now }
{
    let named = base::byte_at(packet, 2);
    if message::is_unit(n, named) { named } else { 1 }
}

// The step of unit `own` on a packet, with the costs gathered from the stream; where they can't be, the step refuses. They mostly fit a short
// buffer, which is sooner cleared than one with room for the costs of any unit.
pub fn step(
    order: ValueOrder,
    u: Unit,
    stream: &[u8],
    own: u8,
    packet: &[u8],
    out: &mut [u8],
) -> Outcome
    ensures { (result ≡ outcome_of (units_of stream.now) (pred own) u (step_lent order stream.now u own packet.now (length out.old))) × (out.new ≡ bytes_of (units_of stream.now) (pred own) out.old (step_lent order stream.now u own packet.now (length out.old))) × SizedUnit u }
{
    if stream.len() <= SHORT_STREAM {
        let mut costs = [0u8; SHORT_COSTS];
        if let Ok(count) = costs::gather(stream, own, &mut costs) {
            return step_with(order, u, stream, own, &costs[..count], packet, out);
        }
    }
    let mut costs = [0u8; base::COSTS_SIZE];
    let count = costs::gather(stream, own, &mut costs).unwrap_or(0);
    step_with(order, u, stream, own, &costs[..count], packet, out)
}

// The same, with the costs at hand.
fn step_with(
    order: ValueOrder,
    u: Unit,
    stream: &[u8],
    own: u8,
    costs: &[u8],
    packet: &[u8],
    out: &mut [u8],
) -> Outcome
    requires { costs.now ≡ lent_of stream.now own }
    ensures { (result ≡ outcome_of (units_of stream.now) (pred own) u (step_lent order stream.now u own packet.now (length out.old))) × (out.new ≡ bytes_of (units_of stream.now) (pred own) out.old (step_lent order stream.now u own packet.now (length out.old))) × SizedUnit u }
{
    let n = table::units_of(stream);
    let sizes = costs::sizes_of(stream);
    unit::step_by(order, u, own, n, sizes, costs, packet, out)
}

// The units and counts once unit `own` has stepped; only the counts change where it is none of 16.
pub fn advance(core: Core, own: u8, r: Outcome) -> Core
    ensures { result ≡ core_after core own r.unit r.records }
{
    let mut next = core;
    next.records = plus(core.records, u64::from(r.records));
    next.deliveries = plus(core.deliveries, 1);
    // there is no unit 0, and it gets the first place
    let place = usize::from(own.saturating_sub(1));
    if place < base::PLACES {
        next.units[place] = r.unit;
    }
    next
}
