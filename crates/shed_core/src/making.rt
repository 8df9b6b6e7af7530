// The units and counts of a new network: unit 1 assigns, the others wait.

ghost use Rattle.std.specs.Prelude.{◌≡◌, length};
ghost use Rattle.base.specs.Refusal.{told};
ghost use Rattle.table.specs.Stream.{units_of};
ghost use Rattle.rules.specs.State.{no_unit};
ghost use Rattle.rules.specs.Calls.{outcome_of, bytes_of};
ghost use Rattle.runs.specs.Calls.{no_core, core_begun, making_refusal, first_lent};

use crate::counting::plus;
use base::Refusal;
use costs::ValueOrder;
use runs::{Core, Count};
use unit::Outcome;

// Nothing counted yet.
const NONE: Count = Count { low: 0, high: 0 };

// Unit 1 is made, with the costs gathered from the stream, and what it sends is laid at the front of `out`.
pub fn first_step(order: ValueOrder, stream: &[u8], out: &mut [u8]) -> Outcome
    ensures { (result ≡ outcome_of (units_of stream.now) 0 no_unit (first_lent order stream.now (length out.old))) × (out.new ≡ bytes_of (units_of stream.now) 0 out.old (first_lent order stream.now (length out.old))) }
{
    let n = table::units_of(stream);
    let sizes = costs::sizes_of(stream);
    let mut costs = [0u8; base::COSTS_SIZE];
    let count = costs::gather(stream, 1, &mut costs).unwrap_or(0);
    unit::make_by(order, 1, n, sizes, &costs[..count], out)
}

// The units and counts after unit 1's making: its records are counted, the others are new.
pub fn begun(r: Outcome) -> Core
    ensures { result ≡ core_begun r.unit r.records }
{
    let mut units = [unit::fresh(); 16];
    units[0] = r.unit;
    Core {
        units,
        records: plus(NONE, u64::from(r.records)),
        deliveries: NONE,
    }
}

// What stands beside a refusal of making: all zero.
pub fn no_core() -> Core
    ensures { result ≡ no_core }
{
    Core {
        units: [unit::no_unit(); 16],
        records: NONE,
        deliveries: NONE,
    }
}

// Whether a network can be made of the stream in a pool of `room` bytes that needs `size` of them.
pub fn check_making(stream: &[u8], room: usize, size: usize) -> Result<(), Refusal>
    ensures { told result ≡ making_refusal size stream.now room }
{
    table::check_stream(stream)?;
    if room < size {
        return Err(Refusal::NoRoom);
    }
    Ok(())
}
