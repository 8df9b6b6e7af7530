// What is asked before any packet is looked at: a good stream, and states in range.

ghost use Rattle.std.specs.Prelude.{◌≡◌, suc, pred, ◌<◌, ◌≤◌, nat_le, slice_index};
ghost use Rattle.base.specs.Every.{every};
ghost use Rattle.base.specs.Refusal.{told};
ghost use Rattle.table.specs.Stream.{units_of, stream_refusal, Accepted};
ghost use Rattle.costs.specs.declared.ValueOrder.TheVariants.{CheapestFirst};
ghost use Rattle.costs.specs.Instance.{view_of, view_by, instance_of};
ghost use Rattle.costs.specs.Cost.{as_number};
ghost use Rattle.costs.specs.Bounds.{cost_with};
ghost use Rattle.costs.specs.Order.{place_tried};
ghost use Rattle.costs.specs.Gather.{sizes_in};
ghost use Rattle.costs.specs.Gathered.{gathered};
ghost use Rattle.rules.specs.State.{paid_in_range};
ghost use Rattle.rules.specs.Laws.Trusted.{seat_at};
ghost use Rattle.runs.specs.Calls.{core_refusal};
ghost use Rattle.runs.specs.Code.{unit_in_range};

use crate::handing::{SHORT_COSTS, SHORT_STREAM};
use base::Refusal;
use costs::{Seat, ValueOrder};
use runs::Core;
use unit::Unit;

// Whether the stream is accepted and the state of each unit is in range: refusals 5, 6, 7 of the stream, then 5.
pub fn check(order: ValueOrder, core: Core, stream: &[u8]) -> Result<(), Refusal>
    ensures { told result ≡ core_refusal order core stream.now }
{
    table::check_stream(stream)?;
    if !units_in_range(order, core.units, stream) {
        return Err(Refusal::OutOfRange);
    }
    Ok(())
}

// Whether the states of units 1 to n are in range.
fn units_in_range(order: ValueOrder, units: [Unit; 16], stream: &[u8]) -> bool
    requires { Accepted stream.now }
    ensures { result ≡ every (unit_in_range order stream.now units) (units_of stream.now) }
{
    let n = table::units_of(stream);
    let sizes = costs::sizes_of(stream);
    for k in 0..n {
        if !unit_in_range(order, k, n, sizes, stream, units[usize::from(k)]) {
            return false;
        }
    }
    true
}

// Whether the state of the unit at place k is in range, by what its own value costs in the stream and when it is tried.
fn unit_in_range(order: ValueOrder, k: u8, n: u8, sizes: [u8; 16], stream: &[u8], u: Unit) -> bool
    requires { Accepted stream.now × (k < units_of stream.now) }
    ensures { result ≡ paid_in_range n sizes (suc k) (as_number (cost_with (view_of (instance_of stream.now) k) u.values k (slice_index u.values k))) (place_tried (view_by order (instance_of stream.now) k) (slice_index u.values k)) u }
{
    let own = k + 1;
    let value = u.values[usize::from(k)];
    let paid = costs::stream_cost_with(stream, u.values, own, value);
    let member = Member { stream, own };
    let place = member.place_asked(order, value, u.counter);
    unit::in_range_paid(own, n, sizes, costs::as_number(paid), place, u)
}

// A unit of an accepted stream.
#[derive(Clone, Copy)]
struct Member<'a> {
    stream: &'a [u8],
    own: u8,
    ghost accepted: { stream_refusal stream.now ≡ 0 },
    ghost first: { 1 ≤ own },
    ghost last: { own ≤ units_of stream.now },
}

impl<'a> Member<'a> {
    // A place that the counter is within where it is within that of the unit's value. No value's place is below 1, so only a counter above 1
    // asks for it.
    fn place_asked(&self, order: ValueOrder, v: u8, counter: u8) -> usize
        ensures { nat_le counter result ≡ nat_le counter (place_tried (view_by order (instance_of self.now.stream.now) (pred self.now.own)) v) }
    {
        if v == 0 {
            0
        } else if counter <= 1 {
            1
        } else {
            self.place_tried(order, v)
        }
    }

    // The place of the unit's value in the order tried. Its costs are gathered only where that asks for them.
    fn place_tried(&self, order: ValueOrder, v: u8) -> usize
        ensures { result ≡ place_tried (view_by order (instance_of self.now.stream.now) (pred self.now.own)) v }
    {
        match order {
            ValueOrder::Ascending => usize::from(v),
            ValueOrder::CheapestFirst => self.place_by_h(v),
        }
    }

    // The same by rising h. The costs mostly fit a short buffer, as in a step.
    fn place_by_h(&self, v: u8) -> usize
        ensures { result ≡ place_tried (view_by CheapestFirst (instance_of self.now.stream.now) (pred self.now.own)) v }
    {
        if self.stream.len() <= SHORT_STREAM {
            let mut costs = [0u8; SHORT_COSTS];
            if let Ok(count) = costs::gather(self.stream, self.own, &mut costs) {
                return self.place_with(&costs[..count], v);
            }
        }
        let mut costs = [0u8; base::COSTS_SIZE];
        let count = costs::gather(self.stream, self.own, &mut costs).unwrap_or(0);
        self.place_with(&costs[..count], v)
    }

    // The same, with the costs at hand.
    fn place_with(&self, costs: &[u8], v: u8) -> usize
        requires { costs.now ≡ gathered self.now.stream.now self.now.own }
        ensures { result ≡ place_tried (view_by CheapestFirst (instance_of self.now.stream.now) (pred self.now.own)) v }
    {
        costs::place_tried(self.seat(), costs, &[], v)
    }

    // Its seat, where it tries its values by rising h.
    fn seat(&self) -> Seat
        ensures { result ≡ seat_at CheapestFirst self.now.own (units_of self.now.stream.now) (sizes_in self.now.stream.now) }
    {
        Seat {
            own: self.own,
            n: table::units_of(self.stream),
            sizes: costs::sizes_of(self.stream),
            order: ValueOrder::CheapestFirst,
        }
    }
}
