// One unit as it is called: made, and handed a packet.
#![tactic(auto)]

mod sending; // what is sent, laid into the lent buffer

ghost use Rattle.std.specs.Prelude.{◌≡◌, ℕ, pred, ◌-◌, ◌≤◌, cond, ltb, length};
ghost use Rattle.base.specs.Limits.{sending_size};
ghost use Rattle.base.specs.Refusal.{told};
ghost use Rattle.costs.specs.Order.{default_order};
ghost use Rattle.rules.specs.State.{no_unit};
ghost use Rattle.rules.specs.Step.{Decision, refused};
ghost use Rattle.rules.specs.Send.{packets};
ghost use Rattle.rules.specs.Laying.{Room};
ghost use Rattle.rules.specs.Calls.{outcome_of, numbers_of, bytes_of, seat_refusal, make_refusal, range_refusal, make_out, step_refusal, step_out};
ghost use Rattle.rules.specs.Trusted.{on_known};
ghost use Rattle.rules.specs.Ready.{decided_of};

use base::Refusal;
use costs::Seat;
pub use costs::ValueOrder;
pub use decide::{changed, compare_stamps, fresh, in_range_paid, no_unit, reply, way};
use message::{Kind, Message};
pub use rules::{Decided, Outcome, Report, Unit, Way};
pub use sending::send;

// A unit is made: unit 1 assigns, the others wait. Refusals 5, 10, 6, 7, 13 in order.
// Each call that is told no order of values has `by` one that is; these try the cheapest first. Both stay: README and C name both.
pub fn make(own: u8, n: u8, sizes: [u8; 16], costs: &[u8], out: &mut [u8]) -> Outcome
    ensures { (result ≡ outcome_of n (pred own) no_unit (make_out default_order own n sizes costs.now (length out.old))) × (out.new ≡ bytes_of n (pred own) out.old (make_out default_order own n sizes costs.now (length out.old))) }
{
    make_by(ValueOrder::CheapestFirst, own, n, sizes, costs, out)
}

// The same, values tried in this order.
pub fn make_by(
    order: ValueOrder,
    own: u8,
    n: u8,
    sizes: [u8; 16],
    costs: &[u8],
    out: &mut [u8],
) -> Outcome
    ensures { (result ≡ outcome_of n (pred own) no_unit (make_out order own n sizes costs.now (length out.old))) × (out.new ≡ bytes_of n (pred own) out.old (make_out order own n sizes costs.now (length out.old))) }
{
    let seat = Seat {
        own,
        n,
        sizes,
        order,
    };
    if let Err(refusal) = check_make(seat, costs, out.len()) {
        return refused(refusal.number(), no_unit());
    }
    carry_out(seat, decide::start(seat, costs, &[]), out)
}

// A step: the packet is read, and the unit does what it says. Refusals 13, 5, 10, 6, 7, 5, then reading's 8, 10, 9, then 12, 11.
pub fn step(
    u: Unit,
    own: u8,
    n: u8,
    sizes: [u8; 16],
    costs: &[u8],
    packet: &[u8],
    out: &mut [u8],
) -> Outcome
    ensures { (result ≡ outcome_of n (pred own) u (step_out default_order u own n sizes costs.now packet.now (length out.old))) × (out.new ≡ bytes_of n (pred own) out.old (step_out default_order u own n sizes costs.now packet.now (length out.old))) }
{
    step_by(
        ValueOrder::CheapestFirst,
        u,
        own,
        n,
        sizes,
        costs,
        packet,
        out,
    )
}

// The same, values tried in this order.
pub fn step_by(
    order: ValueOrder,
    u: Unit,
    own: u8,
    n: u8,
    sizes: [u8; 16],
    costs: &[u8],
    packet: &[u8],
    out: &mut [u8],
) -> Outcome
    ensures { (result ≡ outcome_of n (pred own) u (step_out order u own n sizes costs.now packet.now (length out.old))) × (out.new ≡ bytes_of n (pred own) out.old (step_out order u own n sizes costs.now packet.now (length out.old))) }
{
    let seat = Seat {
        own,
        n,
        sizes,
        order,
    };
    if let Err(refusal) = check_step(seat, costs, u, out.len()) {
        return refused(refusal.number(), u);
    }
    let (kind, m) = match message::parse_for(n, sizes, own, packet) {
        Ok(read) => read,
        Err(refusal) => return refused(refusal.number(), u),
    };
    carry_out(seat, decide::respond(seat, costs, &[], kind, u, m), out)
}

// What a message makes a unit do that is known to be good, as in a run that checked its table once and knows h; as it was read. It asks only what
// it can't do without: refusals 9 (no kind), 5, 9, then 12, 11. On what `step_by` accepts it is the step's, where what is known is right; it is
// sent by `send`.
pub fn respond(
    seat: Seat,
    costs: &[u8],
    ahead: &[u32],
    read: Result<(Kind, Message), u8>,
    u: Unit,
) -> Decided
    ensures { result ≡ decided_of u (on_known seat costs.now ahead.now u read) }
{
    match read {
        Ok((kind, m)) => decide::respond(seat, costs, ahead, kind, u, m),
        Err(refusal) => decide::refuse(refusal, u),
    }
}

// The step on a lent state: 01, "The box lends its state to each step, and the step writes it there".
pub fn step_in_place(
    u: &mut Unit,
    own: u8,
    n: u8,
    sizes: [u8; 16],
    costs: &[u8],
    packet: &[u8],
    out: &mut [u8],
) -> Report
    ensures { (result ≡ numbers_of (outcome_of n (pred own) u.old (step_out default_order u.old own n sizes costs.now packet.now (length out.old)))) × (u.new ≡ (outcome_of n (pred own) u.old (step_out default_order u.old own n sizes costs.now packet.now (length out.old))).unit) × (out.new ≡ bytes_of n (pred own) out.old (step_out default_order u.old own n sizes costs.now packet.now (length out.old))) }
{
    let r = step(*u, own, n, sizes, costs, packet, out);
    *u = r.unit;
    Report {
        refusal: r.refusal,
        sent: r.sent,
        records: r.records,
    }
}

// The same, values tried in this order.
pub fn step_in_place_by(
    order: ValueOrder,
    u: &mut Unit,
    own: u8,
    n: u8,
    sizes: [u8; 16],
    costs: &[u8],
    packet: &[u8],
    out: &mut [u8],
) -> Report
    ensures { (result ≡ numbers_of (outcome_of n (pred own) u.old (step_out order u.old own n sizes costs.now packet.now (length out.old)))) × (u.new ≡ (outcome_of n (pred own) u.old (step_out order u.old own n sizes costs.now packet.now (length out.old))).unit) × (out.new ≡ bytes_of n (pred own) out.old (step_out order u.old own n sizes costs.now packet.now (length out.old))) }
{
    let r = step_by(order, *u, own, n, sizes, costs, packet, out);
    *u = r.unit;
    Report {
        refusal: r.refusal,
        sent: r.sent,
        records: r.records,
    }
}

// Whether a lent state is in range, told by the refusal that a step would give: 5, 10, 6, 7, 5 in order.
pub fn in_range(u: Unit, own: u8, n: u8, sizes: [u8; 16], costs: &[u8]) -> Result<(), Refusal>
    ensures { told result ≡ range_refusal default_order u own n sizes costs.now }
{
    in_range_by(ValueOrder::CheapestFirst, u, own, n, sizes, costs)
}

// The same, values tried in this order.
pub fn in_range_by(
    order: ValueOrder,
    u: Unit,
    own: u8,
    n: u8,
    sizes: [u8; 16],
    costs: &[u8],
) -> Result<(), Refusal>
    ensures { told result ≡ range_refusal order u own n sizes costs.now }
{
    let seat = Seat {
        own,
        n,
        sizes,
        order,
    };
    check_range(seat, costs, u)
}

// What making refuses, before anything is done.
#[tactic(auto, unfolding(rules::specs::Calls::make_refusal))]
fn check_make(seat: Seat, costs: &[u8], room: usize) -> Result<(), Refusal>
    ensures { told result ≡ make_refusal seat.own seat.n seat.sizes costs.now room }
{
    check_seat(seat, costs)?;
    check_room(room)
}

// What a step refuses before its packet is read.
#[tactic(auto, unfolding(rules::specs::Calls::step_refusal))]
fn check_step(seat: Seat, costs: &[u8], u: Unit, room: usize) -> Result<(), Refusal>
    ensures { told result ≡ step_refusal seat.order u seat.own seat.n seat.sizes costs.now room }
{
    check_room(room)?;
    check_range(seat, costs, u)
}

// What is refused of a lent state.
fn check_range(seat: Seat, costs: &[u8], u: Unit) -> Result<(), Refusal>
    ensures { told result ≡ range_refusal seat.order u seat.own seat.n seat.sizes costs.now }
{
    check_seat(seat, costs)?;
    if !decide::in_range(seat, costs, &[], u) {
        return Err(Refusal::OutOfRange);
    }
    Ok(())
}

// What is refused of what is lent beside a state.
#[tactic(auto, unfolding(rules::specs::Calls::seat_refusal))]
fn check_seat(seat: Seat, costs: &[u8]) -> Result<(), Refusal>
    ensures { told result ≡ seat_refusal seat.own seat.n seat.sizes costs.now }
{
    if !base::shape_good(seat.n, seat.sizes) {
        return Err(Refusal::OutOfRange);
    }
    if !message::is_unit(seat.n, seat.own) {
        return Err(Refusal::BadUnit);
    }
    costs::check_lent(seat, costs)
}

// Whether there is room for what is sent.
fn check_room(room: usize) -> Result<(), Refusal>
    ensures { told result ≡ cond (ltb room sending_size) 13 0 }
{
    if room < base::SENDING_SIZE {
        return Err(Refusal::NoRoom);
    }
    Ok(())
}

// What was decided is sent and handed back.
fn carry_out(seat: Seat, d: Decided, out: &mut [u8]) -> Outcome
    requires { d.refusal ≡ 0 → Room seat out.old × (length (packets seat.n (seat.own - 1) d.sending) ≤ 16) }
    ensures { (was : Unit) (o : Decision) → d ≡ decided_of was o → (result ≡ outcome_of seat.n (pred seat.own) was o) × (out.new ≡ bytes_of seat.n (pred seat.own) out.old o) }
{
    let Decided {
        unit,
        sending,
        refusal,
        records,
    } = d;
    if refusal != 0 {
        return refused(refusal, unit);
    }
    Outcome {
        refusal: 0,
        unit,
        sent: sending::lay(seat, sending, out),
        records,
    }
}

// A refusal: nothing sent, no record.
fn refused(refusal: u8, unit: Unit) -> Outcome
    ensures { (n k : ℕ) → result ≡ outcome_of n k unit (refused refusal) }
{
    Outcome {
        refusal,
        unit,
        sent: 0,
        records: 0,
    }
}
