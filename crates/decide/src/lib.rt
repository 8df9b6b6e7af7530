// What a unit decides: whether a lent state is in range, how a new unit begins, and what a message that was read makes a unit do.
#![tactic(auto)]

mod assign; // assigning: values tried, the first below the bound written
mod backtrack; // backtracking: the own value off, the cpa handed back
mod bound; // solutions and stops, and what is decided where nothing is sent
mod estimate; // requests and the estimates that answer them
mod order; // the value tried after another
mod receive; // a cpa that comes in
mod state; // whether a state is in range, the order of stamps, the parts of a state set, and what is held of it
mod short; // the way of a message that changes little

ghost use Rattle.std.specs.Prelude.{◌≡◌, ◌-◌, ◌&&◌, ◌||◌, leb, eqb, get_or};
ghost use Rattle.costs.specs.Instance.{view_knowing};
ghost use Rattle.rules.specs.State.{fresh, no_unit};
ghost use Rattle.rules.specs.Step.{respond};
ghost use Rattle.rules.specs.Trusted.{can_step, can_hear, respond_to, start_to};
ghost use Rattle.rules.specs.Ready.{Own, Shaped, Ready, Heard, decided_of};

use base::Refusal;
pub use bound::refuse;
use bound::{on_solution, on_stop, quiet, refused};
use costs::Seat;
use estimate::{on_estimate, on_request};
use message::{Kind, Message};
use receive::on_cpa;
use rules::{Decided, Unit};
pub use short::{changed, reply, way};
pub use state::{compare_stamps, in_range, in_range_paid};

// What a message that was read makes a unit do; 5 or 9 where it could not be done at all.
pub fn respond(seat: Seat, costs: &[u8], ahead: &[u32], kind: Kind, u: Unit, m: Message) -> Decided
    ensures { result ≡ decided_of u (respond_to seat costs.now ahead.now kind u m) }
{
    if !can_step(seat, u) {
        return refused(Refusal::OutOfRange, u);
    }
    if !can_hear(seat.own, m) {
        return refused(Refusal::BadField, u);
    }
    by_kind(seat, costs, ahead, kind, u, m)
}

// What a new unit decides: unit 1 assigns, the others wait; 5 where it could not be done at all.
pub fn start(seat: Seat, costs: &[u8], ahead: &[u32]) -> Decided
    ensures { result ≡ decided_of fresh (start_to seat costs.now ahead.now) }
{
    let u = fresh();
    if !can_step(seat, u) {
        return refused(Refusal::OutOfRange, u);
    }
    if seat.own == 1 {
        assign::assign(seat, costs, ahead, state::hold(u))
    } else {
        quiet(u)
    }
}

// By the message's kind.
fn by_kind(seat: Seat, costs: &[u8], ahead: &[u32], kind: Kind, u: Unit, m: Message) -> Decided
    requires { Shaped seat × Ready seat u × Heard seat.own m }
    ensures { result ≡ decided_of u (respond (view_knowing seat costs.now ahead.now) kind u m) }
{
    if u.stopped {
        return refused(Refusal::Stopped, u);
    }
    match kind {
        Kind::Cpa => on_cpa(seat, costs, ahead, u, m),
        Kind::Request => on_request(seat, costs, ahead, u, m),
        Kind::Estimate => on_estimate(seat, costs, ahead, u, m),
        Kind::Solution => on_solution(u, m),
        Kind::Stop => on_stop(u, m),
    }
}

// Whether a unit in this state can step at all.
fn can_step(seat: Seat, u: Unit) -> bool
    ensures { result ≡ can_step seat.own seat.n seat.sizes u }
{
    message::is_unit(seat.n, seat.own) && seat.n <= 16 && parts_good(seat, u)
}

// The same of one of at most 16 units, by what is at its place.
fn parts_good(seat: Seat, u: Unit) -> bool
    requires { Own seat.own }
    ensures { result ≡ (leb (get_or seat.sizes (seat.own - 1) 0) 16 && leb (get_or u.threshold (seat.own - 1) 0) 17 && leb (get_or u.values (seat.own - 1) 0) (get_or seat.sizes (seat.own - 1) 0) && (eqb (get_or u.values (seat.own - 1) 0) 0 || leb u.counter 16)) }
{
    let place = usize::from(seat.own - 1);
    let value = u.values[place];
    seat.sizes[place] <= 16
        && u.threshold[place] <= 17
        && value <= seat.sizes[place]
        && (value == 0 || u.counter <= 16)
}

// Whether unit `own` can do anything with this message.
fn can_hear(own: u8, m: Message) -> bool
    requires { Own own }
    ensures { result ≡ can_hear own m }
{
    let place = usize::from(own - 1);
    message::is_unit(16, m.sender)
        && m.stamp[place] <= 17
        && (own <= m.sender || m.values[place] == 0)
}

// A new unit: bound *none*, all else zero.
pub fn fresh() -> Unit
    ensures { result ≡ fresh }
{
    Unit {
        bound: base::NONE,
        ..no_unit()
    }
}

// The unit beside a refusal of making: all zero.
pub fn no_unit() -> Unit
    ensures { result ≡ no_unit }
{
    Unit {
        threshold: [0; 16],
        bound: 0,
        best: [0; 16],
        estimates: [0; 16],
        stamp: [0; 16],
        values: [0; 16],
        cost: 0,
        counter: 0,
        stopped: false,
    }
}
