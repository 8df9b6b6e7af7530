// The way of a message that changes little, told from a few parts of the state; and the estimate that answers a request.

ghost use Rattle.std.specs.Prelude.{◌≡◌, ◌-◌, ◌≤◌, cond, ltb};
ghost use Rattle.rules.specs.declared.Way.TheVariants.{Quiet, Lower};
ghost use Rattle.rules.specs.State.{with_best, compare_on};
ghost use Rattle.rules.specs.Way.{request_way, estimate_way, stays_below, way_by, way_of, changed_by, reply_to};
ghost use Rattle.rules.specs.Ready.{Own};

use crate::estimate::{store, sum_later, with_estimate};
use crate::state::{compare, same, with_threshold};
use costs::Seat;
use message::{Kind, Message};
use rules::{Unit, Way};
use std::cmp::Ordering;

// Which way a message goes that was read so; what was refused, by any number, goes none of its own.
#[tactic(auto, unfolding(rules::specs::Way::way_of))]
pub fn way(seat: Seat, read: Result<(Kind, Message), u8>, u: Unit) -> Way
    ensures { result ≡ way_of seat read u }
{
    let Ok((kind, m)) = read else {
        return Way::Whole;
    };
    if !message::is_unit(seat.n, seat.own) || 16 < seat.n || !message::is_unit(16, m.sender) {
        return Way::Whole;
    }
    by_kind(seat, kind, u, m)
}

// By the message's kind.
fn by_kind(seat: Seat, kind: Kind, u: Unit, m: Message) -> Way
    requires { Own seat.own × (seat.own ≤ seat.n) × (seat.n ≤ 16) × Own m.sender }
    ensures { result ≡ way_by seat.own seat.n kind u m }
{
    match kind {
        Kind::Cpa | Kind::Stop => Way::Whole,
        Kind::Request => request_way(seat.own, u, m),
        Kind::Estimate => estimate_way(seat, u, m),
        Kind::Solution => solution_way(u, m),
    }
}

// A request: stale, or answered.
fn request_way(own: u8, u: Unit, m: Message) -> Way
    requires { Own own }
    ensures { result ≡ request_way (compare_on (own - 1) m.stamp u.threshold) }
{
    match compare(usize::from(own - 1), m.stamp, u.threshold) {
        Ordering::Less => Way::Quiet,
        Ordering::Equal => Way::Reply,
        Ordering::Greater => Way::Follow,
    }
}

// An estimate: stale, or only stored.
fn estimate_way(seat: Seat, u: Unit, m: Message) -> Way
    requires { Own seat.own × (seat.own ≤ seat.n) × (seat.n ≤ 16) × Own m.sender }
    ensures { result ≡ estimate_way (compare_on seat.own m.stamp u.threshold) (stays_below seat.own seat.n u m) }
{
    match compare(usize::from(seat.own), m.stamp, u.threshold) {
        Ordering::Less => Way::Quiet,
        Ordering::Equal if stays_below(seat, u, m) => Way::Store,
        Ordering::Equal | Ordering::Greater => Way::Whole,
    }
}

// Whether an estimate is of the cpa out, and stored leaves cost and estimates below the bound.
fn stays_below(seat: Seat, u: Unit, m: Message) -> bool
    requires { Own seat.own × (seat.own ≤ seat.n) × (seat.n ≤ 16) × Own m.sender }
    ensures { result ≡ stays_below seat.own seat.n u m }
{
    0 < u.values[usize::from(seat.own - 1)]
        && same(usize::from(seat.own), m.stamp, u.stamp)
        && u64::from(u.cost) + sum_later(seat, with_estimate(m, u.estimates)) < u64::from(u.bound)
}

// A solution: its bound is lower, or nothing changes.
fn solution_way(u: Unit, m: Message) -> Way
    ensures { result ≡ cond (ltb m.bound u.bound) Lower Quiet }
{
    if m.bound < u.bound {
        Way::Lower
    } else {
        Way::Quiet
    }
}

// The state with what a way changes.
pub fn changed(way: Way, m: Message, u: Unit) -> Unit
    ensures { result ≡ changed_by way m u }
{
    match way {
        Way::Quiet | Way::Reply | Way::Whole => u,
        Way::Follow => with_threshold(m.stamp, u),
        Way::Store => keep(m, u),
        Way::Lower => lower(m, u),
    }
}

// A bound and its best are taken.
fn lower(m: Message, u: Unit) -> Unit
    ensures { result ≡ with_best m.bound m.best u }
{
    let Message { bound, best, .. } = m;
    Unit { bound, best, ..u }
}

// An estimate of one of 16 units is stored.
fn keep(m: Message, u: Unit) -> Unit
    ensures { result ≡ changed_by Way.Store m u }
{
    if message::is_unit(16, m.sender) {
        store(m, u)
    } else {
        u
    }
}

// The estimate that answers a request.
pub fn reply(seat: Seat, costs: &[u8], ahead: &[u32], m: Message) -> Message
    ensures { result ≡ reply_to seat costs.now ahead.now m }
{
    let stamp = m.stamp;
    Message {
        sender: seat.own,
        receiver: m.sender,
        stamp,
        values: [0; 16],
        cost: costs::estimate(seat, costs, ahead, m.values, m.sender),
        bound: 0,
        best: [0; 16],
    }
}
