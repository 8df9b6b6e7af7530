// Which fields go together: checks 10 and 9.

ghost use Rattle.std.specs.Prelude.{◌≡◌, ◌+◌, cond, ◌||◌, eqb};
ghost use Rattle.base.specs.Limits.{prefix_limit};
ghost use Rattle.base.specs.Shape.{is_value};
ghost use Rattle.message.specs.Message.{filled_to, bound_good, none_or_bound, no_bound, prefix_of, carried_of, cost_fits, bound_fits, from_to, direction_good, is_unit, address_good, well_formed};
ghost use Rattle.message.specs.Laws.{cpa_count};

use crate::{Carried, Kind, Message};

// Check 10: sender and receiver are units.
#[tactic(auto, unfolding(crate::specs::Message::address_good))]
pub fn address_good(n: u8, m: Message) -> bool
    ensures { result ≡ address_good n m }
{
    is_unit(n, m.sender) && is_unit(n, m.receiver)
}

// Whether i is 1 to n.
pub fn is_unit(n: u8, i: u8) -> bool
    ensures { result ≡ is_unit n i }
{
    base::is_value(usize::from(n), usize::from(i))
}

// Check 9: the fields go with the kind.
#[tactic(auto, unfolding(crate::specs::Message::well_formed))]
pub fn well_formed(n: u8, sizes: [u8; 16], kind: Kind, m: Message) -> bool
    ensures { result ≡ well_formed n sizes kind m }
{
    let most = carried(kind, m);
    direction_good(n, kind, m.sender, m.receiver)
        && filled_to(most.stamps, sizes, m.stamp)
        && filled_to(most.values, sizes, m.values)
        && cost_fits(most, m.cost)
        && bound_fits(n, sizes, kind, m.bound, m.best)
}

// Who may send a message of this kind to whom.
fn direction_good(n: u8, kind: Kind, sender: u8, receiver: u8) -> bool
    ensures { result ≡ direction_good n kind sender receiver }
{
    match kind {
        Kind::Cpa => beside(sender, receiver),
        Kind::Request => sender < receiver,
        Kind::Estimate => receiver < sender,
        Kind::Solution => from_to(n, sender, receiver),
        Kind::Stop => from_to(1, sender, receiver),
    }
}

// One is the unit after the other.
fn beside(sender: u8, receiver: u8) -> bool
    ensures { result ≡ (eqb receiver (sender + 1) || eqb sender (receiver + 1)) }
{
    let s = u32::from(sender);
    let r = u32::from(receiver);
    r == s + 1 || s == r + 1
}

// From this unit to another.
fn from_to(home: u8, sender: u8, receiver: u8) -> bool
    ensures { result ≡ from_to home sender receiver }
{
    sender == home && receiver != sender
}

// What a kind carries besides a bound.
fn carried(kind: Kind, m: Message) -> Carried
    ensures { result ≡ carried_of kind m }
{
    match kind {
        Kind::Cpa => prefix(cpa_count(m.sender, m.receiver)),
        Kind::Request => prefix(m.sender),
        Kind::Estimate => Carried {
            stamps: m.receiver,
            values: 0,
            cost: base::ESTIMATE_LIMIT,
            none: true,
        },
        Kind::Solution | Kind::Stop => prefix(0),
    }
}

// Units 1 to k filled.
fn prefix(k: u8) -> Carried
    ensures { result ≡ prefix_of k }
{
    Carried {
        stamps: k,
        values: k,
        cost: prefix_limit(k),
        none: false,
    }
}

// A cost within what a kind carries.
fn cost_fits(most: Carried, cost: u32) -> bool
    ensures { result ≡ cost_fits most cost }
{
    cost <= most.cost || most.none && cost == base::NONE
}

// How many units a cpa has filled, going down or back.
fn cpa_count(sender: u8, receiver: u8) -> u8
    ensures { result ≡ cpa_count sender receiver }
{
    if sender < receiver {
        receiver - 1
    } else {
        receiver
    }
}

// Whether units 1 to k of the 16 have one of their values, and the others 0.
pub fn filled_to(k: u8, sizes: [u8; 16], places: [u8; 16]) -> bool
    ensures { result ≡ filled_to k sizes places }
{
    for i in 0..base::PLACES {
        if !place_good(i < usize::from(k), sizes[i], places[i]) {
            return false;
        }
    }
    true
}

// A filled place holds 1 to d, another 0.
fn place_good(filled: bool, d: u8, x: u8) -> bool
    ensures { result ≡ cond filled (is_value d x) (eqb x 0) }
{
    if filled {
        base::is_value(usize::from(d), usize::from(x))
    } else {
        x == 0
    }
}

// The most that k filled units can cost.
pub fn prefix_limit(k: u8) -> u32
    ensures { result ≡ prefix_limit k }
{
    let k = u32::from(k);
    base::PREFIX_FACTOR * k * k.saturating_sub(1) + base::UNARY_LIMIT * k
}

// Whether a kind may carry this bound and best assignment.
fn bound_fits(n: u8, sizes: [u8; 16], kind: Kind, bound: u32, best: [u8; 16]) -> bool
    ensures { result ≡ bound_fits n sizes kind bound best }
{
    match kind {
        Kind::Cpa | Kind::Stop => none_or_bound(n, sizes, bound, best),
        Kind::Request | Kind::Estimate => no_bound(sizes, bound, best),
        Kind::Solution => bound_good(n, sizes, bound, best),
    }
}

// *None* with no assignment, or a bound with its full one.
#[tactic(auto, unfolding(crate::specs::Message::none_or_bound))]
pub fn none_or_bound(n: u8, sizes: [u8; 16], bound: u32, best: [u8; 16]) -> bool
    ensures { result ≡ none_or_bound n sizes bound best }
{
    if bound == base::NONE {
        filled_to(0, sizes, best)
    } else {
        bound_good(n, sizes, bound, best)
    }
}

// A bound with its full assignment.
#[tactic(auto, unfolding(crate::specs::Message::bound_good))]
pub fn bound_good(n: u8, sizes: [u8; 16], bound: u32, best: [u8; 16]) -> bool
    ensures { result ≡ bound_good n sizes bound best }
{
    bound <= base::TOTAL_LIMIT && filled_to(n, sizes, best)
}

// Bound and best both zero.
#[tactic(auto, unfolding(crate::specs::Message::no_bound))]
fn no_bound(sizes: [u8; 16], bound: u32, best: [u8; 16]) -> bool
    ensures { result ≡ no_bound sizes bound best }
{
    bound == 0 && filled_to(0, sizes, best)
}
