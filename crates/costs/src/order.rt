// The place of a value in the order in which a unit tries its values. Nothing is sorted: the values before it are counted.

ghost use Rattle.std.specs.Prelude.{◌≡◌, pred, ◌≤◌};
ghost use Rattle.costs.specs.Instance.{view_knowing};
ghost use Rattle.costs.specs.Order.{cheaper, place_tried};
ghost use Rattle.costs.specs.Lent.Parts.{dom_from, earlier_up_to};

use crate::{Cost, Seat, ValueOrder, known_h};

// The place of own value v in the order in which the unit tries its values, 0 for no value.
pub fn place_tried(seat: Seat, costs: &[u8], ahead: &[u32], v: u8) -> usize
    ensures { result ≡ place_tried (view_knowing seat costs.now ahead.now) v }
{
    let v = usize::from(v);
    match seat.order {
        ValueOrder::CheapestFirst if v != 0 => 1 + earlier_values(seat, costs, ahead, v),
        _ => v,
    }
}

// How many of the own values come before v by rising h.
fn earlier_values(seat: Seat, costs: &[u8], ahead: &[u32], v: usize) -> usize
    ensures { (result ≡ earlier_up_to (view_knowing seat costs.now ahead.now) v (dom_from seat (pred seat.own))) × (result ≤ 255) }
{
    let d = seat.size_of(seat.place());
    let later = known_h(seat, costs, ahead, v);
    let mut count = 0;
    for i in 0..d {
        let u = i + 1;
        count += usize::from(comes_first(known_h(seat, costs, ahead, u), u, later, v));
    }
    count
}

// Whether value u with h a comes before value v with h b: the lower h, the lower number on a tie, what has no h last.
fn comes_first(a: Cost, u: usize, b: Cost, v: usize) -> bool
    ensures { result ≡ cheaper a u b v }
{
    match (a, b) {
        (Some(first), Some(second)) if first == second => u < v,
        (Some(first), Some(second)) => first < second,
        (Some(_), None) => true,
        (None, Some(_)) => false,
        (None, None) => u < v,
    }
}
