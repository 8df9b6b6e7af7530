// The cost of a value, alone and with the values before it, straight from a stream.

ghost use Rattle.std.specs.Prelude.{◌≡◌, pred, ◌+◌, ◌-◌, ◌*◌, ◌<◌, ◌≤◌, true, if◌then◌else◌, Some};
ghost use Rattle.base.specs.Bytes.{u16_at};
ghost use Rattle.base.specs.Shape.{is_value};
ghost use Rattle.costs.specs.Cost.{pair_cost};
ghost use Rattle.costs.specs.Cost.Laws.{AtMost};
ghost use Rattle.costs.specs.Instance.{in_pair, view_of, instance_of, dom_of};
ghost use Rattle.costs.specs.Bounds.{cost_with};

use crate::opened::Opened;
use crate::{Cost, cost_of, in_pair, place_at, value_at};
use base::is_value;

// The cost of value v of unit `own`, alone and with the values of the units before it; 0 counts as unit 1, and no unit is before it.
pub fn stream_cost_with(stream: &[u8], values: [u8; 16], own: u8, v: u8) -> Cost
    ensures { result ≡ cost_with (view_of (instance_of stream.now) (pred own)) values (pred own) v }
{
    let place = place_at(own);
    let value = usize::from(v);
    let opened = Opened::new(stream);
    let d = usize::from(opened.size_at(place));
    if !is_value(d, value) {
        return Some(0);
    }
    cost_before(&opened, values, place, d, value)
}

// The same for a value v of the unit at `place`, which has d values. The costs of its pair with the unit at place j follow those of the pairs of
// the units before j, and of j with the units between: both are counted along.
fn cost_before(opened: &Opened<'_>, values: [u8; 16], place: usize, d: usize, v: usize) -> Cost
    requires { (place < 256) × (d ≡ dom_of opened.now.stream.now place) × (d < 256) × (is_value d v ≡ true) }
    ensures { result ≡ cost_with (view_of (instance_of opened.now.stream.now) place) values place v }
{
    let mut later = opened.all_sizes(usize::from(opened.units()));
    let mut between = opened.all_sizes(place);
    let start = opened.pairs_at(later);
    let mut sum = opened.unary_at(between, v);
    let mut row = 0;
    for j in 0..place {
        let e = usize::from(opened.size_at(j));
        later -= e;
        between -= e;
        let u = value_at(values, j);
        let from = start + 2 * (row + e * between);
        sum += cost_in_pair(opened.stream, from, d, e, u, v)?;
        row += e * later;
    }
    Some(sum)
}

// The cost of the values u and v of units of e and d values, the costs of which start at byte `from`; 0 where u is no value.
fn cost_in_pair(stream: &[u8], from: usize, d: usize, e: usize, u: usize, v: usize) -> Cost
    requires { (from ≤ 17179869184) × (d ≤ 255) × (u ≤ 255) × (1 ≤ v) × (v ≤ 255) }
    ensures { (result ≡ (if is_value e u then pair_cost (u16_at stream.now (from + 2 * in_pair d u v)) else Some 0)) × AtMost 65535 result }
{
    if !is_value(e, u) {
        return Some(0);
    }
    cost_of(base::u16_at(stream, from + 2 * in_pair(d, u, v)))
}
