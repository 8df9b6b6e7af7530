// A lower bound of a table's least total.

ghost use Rattle.std.specs.Prelude.{◌≡◌, length};
ghost use Rattle.projections.specs.Made.{bound_of, bound_into};

use crate::Moved;
use crate::all::project_all;
use crate::held::hold;

// The floor that projecting everything once leaves of a table's costs, which it writes to the front of `out`: at most the least total.
pub fn lower_bound(stream: &[u8], out: &mut [u32]) -> Moved
    ensures { (result ≡ bound_of stream.now (length out.old)) × (out.new ≡ bound_into stream.now out.old) }
{
    match hold(stream, out) {
        Ok(count) => {
            let n = table::units_of(stream);
            let sizes = costs::sizes_of(stream);
            project_all(&mut out[..count], n, sizes, 0)
        }
        Err(refusal) => Moved {
            refusal: refusal.number(),
            floor: 0,
        },
    }
}
