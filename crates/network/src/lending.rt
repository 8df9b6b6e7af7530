// The costs of all units of a table, gathered once for a run, and h of their values.

ghost use Rattle.std.specs.Prelude.{◌≤◌, length};
ghost use Rattle.table.specs.Stream.{units_of, Accepted};
ghost use Rattle.runs.specs.Lending.{lent_size, Lent, Looked};

use costs::{Seat, ValueOrder};
use runs::Outlook;

// Room for the costs of 16 units.
pub(crate) const LENT_SIZE: usize = base::PLACES * base::COSTS_SIZE;

// What all units are lent in a run: where the costs of each place begin, and the next one's; and h of its values.
// Memory is fixed: 16 places, of which n are used.
#[derive(Clone, Copy)]
pub(crate) struct Loans {
    pub starts: [usize; 17],
    pub looks: [Outlook; 16],
}

// The costs of all units are laid into the buffer, and h is worked out.
pub(crate) fn lend(order: ValueOrder, stream: &[u8], out: &mut [u8]) -> Loans
    requires { Accepted stream.now × (lent_size ≤ length out.old) }
    ensures { Lent stream.now result.starts out.new × Looked order stream.now (units_of stream.now) result.looks }
{
    let starts = lay(stream, out);
    let looks = look(order, stream, out, starts);
    Loans { starts, looks }
}

// The costs of each unit are laid behind those of the unit before; where those of each place begin, and the next one's.
fn lay(stream: &[u8], out: &mut [u8]) -> [usize; 17]
    requires { Accepted stream.now × (lent_size ≤ length out.old) }
    ensures { Lent stream.now result out.new }
{
    let n = table::units_of(stream);
    let mut costs = [0u8; base::COSTS_SIZE];
    let mut starts = [0usize; 17];
    let mut at = 0;
    for k in 0..n {
        let own = k + 1;
        let count = costs::gather(stream, own, &mut costs).unwrap_or(0);
        base::put(out, at, &costs[..count]);
        at += count;
        starts[usize::from(own)] = at;
    }
    starts
}

// h of the values of each unit, in the costs that were lent.
fn look(order: ValueOrder, stream: &[u8], lent: &[u8], starts: [usize; 17]) -> [Outlook; 16]
    requires { Accepted stream.now × Lent stream.now starts lent.now }
    ensures { Looked order stream.now (units_of stream.now) result }
{
    let n = table::units_of(stream);
    let sizes = costs::sizes_of(stream);
    let blank = Outlook { ahead: [0u32; 16] };
    let mut looks = [blank; 16];
    for k in 0..n {
        let place = usize::from(k);
        let lo = starts[place];
        let hi = starts[place + 1];
        let seat = Seat {
            own: k + 1,
            n,
            sizes,
            order,
        };
        let ahead = costs::lookahead(seat, &lent[lo..hi]);
        looks[place] = Outlook { ahead };
    }
    looks
}
