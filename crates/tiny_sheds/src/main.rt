// Prints of how many tiny tables the shed, the full search and branch and bound give the same total: those of two units, then those of three.
#![tactic(auto)]

use agreement::Pool;
use costs::ValueOrder;

fn main(rt: HostRuntime) {
    for n in 2..=3 {
        let count = agreement::agreeing(Pool::Messages, ValueOrder::Ascending, n);
        let _ = println!(rt; "{count}");
    }
}
