// Prints what tiny_sheds does of the other runs of a shed: with the cheapest value tried first, and over the pool of 02, job 4.
#![tactic(auto)]

use agreement::Pool;
use costs::ValueOrder;

fn main(rt: HostRuntime) {
    show(
        &rt,
        "cheapest first",
        Pool::Messages,
        ValueOrder::CheapestFirst,
    );
    show(&rt, "over slots", Pool::Slots, ValueOrder::Ascending);
    show(
        &rt,
        "over slots, cheapest first",
        Pool::Slots,
        ValueOrder::CheapestFirst,
    );
}

fn show(rt: &impl Print, title: &str, pool: Pool, order: ValueOrder) {
    let _ = println!(rt; "{title}");
    for n in 2..=3 {
        let count = agreement::agreeing(pool, order, n);
        let _ = println!(rt; "{count}");
    }
}
