// Prints the listings of the sample sheds of data/, each after its name, values tried ascending; that of T with the newest message delivered
// each time, and with counts past one word; then listings with the cheapest value tried first; then listings over the pool of 02, job 4.
#![tactic(auto)]

use base::FILE_ROOM;
use costs::ValueOrder;
use network::{Core, Count, Network};
use std::fs::File;
use std::rt::Files;

// Over 01's pool, ascending, these are document 01's listings.
const ASCENDING: [&str; 19] = [
    // 1 to 6 units; equal totals; no costs; all costs equal; 16 values; 8, 12 and 16 units
    "one-unit.table",
    "t.table",
    "three.table",
    "three-zero.table",
    "four-ties.table",
    "equal.table",
    "five.table",
    "six.table",
    "two-by-sixteen.table",
    "eight.table",
    "sparse-twelve.table",
    "readings-sixteen.table",
    // barred pairs; no assignment without one, found after some deliveries, and when unit 1 is made
    "barred-five.table",
    "none-three.table",
    "none-at-once.table",
    // unary costs, with barred pairs in the first; one unit, whose lots cost 7, 2 and 5
    "priced-five.table",
    "priced-three.table",
    "priced-one.table",
    // a size of 17
    "bad.table",
];

// 02, job 9: by rising h.
const CHEAPEST: [&str; 15] = [
    "one-unit.table",
    "t.table",
    "three.table",
    "four-ties.table",
    "six.table",
    "two-by-sixteen.table",
    "eight.table",
    "sparse-twelve.table",
    "readings-sixteen.table",
    "barred-five.table",
    "none-three.table",
    "none-at-once.table",
    "priced-five.table",
    "priced-three.table",
    "bad.table",
];

const CHEAPEST_OVER_SLOTS: [&str; 3] = ["t.table", "eight.table", "readings-sixteen.table"];

fn main(rt: HostRuntime) {
    over_messages(&rt, ValueOrder::Ascending, &ASCENDING);
    // 01's case 9: 5 records, 10 deliveries, the most allowed
    let net = newest_first();
    let _ = println!(rt; "T, newest first");
    report::print_network(2, net);
    let _ = println!(rt; "the same, counted past one word");
    report::print_network(2, recounted(net));
    let _ = println!(rt; "cheapest first");
    over_messages(&rt, ValueOrder::CheapestFirst, &CHEAPEST);
    let _ = println!(rt; "over slots");
    over_slots(&rt, ValueOrder::Ascending, &ASCENDING);
    let _ = println!(rt; "over slots, cheapest first");
    over_slots(&rt, ValueOrder::CheapestFirst, &CHEAPEST_OVER_SLOTS);
}

fn over_messages(
    rt: &(impl Files<File = File> + Print + Eprint),
    order: ValueOrder,
    names: &[&str],
) {
    for name in names {
        show(rt, name, |file| report::print_settled_by(order, file));
    }
}

// 02, job 4: the lowest cell in use is delivered each time.
fn over_slots(rt: &(impl Files<File = File> + Print + Eprint), order: ValueOrder, names: &[&str]) {
    for name in names {
        show(rt, name, |file| report::print_slots_by(order, file));
    }
}

// The table's name, then what `print` prints of its file.
fn show<F: FnOnce(&[u8]) -> u8>(
    rt: &(impl Files<File = File> + Print + Eprint),
    name: &str,
    print: F,
)
    requires { F.IsAlwaysCallable print }
{
    let mut file = [0; FILE_ROOM];
    if let Some(n) = inputs::read(rt, name, &mut file) {
        let _ = println!(rt; "{name}");
        print(&file[..n]);
    }
}

// The run of T that delivers the last cell each time, 10 times.
fn newest_first() -> Network {
    let stream = [2, 2, 2, 5, 0, 3, 0, 2, 0, 4, 0];
    let mut pool = [0; base::POOL_SIZE];
    let made = network::make_by(ValueOrder::Ascending, &stream, &mut pool);
    let mut net = made.network;
    for _ in 0..10 {
        net = newest(net, &stream, &mut pool);
    }
    net
}

// The same network with counts of 2^64 and 2^128 - 1.
fn recounted(net: Network) -> Network {
    let core = Core {
        records: Count { low: 0, high: 1 },
        deliveries: Count {
            low: u64::MAX,
            high: u64::MAX,
        },
        ..net.core
    };
    Network { core, ..net }
}

// The network after its newest message was delivered.
fn newest(net: Network, stream: &[u8], pool: &mut [u8]) -> Network {
    let Some(last) = net.used.checked_sub(1) else {
        return net;
    };
    network::deliver_by(ValueOrder::Ascending, net, stream, pool, last).network
}
