// Reads a stored table on standard input, runs its network by delivering cell 0 each time, and prints the total, each unit's value,
// then records and accepted deliveries; or `refused` and the number. Values are tried ascending, as for the listing of document 01, or with the
// word `cheapest` the cheapest first. With `slots` as the last word the run is over the pool of document 02, job 4, the lowest cell in use
// delivered each time.
#![tactic(auto)]

use base::FILE_ROOM;
use costs::ValueOrder;

const STDIN_FILENO: i32 = 0;

fn main(rt: HostRuntime) {
    if inputs::is_arg(&rt, 3) {
        usage(&rt);
        return;
    }
    let mut first = [0; 10];
    let n = inputs::word(&rt, 1, &mut first);
    let mut second = [0; 10];
    let m = inputs::word(&rt, 2, &mut second);
    run(&rt, &first[..n], &second[..m]);
}

// What the two words ask for, either empty where it isn't there. A word alone may name the pool.
fn run(rt: &impl Eprint, first: &[u8], second: &[u8]) {
    match first {
        b"cheapest" => list(rt, ValueOrder::CheapestFirst, second),
        b"ascending" => list(rt, ValueOrder::Ascending, second),
        _ if second.is_empty() => list(rt, ValueOrder::Ascending, first),
        _ => usage(rt),
    }
}

// The listing of the table on standard input, values tried in this order, over the pool that the word names: 01's if it is empty.
fn list(rt: &impl Eprint, order: ValueOrder, pool: &[u8]) {
    let mut file = [0; FILE_ROOM];
    match pool {
        b"" => {
            let n = io::read_full(STDIN_FILENO, &mut file);
            report::print_settled_by(order, &file[..n]);
        }
        b"slots" => {
            let n = io::read_full(STDIN_FILENO, &mut file);
            report::print_slots_by(order, &file[..n]);
        }
        _ => usage(rt),
    }
}

fn usage(rt: &impl Eprint) {
    let _ = eprintln!(rt;
        "shed: say ascending or cheapest, the order of values, or nothing; then slots, for that pool, or nothing"
    );
}
