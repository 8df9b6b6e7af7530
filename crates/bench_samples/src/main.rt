// Prints what the bench prints of each sample table of data/, after its name; then what it prints with the word `bound`.
#![tactic(auto)]

use base::FILE_ROOM;
use std::fs::File;
use std::rt::Files;

const SAMPLES: [&str; 20] = [
    // table T; one unit of three values; four units whose totals tie; random ones
    "t.table",
    "one-unit.table",
    "four-ties.table",
    "three.table",
    "five.table",
    "six.table",
    "eight.table",
    "two-by-sixteen.table",
    "sparse-twelve.table",
    // barred pairs; two tables with no assignment without one
    "barred-five.table",
    "none-three.table",
    "none-at-once.table",
    // unary costs
    "priced-five.table",
    "priced-three.table",
    "priced-one.table",
    // 1,048,576 assignments in another shape, 2 and 16 values by turns; 1,049,760, the next number that sizes give, and 16^16: 16
    "most.table",
    "more.table",
    "largest.table",
    "largest-two.table",
    // a byte of eight.table changed: 4
    "flipped.table",
];

// 02, job 6: the first of equal totals; barred pairs, and no assignment without one; unary costs; 1,049,760 assignments, and 16 units of 3 values.
const BOUND: [&str; 13] = [
    "t.table",
    "one-unit.table",
    "four-ties.table",
    "eight.table",
    "sparse-twelve.table",
    "barred-five.table",
    "none-three.table",
    "none-at-once.table",
    "priced-five.table",
    "most.table",
    "more.table",
    "readings-sixteen.table",
    "flipped.table",
];

fn main(rt: HostRuntime) {
    for name in SAMPLES {
        show(&rt, name, report::print_search);
    }
    let _ = println!(rt; "branch and bound");
    for name in BOUND {
        show(&rt, name, report::print_branch_and_bound);
    }
}

// The table's name, then what `print` prints of its file.
fn show<F: FnOnce(&[u8]) -> u8>(
    rt: &(impl Files<File = File> + Print + Eprint),
    name: &str,
    print: F,
)
    requires { F.IsAlwaysCallable print }
{
    let mut file = [0; FILE_ROOM];
    if let Some(n) = inputs::read(rt, name, &mut file) {
        let _ = println!(rt; "{name}");
        print(&file[..n]);
    }
}
