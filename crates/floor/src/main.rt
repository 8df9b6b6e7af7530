// Reads a stored table on standard input and prints a floor under its totals: what is left on the floor once every cost is projected. No assignment costs
// less. Prints `refused` and the number where the table is refused.
#![tactic(auto)]

use base::{FILE_ROOM, STREAM_SIZE};
use projections::COSTS_ROOM;

const STDIN_FILENO: i32 = 0;

fn main(rt: HostRuntime) {
    let mut file = [0u8; FILE_ROOM];
    let n = io::read_full(STDIN_FILENO, &mut file);
    let mut stream = [0u8; STREAM_SIZE];
    match table::read(&file[..n], &mut stream) {
        Ok(length) => print_floor(&rt, &stream[..length]),
        Err(refusal) => {
            let _ = rt.println(refusal);
        }
    }
}

// The floor of a stream's table.
fn print_floor(rt: &impl Print, stream: &[u8]) {
    let mut costs = [0u32; COSTS_ROOM];
    let moved = projections::lower_bound(stream, &mut costs);
    if moved.refusal != 0 {
        let _ = println!(rt; "refused {}", moved.refusal);
        return;
    }
    let _ = println!(rt; "floor {}", moved.floor);
}
