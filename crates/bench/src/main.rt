// Reads a stored table on standard input and prints the least total, then each unit's value in the first assignment that has it, or
// `refused` and the number. Every assignment is tried; with the word `bound` the search is by branch and bound, which takes a table of any
// number of them.
#![tactic(auto)]

use base::FILE_ROOM;

const STDIN_FILENO: i32 = 0;

fn main(rt: HostRuntime) {
    if inputs::is_arg(&rt, 2) {
        usage(&rt);
        return;
    }
    let mut text = [0; 6];
    let n = inputs::word(&rt, 1, &mut text);
    run(&rt, &text[..n]);
}

// What the word asks for of the table on standard input: every assignment if it is empty.
fn run(rt: &impl Eprint, word: &[u8]) {
    let mut file = [0; FILE_ROOM];
    match word {
        b"" => {
            let n = io::read_full(STDIN_FILENO, &mut file);
            report::print_search(&file[..n]);
        }
        b"bound" => {
            let n = io::read_full(STDIN_FILENO, &mut file);
            report::print_branch_and_bound(&file[..n]);
        }
        _ => usage(rt),
    }
}

fn usage(rt: &impl Eprint) {
    let _ = eprintln!(rt; "bench: say bound, for branch and bound, or nothing");
}
