// Reads a stored table on standard input, and writes it to standard output in the form that its argument names, `one` or `two`. Where it is
// refused it writes nothing there, and `refused` and the number to standard error.
#![tactic(auto)]

use base::{FILE_ROOM, FILE_SIZE};
use table::Form;

const STDIN_FILENO: i32 = 0;

const STDOUT_FILENO: i32 = 1;

const STDERR_FILENO: i32 = 2;

fn main(rt: HostRuntime) {
    let mut word = [0u8; 4];
    let n = inputs::arg(&rt, 1, &mut word);
    match &word[..n] {
        b"one" => write_converted(&rt, Form::One),
        b"two" => write_converted(&rt, Form::Two),
        _ => {
            io::write_all(STDERR_FILENO, b"convert: say one or two, the form wanted\n");
        }
    }
}

// The table on standard input, in that form.
fn write_converted(rt: &impl Eprint, form: Form) {
    let mut file = [0u8; FILE_ROOM];
    let n = io::read_full(STDIN_FILENO, &mut file);
    let mut out = [0u8; FILE_SIZE];
    match table::convert(&file[..n], form, &mut out) {
        Ok(length) => {
            io::write_all(STDOUT_FILENO, &out[..length]);
        }
        Err(refusal) => {
            let _ = rt.eprintln(refusal);
        }
    }
}
