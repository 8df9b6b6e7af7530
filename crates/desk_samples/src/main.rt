// What `desk` prints of sample texts. Two arguments name each: what is asked for, `rows`, `shed`, `table` or `page`, and the file.
#![tactic(auto)]

ghost use Rattle.std.specs.Prelude.{◌≤◌, length};

use listing::{Finder, Form};
use std::env::Env;
use std::fs::File;
use std::os::fd::AsRawFd;
use std::rt::Files;

fn main(rt: HostRuntime) {
    for k in 0..inputs::arg_count(&rt) / 2 {
        show(&rt, 2 * k + 1);
    }
}

// The sample that the arguments from i on name.
fn show(rt: &(impl Files<File = File> + Env + Print + Eprint), i: usize)
    requires { i ≤ 18446744073709551613 }
{
    let mut word = [0u8; 6];
    let n = inputs::arg(rt, i, &mut word);
    let mut file = io::buffer();
    let m = inputs::arg(rt, i + 1, &mut file);
    show_file(rt, &word[..n], &file[..m]);
}

fn show_file(rt: &(impl Files<File = File> + Print + Eprint), word: &[u8], file: &[u8]) {
    tell(rt, word, file);
    let Some(input) = inputs::open_named(rt, file) else {
        return;
    };
    let mut text = [0u8; 65536];
    let n = io::read_full(input.as_raw_fd(), &mut text);
    match asked(word) {
        Some((form, finder)) => {
            let _ = listing::print(&text[..n], form, finder);
        }
        None => {
            let _ = eprintln!(rt; "desk_samples: say rows, shed, table or page");
        }
    }
}

// What is asked for, and of which file.
fn tell(rt: &impl Print, word: &[u8], file: &[u8]) {
    for piece in [b"== ", word, b" ", file, b"\n"] {
        let _ = rt.write_all(piece);
    }
}

// What a word asks for.
fn asked(word: &[u8]) -> Option<(Form, Finder)> {
    match word {
        b"rows" => Some((Form::Rows, Finder::Search)),
        b"shed" => Some((Form::Rows, Finder::Boxes)),
        b"table" => Some((Form::Table, Finder::Search)),
        b"page" => Some((Form::Page, Finder::Search)),
        _ => None,
    }
}
