// Reads comma separated text on standard input, one line of wool a row: its name, its mean fibre diameter in microns with at most one
// decimal, and the number of lots that it may go to. Prints the lot of each line, the lots and the total cost; or what is wrong with the first
// row that can't be used. Words ask for something else: see `help`.
#![tactic(auto)]

use listing::{Finder, Form};

const STDIN_FILENO: i32 = 0;

const USAGE: &str = "desk [shed] [table | page | help] < text
  text: a row for each line of wool: name,micron,lots. At most 16 rows, and a first row of titles if you like.
  prints the cheapest lot of each line, then the lots with mean and spread, then the total cost
  shed   the boxes' rules find the lots, in place of branch and bound
  table  writes the stored table instead, for a box
  page   writes a page that shows the lots instead
";

// What the words ask for, and what finds the lots.
#[derive(Clone, Copy, Debug, PartialEq, Eq)]
struct Ask {
    what: What,
    finder: Finder,
}

#[derive(Clone, Copy, Debug, PartialEq, Eq)]
enum What {
    Listing(Form),
    Help,
    Unknown,
}

impl Ask {
    // With one word more.
    fn with(self, word: &[u8]) -> Ask {
        match word {
            b"" => self,
            b"shed" => Ask {
                finder: Finder::Boxes,
                ..self
            },
            _ => Ask {
                what: What::of(word),
                ..self
            },
        }
    }
}

impl What {
    fn of(word: &[u8]) -> What {
        match word {
            b"table" => What::Listing(Form::Table),
            b"page" => What::Listing(Form::Page),
            b"help" => What::Help,
            _ => What::Unknown,
        }
    }
}

fn main(rt: HostRuntime) {
    let mut ask = Ask {
        what: What::Listing(Form::Rows),
        finder: Finder::Search,
    };
    for k in 1..3 {
        let mut text = [0u8; 6];
        let n = inputs::word(&rt, k, &mut text);
        ask = ask.with(&text[..n]);
    }
    if inputs::is_arg(&rt, 3) {
        ask.what = What::Unknown;
    }
    let _ = match ask.what {
        What::Listing(form) => {
            print(form, ask.finder);
            Ok(())
        }
        What::Help => print!(rt; "{USAGE}"),
        What::Unknown => eprint!(rt; "{USAGE}"),
    };
}

fn print(form: Form, finder: Finder) {
    let mut text = [0u8; 65536];
    let n = io::read_full(STDIN_FILENO, &mut text);
    let _ = listing::print(&text[..n], form, finder);
}
