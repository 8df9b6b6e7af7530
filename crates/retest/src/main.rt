// What a retest can do, document 02, job 12. A retest is the word `own`, a unit, one of its values and the new number of that cost; or the word
// `pair`, a unit, its value, another unit, its value and the new number. Its table is read on standard input; or, with the word `table` and a name in
// front, from that file, so that several can be said one behind the other. Prints the least total, the ends between which the new one lies, and the
// new one, each by branch and bound; or `refused` and the number. What is no retest, and a cost that the table hasn't, are told on standard error.
#![tactic(auto)]

ghost use Rattle.std.specs.Prelude.{◌+◌, ◌≤◌, ◌<◌, IfSome};

use base::{FILE_ROOM, FILE_SIZE, STREAM_SIZE};
use std::env::Env;
use std::fmt;
use std::fs::File;
use std::os::fd::AsRawFd;
use std::rt::Files;
use table::Form;

const STDIN_FILENO: i32 = 0;
// What has no digit more to come: a number has nine digits at most.
const FULL: u32 = 99999999;

// A retest as its words say it. Units and values count from 1, and `new` is what the cost becomes.
#[derive(Clone, Copy, Debug, PartialEq, Eq)]
enum Asked {
    Own {
        unit: u32,
        value: u32,
        new: u32,
    },
    Pair {
        unit: u32,
        value: u32,
        other: u32,
        other_value: u32,
        new: u32,
    },
}

// A least total as it is printed. 02, job 3: "The listing then has the word none".
#[derive(Clone, Copy, Debug, PartialEq, Eq)]
struct Total(u32);

impl fmt::Display for Total {
    fn fmt<W: fmt::Write>(&self, f: &mut fmt::Formatter<W>) -> fmt::Result {
        if self.0 == base::NONE {
            write!(f, "none")
        } else {
            write!(f, "{}", self.0)
        }
    }
}

fn main(rt: HostRuntime) {
    let count = inputs::arg_count(&rt);
    if count < 2 {
        tell_usage(&rt);
        return;
    }
    let mut i = 1;
    // each retest takes as many words as it says: no range counts them
    while i < count {
        let Some(used) = retest(&rt, i, count - i) else {
            tell_usage(&rt);
            return;
        };
        i += used;
    }
}

// The retest that the arguments from i on say, `left` of them: how many it took, where they say one.
fn retest(
    rt: &(impl Files<File = File> + Env + Print + Eprint),
    i: usize,
    left: usize,
) -> Option<usize>
    requires { i + left < 18446744073709551616 }
    ensures { IfSome result (λ used. (1 ≤ used) × (used ≤ left)) }
{
    if is_word(rt, i, b"table") {
        if left < 2 {
            return None;
        }
        let (asked, words) = parse(rt, i + 2, left - 2)?;
        show_named(rt, i + 1, asked);
        return Some(2 + words);
    }
    let (asked, words) = parse(rt, i, left)?;
    show_file(rt, STDIN_FILENO, asked);
    Some(words)
}

// The retest that the words from i on say, without a table's name, and how many words it took.
fn parse(rt: &impl Env, i: usize, left: usize) -> Option<(Asked, usize)>
    requires { i + left < 18446744073709551616 }
    ensures { IfSome result (λ asked. (1 ≤ asked.1) × (asked.1 ≤ left)) }
{
    if 3 < left && is_word(rt, i, b"own") {
        return Some((parse_own(rt, i + 1)?, 4));
    }
    if 5 < left && is_word(rt, i, b"pair") {
        return Some((parse_pair(rt, i + 1)?, 6));
    }
    None
}

fn parse_own(rt: &impl Env, i: usize) -> Option<Asked>
    requires { i + 3 < 18446744073709551616 }
{
    Some(Asked::Own {
        unit: number(rt, i)?,
        value: number(rt, i + 1)?,
        new: number(rt, i + 2)?,
    })
}

fn parse_pair(rt: &impl Env, i: usize) -> Option<Asked>
    requires { i + 5 < 18446744073709551616 }
{
    Some(Asked::Pair {
        unit: number(rt, i)?,
        value: number(rt, i + 1)?,
        other: number(rt, i + 2)?,
        other_value: number(rt, i + 3)?,
        new: number(rt, i + 4)?,
    })
}

// Whether argument i is that word; a longer one is cut, and so is none that is known.
fn is_word(rt: &impl Env, i: usize, word: &[u8]) -> bool {
    let mut text = [0u8; 6];
    match rt.arg(i, &mut text) {
        Ok(n) => check::same(&text[..n], word),
        Err(_) => false,
    }
}

// Argument i as a decimal number.
fn number(rt: &impl Env, i: usize) -> Option<u32> {
    let mut text = [0u8; 10];
    let n = inputs::arg(rt, i, &mut text);
    if n == 0 {
        return None;
    }
    decimal(&text[..n])
}

// The number that the digits say.
fn decimal(text: &[u8]) -> Option<u32> {
    let mut sum = 0;
    for digit in text {
        sum = with_digit(sum, *digit)?;
    }
    Some(sum)
}

// A number with one digit more, where it is a digit and there is room for it.
fn with_digit(sum: u32, digit: u8) -> Option<u32> {
    if FULL < sum || digit < b'0' || b'9' < digit {
        return None;
    }
    Some(10 * sum + u32::from(digit - b'0'))
}

// Of the table in the file that argument i names.
fn show_named(rt: &(impl Files<File = File> + Env + Print + Eprint), i: usize, asked: Asked) {
    let mut name = io::buffer();
    let n = inputs::arg(rt, i, &mut name);
    let Some(input) = inputs::open_named(rt, &name[..n]) else {
        return;
    };
    show_file(rt, input.as_raw_fd(), asked);
}

// Form two has a number for each unary cost, so the table is taken in that form.
fn show_file(rt: &(impl Print + Eprint), fd: i32, asked: Asked) {
    let mut file = [0u8; FILE_ROOM];
    let n = io::read_full(fd, &mut file);
    let mut two = [0u8; FILE_SIZE];
    match table::convert(&file[..n], Form::Two, &mut two) {
        Ok(length) => show_table(rt, &two[..length], asked),
        Err(refusal) => {
            let _ = rt.println(refusal);
        }
    }
}

fn show_table(rt: &(impl Print + Eprint), file: &[u8], asked: Asked) {
    let mut stream = [0u8; STREAM_SIZE];
    match table::read(file, &mut stream) {
        Ok(length) => show_stream(rt, &mut stream[..length], asked),
        Err(refusal) => {
            let _ = rt.println(refusal);
        }
    }
}

fn show_stream(rt: &(impl Print + Eprint), stream: &mut [u8], asked: Asked) {
    let Some(at) = place(stream, asked) else {
        let _ = rt.eprintln("retest: the table has no such cost");
        return;
    };
    let new = new_number(asked);
    let total = search::branch_and_bound(stream).total;
    let ends = sensitivity::ends(total, base::u16_at(stream, at), new);
    if ends.refusal != 0 {
        let _ = println!(rt; "refused {}", ends.refusal);
        return;
    }
    base::put(stream, at, &[(new % 256) as u8, (new / 256 % 256) as u8]);
    let again = search::branch_and_bound(stream).total;
    let _ = println!(rt; "total {}", Total(total));
    let _ = println!(rt; "lower end {}", Total(ends.lower));
    let _ = println!(rt; "upper end {}", Total(ends.upper));
    let _ = println!(rt; "new total {}", Total(again));
}

// The byte at which the number of the cost stands; of a pair, in whichever order its units come.
fn place(stream: &[u8], asked: Asked) -> Option<usize> {
    match asked {
        Asked::Own { unit, value, .. } => {
            let i = (unit as usize).checked_sub(1)?;
            sensitivity::unary_at(stream, i, value as usize)
        }
        Asked::Pair {
            unit,
            value,
            other,
            other_value,
            ..
        } => {
            let i = (unit as usize).checked_sub(1)?;
            let j = (other as usize).checked_sub(1)?;
            let u = value as usize;
            let v = other_value as usize;
            if i < j {
                sensitivity::pair_at(stream, i, u, j, v)
            } else {
                sensitivity::pair_at(stream, j, v, i, u)
            }
        }
    }
}

// What the cost becomes.
fn new_number(asked: Asked) -> u32 {
    match asked {
        Asked::Own { new, .. } | Asked::Pair { new, .. } => new,
    }
}

fn tell_usage(rt: &impl Eprint) {
    let _ = rt.eprintln(
        "retest: say own UNIT VALUE NEW, or pair UNIT VALUE UNIT VALUE NEW; before it, unless the table is standard input, table FILE",
    );
}
