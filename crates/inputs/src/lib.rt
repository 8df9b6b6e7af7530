// What programs are given: their arguments, and files that these or the program name. No contract can say what is given; each call says how
// much of a lent buffer it is.
#![tactic(auto)]

ghost use Rattle.std.specs.Prelude.{◌≤◌, length, IfSome};

use std::env::{Env, FillError};
use std::fs::File;
use std::io::{Error, ErrorKind};
use std::os::fd::AsRawFd;
use std::rt::Files;

const STDERR_FILENO: i32 = 2;

// How many arguments there are, the program's name with them.
pub fn arg_count(rt: &impl Env) -> usize {
    (0..usize::MAX)
        .find(|i| !is_arg(rt, *i))
        .unwrap_or(usize::MAX)
}

// Whether there is an argument i.
pub fn is_arg(rt: &impl Env, i: usize) -> bool {
    let mut text = [0u8; 1];
    !matches!(rt.arg(i, &mut text), Err(FillError::NotPresent))
}

// Argument i at the start of buf; nothing where there is none, or it is longer.
pub fn arg(rt: &impl Env, i: usize, buf: &mut [u8]) -> usize
    ensures { result ≤ length buf.new }
{
    match rt.arg(i, buf) {
        Ok(n) => n,
        Err(_) => 0,
    }
}

// Argument i at the start of buf, cut where it is longer, so that it is no word that is shorter than buf; nothing where there is none.
pub fn word(rt: &impl Env, i: usize, buf: &mut [u8]) -> usize
    ensures { result ≤ length buf.new }
{
    match rt.arg(i, buf) {
        Err(FillError::TooLong) => buf.len(),
        filled => filled.unwrap_or(0),
    }
}

// The named file, open for reading; where it can't be opened, its name and why are told on standard error.
pub fn open(rt: &(impl Files<File = File> + Eprint), name: &str) -> Option<File> {
    match File::open(rt, name) {
        Ok(file) => Some(file),
        Err(error) => {
            tell(rt, name.as_bytes(), error);
            None
        }
    }
}

// What the named file holds, at the start of buf, as far as that has room.
pub fn read(rt: &(impl Files<File = File> + Eprint), name: &str, buf: &mut [u8]) -> Option<usize>
    ensures { IfSome result (λ n. n ≤ length buf.new) }
{
    let file = open(rt, name)?;
    Some(io::read_full(file.as_raw_fd(), buf))
}

// `open` of a name in bytes, as an argument gives it; what is no text names no file.
pub fn open_named(rt: &(impl Files<File = File> + Eprint), name: &[u8]) -> Option<File> {
    match std::str::from_utf8(name) {
        Ok(text) => open(rt, text),
        Err(_) => {
            tell(rt, name, Error::from(ErrorKind::InvalidInput));
            None
        }
    }
}

fn tell(rt: &impl Eprint, name: &[u8], error: Error) {
    io::write_all(STDERR_FILENO, name);
    io::write_all(STDERR_FILENO, b": ");
    let _ = rt.eprintln(error);
}
