// Messages and their parts as the sample programs print them, in 01's words. What is printed no contract can say; each call gives back
// what it was handed to print.
#![tactic(auto)]

ghost use Rattle.std.specs.Prelude.{◌≡◌};

use message::{Kind, Message};
use std::fmt;
use std::fmt::Write;

const STDOUT_FILENO: i32 = 1;

// What is written to the file of this number. A piece that can't be written is lost, and those behind it are tried all the same.
#[derive(Clone, Copy, Debug, PartialEq, Eq)]
pub struct Out(pub i32);

impl fmt::Write for Out {
    fn write_str(&mut self, s: &str) -> fmt::Result {
        io::write_all(self.0, s.as_bytes());
        Ok(())
    }
}

// Places, each after a space.
#[derive(Clone, Copy)]
struct Places<'a, T>(&'a [T]);

impl<'a, T: fmt::Display> fmt::Display for Places<'a, T> {
    fn fmt<W: fmt::Write>(&self, f: &mut fmt::Formatter<W>) -> fmt::Result {
        for x in self.0 {
            write!(f, " {x}")?;
        }
        Ok(())
    }
}

// A message's kind, sender, receiver and fields; ends the line.
pub fn print_message(kind: Kind, m: Message) -> Message
    ensures { result ≡ m }
{
    let _ = write!(Out(STDOUT_FILENO), "{kind} {} to {}", m.sender, m.receiver);
    print_fields(m)
}

// Stamp, values and cost, a bound and the best assignment; ends the line.
pub fn print_fields(m: Message) -> Message
    ensures { result ≡ m }
{
    let _ = writeln!(
        Out(STDOUT_FILENO),
        " stamp{} values{} cost {} bound {} best{}",
        Places(&m.stamp),
        Places(&m.values),
        m.cost,
        m.bound,
        Places(&m.best)
    );
    m
}

// A refusal's number, as C's structs have it; ends the line.
pub fn print_refusal(number: u8) -> u8
    ensures { result ≡ number }
{
    let _ = writeln!(Out(STDOUT_FILENO), " refused {number}");
    number
}

// A name, then 16 places, each after a space.
pub fn print_places<T: fmt::Display + Copy>(name: &[u8], l: [T; 16]) -> [T; 16]
    ensures { result ≡ l }
{
    io::write_all(STDOUT_FILENO, name);
    let _ = write!(Out(STDOUT_FILENO), "{}", Places(&l));
    l
}

// A name, then a number.
pub fn print_number(name: &[u8], x: u32) -> u32
    ensures { result ≡ x }
{
    io::write_all(STDOUT_FILENO, name);
    let _ = write!(Out(STDOUT_FILENO), "{x}");
    x
}
