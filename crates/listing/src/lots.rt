// Rows with the lot of each line; then each lot with its mean, its spread and its lines; then the total. Rows with no name, so that a spreadsheet
// shows them one column further on, and the rows read back without them.
ghost use Rattle.std.specs.Prelude.{◌<◌};

use crate::lines::{Lots, Tally, front};
use crate::{STDOUT_FILENO, put};
use print::Out;
use std::fmt;
use std::fmt::Write;

// Room for the text of a line with the longest name.
const LINE_ROOM: usize = 131081;

pub(crate) fn print(lots: Lots, total: u32) -> fmt::Result {
    writeln!(Out(STDOUT_FILENO), "name,micron,lot")?;
    for k in 0..lots.count() {
        print_row(lots, k)?;
    }
    writeln!(Out(STDOUT_FILENO), ",lot,mean,spread,lines")?;
    for lot in 1..=16 {
        let t = lots.tally(lot);
        if t.lines > 0 {
            print_lot(lots, lot, t)?;
        }
    }
    writeln!(Out(STDOUT_FILENO), ",total cost,{total}")
}

// Line k, with its lot.
fn print_row(lots: Lots, k: usize) -> fmt::Result
    requires { k < 16 }
{
    let mut text = [0u8; LINE_ROOM];
    let lot = u32::from(lots.values[k]);
    let written = rows::write_line(lots.name(k), lots.reading(k), lot, &mut text);
    put(front(&text, written.unwrap_or(0)))
}

fn print_lot(lots: Lots, lot: u8, t: Tally) -> fmt::Result {
    let mean = Hundredths(t.mean());
    let spread = Tenths(t.spread());
    write!(Out(STDOUT_FILENO), ",{lot},{mean},{spread}")?;
    for k in 0..16 {
        if lots.is_in(lot, k) {
            print_name(lots.name(k))?;
        }
    }
    writeln!(Out(STDOUT_FILENO))
}

// A name behind a comma.
fn print_name(name: &[u8]) -> fmt::Result {
    let mut text = [0u8; LINE_ROOM];
    let written = rows::write_name(name, &mut text);
    put(b",")?;
    put(front(&text, written.unwrap_or(0)))
}

// ---- numbers

// Tenths of a micron, as 19.3.
#[derive(Clone, Copy, Debug)]
pub(crate) struct Tenths(pub(crate) u32);

impl fmt::Display for Tenths {
    fn fmt<W: fmt::Write>(&self, f: &mut fmt::Formatter<W>) -> fmt::Result {
        write!(f, "{}.{}", self.0 / 10, self.0 % 10)
    }
}

// Hundredths of a micron, as 19.25.
#[derive(Clone, Copy, Debug)]
pub(crate) struct Hundredths(pub(crate) u64);

impl fmt::Display for Hundredths {
    fn fmt<W: fmt::Write>(&self, f: &mut fmt::Formatter<W>) -> fmt::Result {
        write!(f, "{}.{:02}", self.0 / 100, self.0 % 100)
    }
}
