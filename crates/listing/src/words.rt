// What is wrong with a row, in words: its number, what was expected, and the refusal's number where it has one.
use rows::{Fault, Row};
use std::fmt;

// The number of five digits from which on a number in a row was not read further.
const LONG: u32 = 10000;

// A row that can't be used, its number, and what is wrong with it.
#[derive(Clone, Copy, Debug)]
pub(crate) struct BadRow {
    pub(crate) number: usize,
    pub(crate) row: Row,
    pub(crate) fault: Fault,
}

impl fmt::Display for BadRow {
    fn fmt<W: fmt::Write>(&self, f: &mut fmt::Formatter<W>) -> fmt::Result {
        let number = self.number;
        let whole = self.row.whole;
        let tenth = self.row.tenth;
        let lots = self.row.lots;
        let words = words(self.fault);
        match self.fault {
            Fault::TooLong | Fault::NoRows => write!(f, "{words}"),
            Fault::TooFine | Fault::TooCoarse if whole >= LONG => {
                write!(f, "row {number}: the reading is {words}")
            }
            Fault::TooFine | Fault::TooCoarse => write!(
                f,
                "row {number}: {whole}.{tenth} is {words}"
            ),
            Fault::LotsOutOfRange if lots >= LONG => write!(f, "row {number}: too many {words}"),
            Fault::LotsOutOfRange => write!(f, "row {number}: {lots} {words}"),
            _ => write!(f, "row {number}: {words}"),
        }
    }
}

fn words(fault: Fault) -> &'static str {
    match fault {
        Fault::NoName => "a name is expected first",
        Fault::NoComma => "a comma is expected behind the quotes around the name",
        Fault::NoMicron =>
            "microns are expected behind the name, with at most one decimal, as 19.3",
        Fault::NoLots => "the number of lots is expected behind the microns, 1 to 16",
        Fault::MoreFields => "nothing more is expected behind the number of lots",
        Fault::TooFine => "below 10.0 microns (refused 17)",
        Fault::TooCoarse => "above 40.0 microns (refused 17)",
        Fault::LotsOutOfRange => "lots, where 1 to 16 are expected (refused 5)",
        Fault::MoreRows => "at most 16 lines of wool are expected (refused 5)",
        Fault::NotClosed => "the quotes that open in it are not closed",
        Fault::NoRows => "no row: 1 to 16 lines of wool are expected (refused 5)",
        Fault::TooLong => "the text is longer than 65535 bytes",
    }
}
