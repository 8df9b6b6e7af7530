// Lines of wool in comma separated text: read from any bytes, and written again. A row is a name, its mean fibre diameter in microns with at
// most one decimal, and the number of lots that the line may go to.
#![tactic(auto)]

ghost use Rattle.std.specs.Prelude.{◌≡◌};
ghost use Rattle.rows.specs.Lines.{readings_in, lots_in};

mod reading;
mod scan;
mod text;

pub use reading::parse;
pub use text::{write_line, write_name};

// Where a row stands.
#[derive(Clone, Copy, Debug, PartialEq, Eq)]
pub enum Phase {
    // Before its first byte; at blanks before the name.
    Start,
    Lead,
    // In a name without quotes; behind the quote that opens a name; in a name in quotes; behind a quote there, which is the first of two or
    // closes the name; behind a name in quotes.
    Bare,
    Opened,
    Quoted,
    Inner,
    Closed,
    // Before the micron; in the digits before its point; behind its point; behind its decimal; behind the micron.
    Micron,
    Whole,
    Point,
    Tenth,
    Measured,
    // Before the number of lots; in its digits; behind it, where only empty fields may follow.
    Lots,
    Count,
    After,
    // The row has left its form, outside quotes and in them.
    Odd,
    OddQuoted,
    // Behind its line feed.
    Over,
}

// What is wrong with a row, or with the text.
#[derive(Clone, Copy, Debug, PartialEq, Eq)]
pub enum Fault {
    // The row has no name; something other than a comma stands behind the quotes around it; no number of microns with at most one decimal;
    // no number of lots; something in a fourth field.
    NoName,
    NoComma,
    NoMicron,
    NoLots,
    MoreFields,
    // The reading is below 10.0 microns, or above 40.0; the lots are not 1 to 16.
    TooFine,
    TooCoarse,
    LotsOutOfRange,
    // The row would be a 17th line; nothing closes its quotes.
    MoreRows,
    NotClosed,
    // The text has no line of wool at all; it is longer than the room for names.
    NoRows,
    TooLong,
}

// A row as far as it was read: its phase, what is wrong with it, whether there was a digit behind the name, whether it is still empty; where in
// the names its own begins, how far bytes were kept there, and how far without blanks at the end; the micron before and behind its point; the
// number of lots.
#[derive(Clone, Copy, Debug, PartialEq, Eq)]
pub struct Row {
    pub phase: Phase,
    pub fault: Option<Fault>,
    pub digits: bool,
    pub empty: bool,
    pub start: usize,
    pub kept: usize,
    pub solid: usize,
    pub whole: u32,
    pub tenth: u32,
    pub lots: u32,
}

// A line of wool that a sheet holds: the length of its name, which stands behind those of the lines before it, its reading in tenths of a
// micron, and for how many lots.
#[derive(Clone, Copy, Debug, PartialEq, Eq)]
pub struct Entry {
    pub length: usize,
    pub reading: u16,
    pub lots: u8,
}

// The row that is being read, or was refused; whether nothing more is read; whether all rows so far were empty; what is wrong with the row, and
// its number, from 1; how many lines of wool there are, and these. The lines stand in an array with their count beside it, as memory is fixed.
#[derive(Clone, Copy, Debug)]
pub struct Sheet {
    pub row: Row,
    pub stopped: bool,
    pub first: bool,
    pub fault: Option<Fault>,
    pub number: usize,
    pub count: usize,
    pub entries: [Entry; 16],
}

impl Sheet {
    // The readings of its entries as a table is made of them: two bytes each, one behind the other.
    pub fn readings(self) -> [u8; 32]
        ensures { result ≡ readings_in self.entries }
    {
        let mut readings = [0u8; 32];
        for (k, entry) in self.entries.iter().enumerate() {
            base::put(&mut readings, 2 * k, &entry.reading.to_le_bytes());
        }
        readings
    }

    // For how many lots each of its entries.
    pub fn lots(self) -> [u8; 16]
        ensures { result ≡ lots_in self.entries }
    {
        self.entries.map(|entry| entry.lots)
    }
}
