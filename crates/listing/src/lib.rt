// What `desk` prints of a text: the lots of its lines of wool, its stored table, or a page; or what is wrong with its first bad row.
#![tactic(auto)]

mod lines;
mod lots;
mod page;
mod words;

ghost use Rattle.std.specs.Prelude.{◌≡◌};
ghost use Rattle.std.specs.Result.{result_err};
ghost use Rattle.rows.specs.Sheet.{sheet_of};

use base::{FILE_SIZE, STREAM_SIZE};
use lines::{Lots, front};
use network::ValueOrder;
use print::Out;
use rows::{Fault, Sheet};
use search::Found;
use std::fmt;
use std::fmt::Write;
use words::BadRow;

pub(crate) const STDOUT_FILENO: i32 = 1;

const STDERR_FILENO: i32 = 2;

// The longest text, which is the room for names too.
pub const TEXT_SIZE: usize = 65535;

// What is asked for.
#[derive(Clone, Copy, Debug, PartialEq, Eq)]
pub enum Form {
    Rows,
    Table,
    Page,
}

// What finds the lots: branch and bound, or the rules of the boxes.
#[derive(Clone, Copy, Debug, PartialEq, Eq)]
pub enum Finder {
    Search,
    Boxes,
}

impl Finder {
    fn find(self, stream: &[u8]) -> Found {
        match self {
            Finder::Search => search::branch_and_bound(stream),
            Finder::Boxes => settled(stream),
        }
    }
}

// Prints what is asked for of the text; or what is wrong with its first bad row, whose fault it gives too. What can't be written is lost, and what comes
// behind it is tried all the same.
pub fn print(text: &[u8], form: Form, finder: Finder) -> Result<(), Fault>
    ensures { result_err result ≡ (sheet_of 65535 text.now).fault }
{
    let mut names = [0u8; TEXT_SIZE];
    let sheet = rows::parse(text, &mut names);
    if let Some(fault) = sheet.fault {
        tell(form, sheet, fault);
        return Err(fault);
    }
    let _ = print_sheet(sheet, &names, form, finder);
    Ok(())
}

// A bad row is told in place of the rows, and beside a file.
fn tell(form: Form, sheet: Sheet, fault: Fault) {
    let bad = BadRow {
        number: sheet.number,
        row: sheet.row,
        fault,
    };
    let _ = match form {
        Form::Rows => writeln!(Out(STDOUT_FILENO), "{bad}"),
        Form::Table | Form::Page => writeln!(Out(STDERR_FILENO), "{bad}"),
    };
}

fn print_sheet(sheet: Sheet, names: &[u8], form: Form, finder: Finder) -> fmt::Result {
    let mut stream = [0u8; STREAM_SIZE];
    let n = u8::try_from(sheet.count).unwrap_or(0);
    let made = readings::write_stream(
        n,
        sheet.lots(),
        front(&sheet.readings(), 2 * usize::from(n)),
        &mut stream,
    );
    let table = front(&stream, made.unwrap_or(0));
    if form == Form::Table {
        return print_table(table);
    }
    let found = finder.find(table);
    let values = found.values;
    let lots = Lots {
        sheet,
        names,
        values,
    };
    match form {
        Form::Page => page::print(lots, found.total),
        _ => lots::print(lots, found.total),
    }
}

fn print_table(stream: &[u8]) -> fmt::Result {
    let mut file = [0u8; FILE_SIZE];
    let written = table::write(stream, &mut file);
    put(front(&file, written.unwrap_or(0)))
}

// Bytes to standard output, as `Out` writes what is no text.
pub(crate) fn put(bytes: &[u8]) -> fmt::Result {
    io::write_all(STDOUT_FILENO, bytes);
    Ok(())
}

// What box 1 reports.
fn settled(stream: &[u8]) -> Found {
    let mut pool = [0u8; base::POOL_SIZE];
    let answer = network::settle_by(ValueOrder::Ascending, stream, &mut pool);
    let net = answer.network;
    let core = net.core;
    let first = core.units[0];
    let values = first.best;
    Found {
        refusal: answer.refusal,
        total: first.bound,
        values,
    }
}
