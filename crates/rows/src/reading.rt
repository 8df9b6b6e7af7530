// Rows of a text, one line of wool each, up to the first that can't be used.
ghost use Rattle.std.specs.Prelude.{◌≡◌, not, ◌&&◌, ◌+◌, ◌≤◌, ◌<◌, length, set, None};
ghost use Rattle.rows.specs.Row.{is_start};
ghost use Rattle.rows.specs.Sheet.{fresh, blank_sheet, reading, value_fault, row_fault, with_row, passed, refused, taken, ended, entered, starts_listing, eaten, kept, sheet_after, names_after, closed_by, sheet_of, names_of};

use crate::{Entry, Fault, Phase, Row, Sheet, scan};

// The least and the most of a reading, in tenths of a micron.
const READING_LEAST: u64 = 100;

const READING_MOST: u64 = 400;

// The lines of wool of a text, or the number of the first row that can't be used and what is wrong with it; and their names, one behind the
// other, into the lent buffer, which has to be as long as the text.
pub fn parse(text: &[u8], names: &mut [u8]) -> Sheet
    ensures { (result ≡ sheet_of (length names.old) text.now) × (names.new ≡ names_of text.now names.old) }
{
    if names.len() < text.len() {
        return refused(blank_sheet(), fresh(0), Some(Fault::TooLong));
    }
    let s = scan(text, names);
    closed(eaten(s, b"\n", names.len()))
}

// The sheet after all bytes of the text.
fn scan(text: &[u8], names: &mut [u8]) -> Sheet
    ensures { (result ≡ sheet_after (length names.old) blank_sheet text.now) × (names.new ≡ names_after blank_sheet text.now names.old) × (result.number ≤ length text.now + 1) }
{
    let mut s = blank_sheet();
    for i in 0..text.len() {
        keep(s, text[i], names);
        s = eaten(s, &text[i..], names.len());
    }
    s
}

// ---- a byte

// The sheet after the byte that begins what is left of the text.
#[tactic(auto, unfolding(crate::specs::Sheet::eaten))]
fn eaten(s: Sheet, rest: &[u8], room: usize) -> Sheet
    requires { s.number < 18446744073709551615 }
    ensures { result ≡ eaten room s rest.now }
{
    if s.stopped {
        return s;
    }
    let r = s.row;
    if starts_listing(r.phase, rest) {
        return refused(s, r, None);
    }
    entered(s, scan::feed(r, base::byte_at(rest, 0), room))
}

fn entered(s: Sheet, r: Row) -> Sheet
    requires { s.number < 18446744073709551615 }
    ensures { result ≡ entered s r }
{
    if r.phase.is_over() {
        ended(s, r)
    } else {
        with_row(s, r)
    }
}

// Whether what is left of the text, at a row's start, begins as the listing that `desk` prints behind its rows.
fn starts_listing(phase: Phase, rest: &[u8]) -> bool
    ensures { result ≡ (is_start phase && starts_listing rest.now) }
{
    phase.is_start() && rest.starts_with(b",lot")
}

// A byte of a name is kept.
#[tactic(auto, unfolding(crate::specs::Sheet::kept))]
fn keep(s: Sheet, b: u8, names: &mut [u8])
    ensures { names.new ≡ kept s b names.old }
{
    if !s.stopped && scan::phase_after(s.row, b).is_in_name() {
        lay(names, s.row.kept, b);
    }
}

// A byte into the lent buffer, where there is room.
fn lay(names: &mut [u8], at: usize, b: u8)
    ensures { names.new ≡ set names.old at b }
{
    if at < names.len() {
        names[at] = b;
    }
}

// ---- a row

// The sheet after a whole row.
#[tactic(auto, unfolding(crate::specs::Sheet::ended))]
fn ended(s: Sheet, r: Row) -> Sheet
    requires { s.number < 18446744073709551615 }
    ensures { result ≡ ended s r }
{
    if r.empty {
        return passed(s, s.first, r.start);
    }
    if s.first && !r.digits {
        return passed(s, false, r.start);
    }
    let fault = row_fault(r);
    if fault.is_some() {
        return refused(s, r, fault);
    }
    if s.count >= 16 {
        return refused(s, r, Some(Fault::MoreRows));
    }
    taken(s, r)
}

// What is wrong with a whole row.
#[tactic(auto, unfolding(crate::specs::Sheet::row_fault))]
fn row_fault(r: Row) -> Option<Fault>
    ensures { result ≡ row_fault r }
{
    r.fault.or(value_fault(r))
}

// What is wrong with the values of a row in its form.
#[tactic(auto, unfolding(crate::specs::Sheet::value_fault))]
fn value_fault(r: Row) -> Option<Fault>
    ensures { result ≡ value_fault r }
{
    let reading = reading(r);
    if r.solid <= r.start {
        Some(Fault::NoName)
    } else if reading < READING_LEAST {
        Some(Fault::TooFine)
    } else if reading > READING_MOST {
        Some(Fault::TooCoarse)
    } else if r.lots < 1 || r.lots > 16 {
        Some(Fault::LotsOutOfRange)
    } else {
        None
    }
}

// Tenths of a micron.
fn reading(r: Row) -> u64
    ensures { result ≡ reading r }
{
    10 * u64::from(r.whole) + u64::from(r.tenth)
}

// One more line of wool.
fn taken(s: Sheet, r: Row) -> Sheet
    requires { (s.number < 18446744073709551615) × (s.count < 16) × (row_fault r ≡ None) }
    ensures { result ≡ taken s r }
{
    let mut entries = s.entries;
    entries[s.count] = Entry {
        length: r.solid - r.start,
        reading: reading(r) as u16,
        lots: r.lots as u8,
    };
    Sheet {
        row: fresh(r.solid),
        first: false,
        number: s.number + 1,
        count: s.count + 1,
        entries,
        ..s
    }
}

// ---- sheets made anew

fn fresh(at: usize) -> Row
    ensures { result ≡ fresh at }
{
    Row {
        phase: Phase::Start,
        fault: None,
        digits: false,
        empty: true,
        start: at,
        kept: at,
        solid: at,
        whole: 0,
        tenth: 0,
        lots: 0,
    }
}

fn blank_sheet() -> Sheet
    ensures { result ≡ blank_sheet }
{
    let blank = Entry {
        length: 0,
        reading: 0,
        lots: 0,
    };
    Sheet {
        row: fresh(0),
        stopped: false,
        first: true,
        fault: None,
        number: 1,
        count: 0,
        entries: [blank; 16],
    }
}

fn with_row(s: Sheet, row: Row) -> Sheet
    ensures { result ≡ with_row s row }
{
    Sheet { row, ..s }
}

// The row is passed over.
fn passed(s: Sheet, first: bool, at: usize) -> Sheet
    requires { s.number < 18446744073709551615 }
    ensures { result ≡ passed s first at }
{
    Sheet {
        row: fresh(at),
        first,
        number: s.number + 1,
        ..s
    }
}

// The row is refused, and nothing more is read.
fn refused(s: Sheet, row: Row, fault: Option<Fault>) -> Sheet
    ensures { result ≡ refused s row fault }
{
    Sheet {
        row,
        stopped: true,
        fault,
        ..s
    }
}

// The sheet at the end of its text.
#[tactic(auto, unfolding(crate::specs::Sheet::closed_by))]
fn closed(s: Sheet) -> Sheet
    ensures { result ≡ closed_by s }
{
    if s.fault.is_some() {
        return s;
    }
    if !s.row.phase.is_start() {
        return refused(s, s.row, Some(Fault::NotClosed));
    }
    if s.count == 0 {
        return refused(s, s.row, Some(Fault::NoRows));
    }
    s
}
