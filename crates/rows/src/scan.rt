// One row, byte by byte.
ghost use Rattle.std.specs.Prelude.{◌≡◌, cond, ◌-◌, ◌<◌};
ghost use Rattle.rows.specs.Row.{sort_of, next, spoiled, missing, fault_by, behind_name, in_name, in_solid, grown, placed, fed_by, fed, is_solid, leaves_empty, is_digit_sort, is_start, is_over, whole_after, tenth_after, lots_after};

use crate::Fault::{MoreFields, NoComma, NoLots, NoMicron, NoName};
use crate::Phase::*;
use crate::{Fault, Phase, Row};
use Sort::*;

// What a byte is to a row: a space, a tab or a carriage return; a line feed; a comma; a quote; a digit; a point; any other.
#[derive(Clone, Copy, Debug, PartialEq, Eq)]
pub(crate) enum Sort {
    Blank,
    Feed,
    Comma,
    Quote,
    Digit,
    Dot,
    Other,
}

impl Sort {
    #[tactic(auto, unfolding(crate::specs::Row::sort_of))]
    pub(crate) fn of(b: u8) -> Sort
        ensures { result ≡ sort_of b }
    {
        match b {
            b' ' | b'\t' | b'\r' => Blank,
            b'\n' => Feed,
            b',' => Comma,
            b'"' => Quote,
            b'.' => Dot,
            b'0'..=b'9' => Digit,
            _ => Other,
        }
    }

    // Whether such a byte can stand at either end of a name without quotes.
    pub(crate) fn is_solid(self) -> bool
        ensures { result ≡ is_solid self }
    {
        matches!(self, Digit | Dot | Other)
    }

    fn is_digit(self) -> bool
        ensures { result ≡ is_digit_sort self }
    {
        matches!(self, Digit)
    }

    // Whether a row that has such bytes alone is empty.
    fn leaves_empty(self) -> bool
        ensures { result ≡ leaves_empty self }
    {
        matches!(self, Blank | Feed | Comma)
    }
}

// ---- phases

impl Phase {
    // The phase that a byte leads to.
    #[tactic(auto, unfolding(crate::specs::Row::next))]
    fn after(self, sort: Sort) -> Phase
        ensures { result ≡ next self sort }
    {
        match (self, sort) {
            // Within quotes a line feed and a comma are bytes like others.
            (Opened | Quoted, Quote) => Inner,
            (Opened | Quoted, _) => Quoted,
            (OddQuoted, Quote) => Odd,
            (OddQuoted, _) => OddQuoted,
            // Outside them a line feed ends the row.
            (Over, _) | (_, Feed) => Over,
            // The name.
            (Start | Lead, Blank) => Lead,
            (Start | Lead, Quote) => Opened,
            (Start | Lead, Digit | Dot | Other) => Bare,
            (Bare, Comma) => Micron,
            (Bare, _) => Bare,
            (Inner, Quote) => Quoted,
            (Inner | Closed, Blank) => Closed,
            (Inner | Closed, Comma) => Micron,
            // Its micron.
            (Micron, Blank) => Micron,
            (Micron | Whole, Digit) => Whole,
            (Whole, Dot) => Point,
            (Point, Digit) => Tenth,
            (Whole | Tenth | Measured, Blank) => Measured,
            (Whole | Tenth | Measured, Comma) => Lots,
            // The number of lots.
            (Lots, Blank) => Lots,
            (Lots | Count, Digit) => Count,
            (Count | After, Blank | Comma) => After,
            // The row leaves its form.
            (_, Quote) => OddQuoted,
            _ => Odd,
        }
    }

    pub(crate) fn is_start(self) -> bool
        ensures { result ≡ is_start self }
    {
        matches!(self, Start)
    }

    pub(crate) fn is_over(self) -> bool
        ensures { result ≡ is_over self }
    {
        matches!(self, Over)
    }

    // Whether the byte that leads here is the name's.
    pub(crate) fn is_in_name(self) -> bool
        ensures { result ≡ in_name self }
    {
        matches!(self, Bare | Quoted)
    }

    fn is_behind_name(self) -> bool
        ensures { result ≡ behind_name self }
    {
        !matches!(self, Start | Lead | Bare | Opened | Quoted | Inner | Closed)
    }

    // What is wrong where a byte of another sort is wanted in this phase.
    fn spoiled(self) -> Option<Fault>
        ensures { result ≡ spoiled self }
    {
        match self {
            Start | Lead => Some(NoName),
            Inner | Closed => Some(NoComma),
            Micron | Whole | Point | Tenth | Measured => Some(NoMicron),
            Lots | Count => Some(NoLots),
            After => Some(MoreFields),
            _ => None,
        }
    }

    // What is wrong where the row ends in this phase.
    fn missing(self) -> Option<Fault>
        ensures { result ≡ missing self }
    {
        match self {
            Bare | Inner | Closed | Micron | Point => Some(NoMicron),
            Whole | Tenth | Measured | Lots => Some(NoLots),
            _ => None,
        }
    }
}

// ---- a byte

// A row after one more byte, where there is room for so many bytes of names.
#[tactic(auto, unfolding(crate::specs::Row::fed))]
pub(crate) fn feed(r: Row, b: u8, room: usize) -> Row
    ensures { result ≡ fed room r b }
{
    let sort = Sort::of(b);
    fed_by(r, b, sort, r.phase.after(sort), room)
}

// The phase that a byte leads to.
pub(crate) fn phase_after(r: Row, b: u8) -> Phase
    ensures { result ≡ next r.phase (sort_of b) }
{
    r.phase.after(Sort::of(b))
}

#[tactic(auto, unfolding(crate::specs::Row::fed_by))]
fn fed_by(r: Row, b: u8, sort: Sort, to: Phase, room: usize) -> Row
    ensures { result ≡ fed_by room r b sort to }
{
    Row {
        phase: to,
        fault: r.fault.or(fault_by(r.phase, to)),
        digits: r.digits || (to.is_behind_name() && sort.is_digit()),
        empty: r.empty && sort.leaves_empty(),
        start: r.start,
        kept: kept_after(r.kept, to, room),
        solid: solid_after(r.solid, r.kept, to, sort, room),
        whole: whole_after(to, r.whole, b),
        tenth: tenth_after(to, r.tenth, b),
        lots: lots_after(to, r.lots, b),
    }
}

// What is wrong where the one phase leads to the other.
fn fault_by(phase: Phase, to: Phase) -> Option<Fault>
    ensures { result ≡ fault_by phase to }
{
    match to {
        Over => phase.missing(),
        Odd | OddQuoted => phase.spoiled(),
        _ => None,
    }
}

fn kept_after(kept: usize, to: Phase, room: usize) -> usize
    ensures { result ≡ cond (in_name to) (placed room kept) kept }
{
    if to.is_in_name() {
        placed(kept, room)
    } else {
        kept
    }
}

fn solid_after(solid: usize, kept: usize, to: Phase, sort: Sort, room: usize) -> usize
    ensures { result ≡ cond (in_solid to sort) (placed room kept) solid }
{
    if in_solid(to, sort) {
        placed(kept, room)
    } else {
        solid
    }
}

// Blanks at the end of a name without quotes are not the name's.
fn in_solid(phase: Phase, sort: Sort) -> bool
    ensures { result ≡ in_solid phase sort }
{
    match (phase, sort) {
        (Bare, Blank) => false,
        (Bare | Quoted, _) => true,
        _ => false,
    }
}

// The place after one more byte, where there is room.
fn placed(at: usize, room: usize) -> usize
    ensures { result ≡ placed room at }
{
    if at < room { at + 1 } else { at }
}

// ---- numbers

fn whole_after(to: Phase, whole: u32, b: u8) -> u32
    ensures { result ≡ whole_after to whole b }
{
    match to {
        Whole => grown(whole, b),
        _ => whole,
    }
}

fn tenth_after(to: Phase, tenth: u32, b: u8) -> u32
    ensures { result ≡ tenth_after to tenth b }
{
    match to {
        Tenth => digit_of(b),
        _ => tenth,
    }
}

fn lots_after(to: Phase, lots: u32, b: u8) -> u32
    ensures { result ≡ lots_after to lots b }
{
    match to {
        Count => grown(lots, b),
        _ => lots,
    }
}

// A number with one more digit; of five digits it is too large already.
fn grown(x: u32, b: u8) -> u32
    ensures { result ≡ grown x b }
{
    if x < 10000 { 10 * x + digit_of(b) } else { x }
}

fn digit_of(b: u8) -> u32
    ensures { (result ≡ b - 48) × (result < 256) }
{
    u32::from(b.saturating_sub(b'0'))
}
