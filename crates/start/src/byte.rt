// What a byte of the stream does: where the stream then is, an arm for each stage, and what of the byte touches a unit.

ghost use Rattle.std.specs.Prelude.{◌≡◌, cond, ◌||◌, [], ◌∷◌, ◌≤◌, eqb, set};
ghost use Rattle.base.specs.Limits.{places};
ghost use Rattle.base.specs.Shape.{is_value};
ghost use Rattle.table.specs.Stream.{costs_good};
ghost use Rattle.start.specs.Byte.{with_stage, values_of, at_run, at_end, to_run, with_opening, with_units, with_size, with_low, test_of, one_cost, with_high, after_byte, touching, zeros_due, zeros_for, kept_of, Keeps};

use crate::{Reader, Stage};
use base::{FORM_TWO, PLACES, is_value};

// ---- where the stream is

// Behind the byte.
pub(crate) fn after_byte(r: Reader, b: u8) -> Reader
    ensures { result ≡ after_byte r b }
{
    match r.stage {
        Stage::Opening => with_opening(r, b),
        Stage::Units => with_units(r, 0, b),
        Stage::Sizes => with_size(r, b),
        Stage::Low => with_low(r, b),
        Stage::High => with_high(r, b),
        Stage::Whole => with_stage(r, Stage::Long),
        Stage::Long | Stage::Misshapen => r,
    }
}

// The first byte says the form.
fn with_opening(r: Reader, b: u8) -> Reader
    ensures { result ≡ with_opening r b }
{
    if b == FORM_TWO {
        return with_stage(r, Stage::Units);
    }
    with_units(r, 1, b)
}

// The byte is n.
fn with_units(r: Reader, row: u8, b: u8) -> Reader
    ensures { result ≡ with_units r row b }
{
    if !in_sixteen(b) {
        return with_stage(r, Stage::Misshapen);
    }
    Reader {
        stage: Stage::Sizes,
        n: b,
        row,
        unit: 0,
        left: 0,
        low: 0,
        ..r
    }
}

// The byte is a size.
fn with_size(r: Reader, b: u8) -> Reader
    ensures { result ≡ with_size r b }
{
    if !in_sixteen(b) {
        return with_stage(r, Stage::Misshapen);
    }
    let sized = Reader {
        stage: Stage::Sizes,
        sizes: stored(r, b),
        ..r
    };
    if usize::from(r.unit) + 1 < usize::from(r.n) {
        return Reader {
            unit: r.unit + 1,
            ..sized
        };
    }
    let row = usize::from(r.row);
    to_run(sized, row, row + 1)
}

// The sizes, with this one at the unit's place.
fn stored(r: Reader, b: u8) -> [u8; 16]
    ensures { result ≡ set r.sizes r.unit b }
{
    let place = usize::from(r.unit);
    let mut sizes = r.sizes;
    if place < PLACES {
        sizes[place] = b;
    }
    sizes
}

// The byte is the low byte of a cost.
fn with_low(r: Reader, b: u8) -> Reader
    ensures { result ≡ with_low r b }
{
    Reader {
        stage: Stage::High,
        low: b,
        ..r
    }
}

// The byte is the high byte of a cost: behind the last of a run the next run begins.
fn with_high(r: Reader, b: u8) -> Reader
    ensures { result ≡ with_high r b }
{
    let done = one_cost(r, b);
    if 1 < r.left {
        return done;
    }
    to_run(done, usize::from(r.row), usize::from(r.unit) + 1)
}

// One cost more is in.
fn one_cost(r: Reader, b: u8) -> Reader
    ensures { result ≡ one_cost r b }
{
    Reader {
        stage: Stage::Low,
        left: r.left.saturating_sub(1),
        low: 0,
        refusal: found(r, b),
        ..r
    }
}

// 7 where the cost is refused by it; else what was found before.
fn found(r: Reader, b: u8) -> u8
    ensures { result ≡ cond (costs_good (test_of r.row) (r.low ∷ b ∷ []) 0 1) r.refusal 7 }
{
    if cost_good(r.row, r.low, b) {
        r.refusal
    } else {
        7
    }
}

// Check 7 of a cost: those of row 0 are unary costs.
fn cost_good(row: u8, low: u8, high: u8) -> bool
    ensures { result ≡ costs_good (test_of row) (low ∷ high ∷ []) 0 1 }
{
    let cost = [low, high];
    if row == 0 {
        table::unary_costs_good(&cost, 0, 1)
    } else {
        table::pair_costs_good(&cost, 0, 1)
    }
}

// The same, but for what is to come next.
fn with_stage(r: Reader, stage: Stage) -> Reader
    ensures { result ≡ with_stage r stage }
{
    Reader { stage, ..r }
}

// Before the run of a row with a unit, where there is such a unit; else before the next row's first run, where there is one.
#[tactic(auto, unfolding(crate::specs::Byte::to_run))]
fn to_run(r: Reader, row: usize, unit: usize) -> Reader
    requires { (row ≤ 255) × (unit ≤ 256) }
    ensures { result ≡ to_run r row unit }
{
    let n = usize::from(r.n);
    if unit <= n {
        at_run(r, row, unit)
    } else if row + 2 <= n {
        at_run(r, row + 1, row + 2)
    } else {
        at_end(r)
    }
}

// Before the first cost of a run.
fn at_run(r: Reader, row: usize, unit: usize) -> Reader
    requires { (row ≤ 255) × (unit ≤ 255) }
    ensures { result ≡ at_run r row unit }
{
    let left = values_of(r, row) * values_of(r, unit);
    Reader {
        stage: Stage::Low,
        row: row as u8,
        unit: unit as u8,
        left: left as u16,
        low: 0,
        ..r
    }
}

// Behind the last cost.
fn at_end(r: Reader) -> Reader
    ensures { result ≡ at_end r }
{
    Reader {
        stage: Stage::Whole,
        row: 0,
        unit: 0,
        left: 0,
        low: 0,
        ..r
    }
}

// How many values a row or a unit has; row 0 has one.
fn values_of(r: Reader, k: usize) -> usize
    ensures { (result ≡ values_of r.sizes k) × (result ≤ 255) }
{
    if k == 0 {
        return 1;
    }
    usize::from(r.sizes.get(k - 1).copied().unwrap_or(0))
}

// ---- what of a byte touches unit `own`

// It is written at `at`; gives the place after it.
pub(crate) fn keep(own: u8, r: Reader, b: u8, out: &mut [u8], at: usize) -> usize
    requires { at ≤ 8589934592 }
    ensures { Keeps out.old at (kept_of own r b) result out.new }
{
    match r.stage {
        Stage::Sizes => keep_zeros(own, r, b, out, at),
        Stage::Low | Stage::High => keep_cost(own, r, b, out, at),
        Stage::Opening | Stage::Units | Stage::Whole | Stage::Long | Stage::Misshapen => at,
    }
}

// The zeros that a table of form one lends for unary costs, once the unit's size is in.
fn keep_zeros(own: u8, r: Reader, b: u8, out: &mut [u8], at: usize) -> usize
    requires { at ≤ 8589934592 }
    ensures { Keeps out.old at (zeros_for own r b) result out.new }
{
    if !zeros_due(own, r, b) {
        return at;
    }
    let count = 2 * usize::from(b);
    let zeros = [0u8; 32];
    base::put(out, at, &zeros[..count]);
    at + count
}

// Whether the byte is the unit's size, in form one.
fn zeros_due(own: u8, r: Reader, b: u8) -> bool
    ensures { result ≡ zeros_due own r b }
{
    in_sixteen(b) && r.row == 1 && usize::from(r.unit) + 1 == usize::from(own)
}

// The byte itself, of a cost of a run that is the unit's.
fn keep_cost(own: u8, r: Reader, b: u8, out: &mut [u8], at: usize) -> usize
    requires { at ≤ 8589934592 }
    ensures { Keeps out.old at (touching own r b) result out.new }
{
    if !touches(own, r) {
        return at;
    }
    base::put(out, at, &[b]);
    at + 1
}

fn touches(own: u8, r: Reader) -> bool
    ensures { result ≡ (eqb r.row own || eqb r.unit own) }
{
    r.row == own || r.unit == own
}

// Whether the byte is 1 to 16.
fn in_sixteen(b: u8) -> bool
    ensures { result ≡ is_value places b }
{
    is_value(PLACES, usize::from(b))
}
