// How far a box is with the blocks of its table, as C lends it, with a number for the stage: read, and handed back.

ghost use Rattle.std.specs.Prelude.{◌≡◌};
ghost use Rattle.cabi.specs.Begun.{stage_of, stage_number, start_from, lent_start, started_by};

use crate::{LentStart, LentStarted, Sizes};
use start::{Reader, Stage, Start};

// The state that is lent.
pub(crate) fn start_from(s: LentStart) -> Start
    ensures { result ≡ start_from s }
{
    let stage = stage_of(s.stage);
    let lent = s.sizes;
    let sizes = lent.places;
    let reader = Reader {
        stage,
        n: s.n,
        sizes,
        row: s.row,
        unit: s.unit,
        left: s.left,
        low: s.low,
        refusal: s.refusal,
    };
    Start {
        own: s.own,
        blocks: s.blocks,
        count: s.count,
        reader,
    }
}

// A state with its stage as a number.
pub(crate) fn lent_start(t: Start) -> LentStart
    ensures { result ≡ lent_start t }
{
    let reader = t.reader;
    let stage = reader.stage;
    let places = reader.sizes;
    let sizes = Sizes { places };
    LentStart {
        own: t.own,
        stage: stage_number(stage),
        blocks: t.blocks,
        count: t.count,
        n: reader.n,
        sizes,
        row: reader.row,
        unit: reader.unit,
        low: reader.low,
        left: reader.left,
        refusal: reader.refusal,
    }
}

// What a block gives, and the state then: refused, it is as it was lent.
pub(crate) fn started_back(s: LentStart, r: Result<usize, u8>, t: Start) -> LentStarted
    ensures { result ≡ started_by s r t }
{
    match r {
        Ok(length) => {
            let start = lent_start(t);
            LentStarted {
                refusal: 0,
                length,
                start,
            }
        }
        Err(refusal) => LentStarted {
            refusal,
            length: 0,
            start: s,
        },
    }
}

// The stage of a number; any other stands for the last.
fn stage_of(number: u8) -> Stage
    ensures { result ≡ stage_of number }
{
    match number {
        0 => Stage::Opening,
        1 => Stage::Units,
        2 => Stage::Sizes,
        3 => Stage::Low,
        4 => Stage::High,
        5 => Stage::Whole,
        6 => Stage::Long,
        _ => Stage::Misshapen,
    }
}

fn stage_number(stage: Stage) -> u8
    ensures { result ≡ stage_number stage }
{
    match stage {
        Stage::Opening => 0,
        Stage::Units => 1,
        Stage::Sizes => 2,
        Stage::Low => 3,
        Stage::High => 4,
        Stage::Whole => 5,
        Stage::Long => 6,
        Stage::Misshapen => 7,
    }
}
