// A box starts from the blocks of its stored table, one after the other: the costs that touch its unit are gathered out of them, and the stream
// is never held whole.
#![tactic(auto)]

mod byte; // what a byte of the stream does, and what of it touches the unit

ghost use Rattle.std.specs.Prelude.{◌≡◌, cond, ◌+◌, ◌≤◌, ◌<◌, length, IfOk, IfErr};
ghost use Rattle.start.specs.Byte.{after, kept, filled, end_refusal};
ghost use Rattle.table.specs.Block.{block_refusal, payload_of};
ghost use Rattle.start.specs.Block.{fresh, last_refusal, unless, answer_of, start_of, start_into};

use base::{COSTS_SIZE, Refusal, is_value};

// 02, job 7: "at most 123 blocks".
const MOST_BLOCKS: u16 = 123;

// What the next byte of the stream is: the first of all; n of a table of form two; a size; the low or the high byte of a cost; none, as the
// stream is whole; none, and yet there were more; or any, as n or a size is refused by 5.
#[derive(Clone, Copy, Debug, PartialEq, Eq)]
pub enum Stage {
    Opening,
    Units,
    Sizes,
    Low,
    High,
    Whole,
    Long,
    Misshapen,
}

// How far a stream is in: n and the sizes, as far as they are in, and where its costs are.
// Costs come in runs, those of one unit with another; `row` and `unit` are the numbers of the two, and row 0 stands before all units, for a
// unit's costs alone. Until then `row` is the first row of the table, 0 in form two and 1 in form one, and `unit` counts the sizes that are in.
// `left` costs of the run are to come; the low byte of the first of them may be in. `refusal` is 7 once a cost was refused by it. It is a number, and
// so is what a block is refused by, as C lends the state and may lend any number there: it is what the last block is then refused by.
#[derive(Clone, Copy, Debug, PartialEq, Eq)]
pub struct Reader {
    pub stage: Stage,
    pub n: u8,
    pub sizes: [u8; 16],
    pub row: u8,
    pub unit: u8,
    pub left: u16,
    pub low: u8,
    pub refusal: u8,
}

// How far a box has come with its table: its own number, how many blocks are in, how many bytes of costs were gathered, and how far the stream is.
#[derive(Clone, Copy, Debug, PartialEq, Eq)]
pub struct Start {
    pub own: u8,
    pub blocks: u16,
    pub count: u32,
    pub reader: Reader,
}

// ---- public calls

// Before the first block.
pub fn begin(own: u8) -> Start
    ensures { result ≡ fresh own }
{
    let reader = Reader {
        stage: Stage::Opening,
        n: 0,
        sizes: [0; 16],
        row: 0,
        unit: 0,
        left: 0,
        low: 0,
        refusal: 0,
    };
    Start {
        own,
        blocks: 0,
        count: 0,
        reader,
    }
}

// One block more: what of it touches the unit is written behind what was gathered before. Gives, with the last block, how many bytes of costs
// there are, and 0 before; or the refusal, by number, and then state and costs are as they were.
pub fn take_block(
    state: &mut Start,
    block: &[u8],
    last: bool,
    costs: &mut [u8],
) -> Result<usize, u8>
    ensures { (result ≡ answer_of (start_of state.old block.now last (length costs.old))) × (state.new ≡ (start_of state.old block.now last (length costs.old)).start) × (costs.new ≡ start_into state.old block.now last costs.old) }
{
    if costs.len() < COSTS_SIZE {
        return Err(Refusal::NoRoom.number());
    }
    if MOST_BLOCKS <= state.blocks {
        return Err(Refusal::BadFile.number());
    }
    // the stream is read on before anything is written, as a refusal leaves the costs alone
    let payload = read_payload(block, state.blocks, last)?;
    let before = state.reader;
    let reader = read_bytes(before, payload);
    check_last(last, state.own, reader)?;
    let count = keep_bytes(state.own, before, state.count as usize, payload, costs);
    state.blocks += 1;
    state.count = (count % 4294967296) as u32;
    state.reader = reader;
    Ok(if last { state.count as usize } else { 0 })
}

// ---- what a block gives

// The payload of a block that is accepted.
fn read_payload(block: &[u8], number: u16, last: bool) -> Result<&[u8], u8>
    ensures ok { IfOk result (λ part. (block_refusal number last block.now ≡ 0) × (part.now ≡ payload_of block.now)) }
    ensures err { IfErr result (λ refusal. (refusal ≡ block_refusal number last block.now) × (1 ≤ refusal)) }
{
    match table::read_block(block, number, last) {
        Ok(payload) => Ok(payload),
        Err(refusal) => Err(refusal.number()),
    }
}

// What only the last block tells.
fn check_last(last: bool, own: u8, reader: Reader) -> Result<(), u8>
    ensures { result ≡ unless (cond last (last_refusal own reader) 0) }
{
    if !last {
        return Ok(());
    }
    check_end(reader)?;
    if is_value(usize::from(reader.n), usize::from(own)) {
        Ok(())
    } else {
        Err(Refusal::BadUnit.number())
    }
}

// Whether the stream may end there.
fn check_end(reader: Reader) -> Result<(), u8>
    ensures { result ≡ unless (end_refusal reader) }
{
    match reader.stage {
        Stage::Whole if reader.refusal == 0 => Ok(()),
        Stage::Whole => Err(reader.refusal),
        Stage::Misshapen => Err(Refusal::OutOfRange.number()),
        Stage::Opening | Stage::Units | Stage::Sizes | Stage::Low | Stage::High | Stage::Long => {
            Err(Refusal::BadLength.number())
        }
    }
}

// ---- the bytes of a payload, one after the other

// How far the stream is behind them.
fn read_bytes(from: Reader, bytes: &[u8]) -> Reader
    ensures { result ≡ after from bytes.now }
{
    let mut reader = from;
    for b in bytes {
        reader = byte::after_byte(reader, *b);
    }
    reader
}

// What of them touches the unit, written from `at` on; gives the place after it.
fn keep_bytes(own: u8, from: Reader, at: usize, bytes: &[u8], costs: &mut [u8]) -> usize
    requires { (at < 4294967296) × (length bytes.now ≤ 506) }
    ensures { (result ≡ at + length (kept own from bytes.now)) × (costs.new ≡ filled own from at bytes.now costs.old) }
{
    let mut reader = from;
    let mut place = at;
    for b in bytes {
        place = byte::keep(own, reader, *b, costs, place);
        reader = byte::after_byte(reader, *b);
    }
    place
}
