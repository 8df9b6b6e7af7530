// The stored table: blocks of 512 bytes, and the stream that their payloads join to.
#![tactic(auto)]

mod converter; // one form of a stored table turned into the other
mod view; // the checks of a stream, plain or in blocks

ghost use Rattle.std.specs.Prelude.{◌≡◌, true, ◌++◌, ◌&&◌, ◌+◌, ◌*◌, ◌/◌, ◌≤◌, [], length, drop, replicate, leb, IfOk, IfErr};
ghost use Rattle.base.specs.Limits.{block_size, checked_size, pair_limit, payload_size, stream_size};
ghost use Rattle.base.specs.Bytes.{le16};
ghost use Rattle.base.specs.Put.{put_at};
ghost use Rattle.base.specs.Refusal.{number_of, told, answered};
ghost use Rattle.table.specs.Stream.{opening, units_of, pair_good, unary_good, costs_good, stream_refusal};
ghost use Rattle.table.specs.StreamLaws.{lift_of, within, test_of};
ghost use Rattle.table.specs.Block.{payload_count, payload_of, read_block_of, count_good, all_zero, block_refusal};
ghost use Rattle.table.specs.Written.{block_of};
ghost use Rattle.table.specs.File.{size_good, blocks_refusal, stream_of, read_refusal, read_of, read_into, store_of, store_into};
ghost use Rattle.table.specs.Block.{blocks_for};
ghost use Rattle.table.specs.Written.{file_from};
ghost use Rattle.table.specs.View.{BlocksAccepted};

use base::{BLOCK_SIZE, CHECKED_SIZE, FILE_SIZE, PAIR_LIMIT, PAYLOAD_SIZE, Refusal, STREAM_SIZE};
pub use converter::convert;
use view::View;

// The two forms of a stored table. 02, job 7: form two "opens with byte 200", and has unary costs.
#[derive(Clone, Copy, Debug, PartialEq, Eq)]
pub enum Form {
    One,
    Two,
}

// The two kinds of costs, each with its lift: what check 7 adds before it compares.
#[derive(Clone, Copy, Debug, PartialEq, Eq)]
enum Costs {
    Unary = 0,
    Pair = 1,
}

impl Costs {
    fn lift(self) -> u32
        ensures { (result ≡ lift_of self) × (result ≤ 1) }
    {
        self as u32
    }
}

// ---- public calls

// The payload of a block, as the part of it that holds it.
#[tactic(auto, unfolding(crate::specs::Block::read_block_of))]
pub fn read_block(block: &[u8], number: u16, last: bool) -> Result<&[u8], Refusal>
    ensures ok { IfOk result (λ part. (block_refusal number last block.now ≡ 0) × (part.now ≡ payload_of block.now) × (part.now ≡ read_block_of number last block.now)) }
    ensures err { IfErr result (λ refusal. (number_of refusal ≡ block_refusal number last block.now) × (read_block_of number last block.now ≡ [])) }
{
    check_block(block, number, last)?;
    Ok(payload(block))
}

// Whether a block that is read alone is accepted.
pub fn check_block(block: &[u8], number: u16, last: bool) -> Result<(), Refusal>
    ensures { told result ≡ block_refusal number last block.now }
{
    if block.len() != BLOCK_SIZE {
        return Err(Refusal::BadFile);
    }
    let checked = &block[0..CHECKED_SIZE];
    if base::u16_at(block, CHECKED_SIZE) != checksum::sum(checked) {
        return Err(Refusal::BadBlockCheck);
    }
    if base::u16_at(block, 0) != u32::from(number) {
        return Err(Refusal::BadBlock);
    }
    let count = base::u16_at(block, 2) as usize;
    if !payload_good(checked, last, count) {
        return Err(Refusal::BadPayload);
    }
    Ok(())
}

// The stream of a stored table into the lent buffer: validated whole, then written, so a refusal leaves the buffer as it was.
pub fn read(file: &[u8], stream: &mut [u8]) -> Result<usize, Refusal>
    ensures { (answered result ≡ read_of file.now (length stream.old)) × (stream.new ≡ read_into file.now stream.old) }
{
    check_file(file, stream.len())?;
    copy_blocks(file, stream);
    Ok(stream_length(file))
}

// The file of a stream into the lent buffer; a refusal, and the buffer's bytes past the file, leave it as it was.
pub fn write(stream: &[u8], file: &mut [u8]) -> Result<usize, Refusal>
    ensures { (answered result ≡ store_of stream.now (length file.old)) × (file.new ≡ store_into stream.now file.old) }
{
    check_stream(stream)?;
    let blocks = blocks_for(stream.len());
    if file.len() < BLOCK_SIZE * blocks {
        return Err(Refusal::NoRoom);
    }
    write_blocks(stream, blocks, file);
    Ok(BLOCK_SIZE * blocks)
}

// Whether a stream passes the checks 5, 6 and 7: one pass, nothing copied.
pub fn check_stream(stream: &[u8]) -> Result<(), Refusal>
    ensures { told result ≡ stream_refusal stream.now }
{
    View::of_stream(stream).check()
}

// How many bytes of a stream stand before n: in form two the first, in form one none.
pub fn opening(stream: &[u8]) -> usize
    ensures { (result ≡ opening stream.now) × (result ≤ 1) }
{
    View::of_stream(stream).opening()
}

// n of a stream; 0 where the stream ends before it.
pub fn units_of(stream: &[u8]) -> u8
    ensures { result ≡ units_of stream.now }
{
    base::byte_at(stream, opening(stream))
}

// Whether the `count` pair costs that stand in `bytes` from byte `from` on pass check 7; bytes past the end count as 0.
pub fn pair_costs_good(bytes: &[u8], from: usize, count: usize) -> bool
    ensures { result ≡ costs_good pair_good bytes.now from count }
{
    costs_good(bytes, from, count, Costs::Pair)
}

// The same of unary costs, none of which is forbidden.
pub fn unary_costs_good(bytes: &[u8], from: usize, count: usize) -> bool
    ensures { result ≡ costs_good unary_good bytes.now from count }
{
    costs_good(bytes, from, count, Costs::Unary)
}

// ---- costs

// Whether costs of the kind pass check 7. The limit is one number for both.
fn costs_good(bytes: &[u8], from: usize, count: usize, kind: Costs) -> bool
    ensures { result ≡ costs_good (test_of kind) bytes.now from count }
{
    if bytes.len() <= from {
        return true;
    }
    let whole = count.min((bytes.len() - from) / 2);
    let end = from + 2 * whole;
    let lift = kind.lift();
    highest(&bytes[from..end], whole, lift) <= PAIR_LIMIT + lift
}

// The highest of the costs that the bytes hold, each lifted: pair costs by 1, so that the forbidden one, the last of 16 bits, comes round to 0.
// No test ends the loop early, so that a compiler can compare many costs at once.
fn highest(costs: &[u8], count: usize, lift: u32) -> u32
    requires { (length costs.now ≡ 2 * count) × (lift ≤ 1) }
    ensures { costs_good (within lift) costs.now 0 count ≡ leb result (pair_limit + lift) }
{
    let mut most: u32 = 0;
    for i in 0..count {
        let cost = u32::from(costs[2 * i]) + 256 * u32::from(costs[2 * i + 1]);
        most = most.max((cost + lift) % 65536);
    }
    most
}

// ---- blocks

// The payload of a block with a good count.
fn payload<'a>(block: &'a [u8]) -> &'a [u8]
    requires { 4 + payload_count block.now ≤ length block.now }
    ensures { result.now ≡ payload_of block.now }
{
    let end = 4 + base::u16_at(block, 2) as usize;
    &block[4..end]
}

// Whether the payload count fits, and the bytes after the payload are zero, in a block without its check.
fn payload_good(checked: &[u8], last: bool, count: usize) -> bool
    requires { length checked.now ≡ checked_size }
    ensures { result ≡ (count_good last count && all_zero (drop (4 + count) checked.now)) }
{
    count_good(last, count) && all_zero(&checked[4 + count..])
}

// Whether a payload count fits the block's place: 506, or 1 to 506 in the last.
fn count_good(last: bool, count: usize) -> bool
    ensures { result ≡ count_good last count }
{
    if last {
        base::is_value(PAYLOAD_SIZE, count)
    } else {
        count == PAYLOAD_SIZE
    }
}

// Whether all of the bytes are zero.
#[tactic(auto, unfolding(crate::specs::Block::all_zero))]
fn all_zero(bytes: &[u8]) -> bool
    ensures { result ≡ all_zero bytes.now }
{
    bytes.iter().all(|b| *b == 0)
}

// ---- files, read

// Whether a file can be read into a buffer of `room` bytes.
fn check_file(file: &[u8], room: usize) -> Result<(), Refusal>
    ensures { told result ≡ read_refusal file.now room }
{
    if room < STREAM_SIZE {
        return Err(Refusal::NoRoom);
    }
    if !size_good(file.len()) {
        return Err(Refusal::BadFile);
    }
    check_blocks(file)?;
    View::of_file(file).check()
}

// Whether a file's length is that of 1 to 123 blocks.
fn size_good(length: usize) -> bool
    ensures { result ≡ size_good length }
{
    length != 0 && length % BLOCK_SIZE == 0 && length <= FILE_SIZE
}

// Whether each of a file's blocks is accepted.
fn check_blocks(file: &[u8]) -> Result<(), Refusal>
    requires { size_good (length file.now) ≡ true }
    ensures { told result ≡ blocks_refusal 0 (length file.now / block_size) file.now }
{
    let blocks = file.len() / BLOCK_SIZE;
    for k in 0..blocks {
        let start = BLOCK_SIZE * k;
        let end = start + BLOCK_SIZE;
        check_block(&file[start..end], k as u16, k + 1 == blocks)?;
    }
    Ok(())
}

// How long the stream of a file with accepted blocks is.
fn stream_length(file: &[u8]) -> usize
    requires { BlocksAccepted file.now }
    ensures { result ≡ length (stream_of file.now) }
{
    let before = file.len() / BLOCK_SIZE - 1;
    PAYLOAD_SIZE * before + base::u16_at(file, BLOCK_SIZE * before + 2) as usize
}

// The payloads of a file with accepted blocks, one behind the other, to the front of `out`.
fn copy_blocks(file: &[u8], out: &mut [u8])
    requires { BlocksAccepted file.now × (length (stream_of file.now) ≤ length out.old) }
    ensures { out.new ≡ stream_of file.now ++ drop (length (stream_of file.now)) out.old }
{
    let blocks = file.len() / BLOCK_SIZE;
    for k in 0..blocks {
        let start = BLOCK_SIZE * k;
        let end = start + BLOCK_SIZE;
        put(out, PAYLOAD_SIZE * k, payload(&file[start..end]));
    }
}

// ---- files, written

// How many blocks carry so many bytes.
fn blocks_for(length: usize) -> usize
    requires { length ≤ stream_size }
    ensures { result ≡ blocks_for length }
{
    length.div_ceil(PAYLOAD_SIZE)
}

// The blocks of a stream, to the front of `file`.
fn write_blocks(stream: &[u8], blocks: usize, file: &mut [u8])
    requires { (length stream.now ≤ stream_size) × (blocks ≡ blocks_for (length stream.now)) × (block_size * blocks ≤ length file.old) }
    ensures { file.new ≡ file_from 0 blocks stream.now ++ drop (block_size * blocks) file.old }
{
    for k in 0..blocks {
        let from = PAYLOAD_SIZE * k;
        let to = stream.len().min(from + PAYLOAD_SIZE);
        let start = BLOCK_SIZE * k;
        let end = start + BLOCK_SIZE;
        fill_block(&mut file[start..end], k as u16, &stream[from..to]);
    }
}

// The block of that number that carries the payload.
fn fill_block(block: &mut [u8], number: u16, payload: &[u8])
    requires { (length block.old ≡ block_size) × (length payload.now ≤ payload_size) }
    ensures { block.new ≡ block_of number payload.now }
{
    let count = payload.len();
    put_u16(block, 0, number);
    put_u16(block, 2, count as u16);
    put(block, 4, payload);
    let used = 4 + count;
    put_zeros(block, used, CHECKED_SIZE - used);
    let check = checksum::sum(&block[0..CHECKED_SIZE]);
    put_u16(block, CHECKED_SIZE, check as u16);
}

// The two bytes of a number, at a place.
fn put_u16(out: &mut [u8], at: usize, x: u16)
    requires { at + 2 ≤ length out.old }
    ensures { out.new ≡ put_at out.old at (le16 x) }
{
    put(out, at, &x.to_le_bytes());
}

// The bytes, at a place where they fit.
fn put(out: &mut [u8], at: usize, bytes: &[u8])
    requires { at + length bytes.now ≤ length out.old }
    ensures { out.new ≡ put_at out.old at bytes.now }
{
    let end = at + bytes.len();
    out[at..end].copy_from_slice(bytes);
}

// Zeros, at a place.
fn put_zeros(out: &mut [u8], at: usize, count: usize)
    requires { at + count ≤ length out.old }
    ensures { out.new ≡ put_at out.old at (replicate count 0) }
{
    let end = at + count;
    out[at..end].fill(0);
}
