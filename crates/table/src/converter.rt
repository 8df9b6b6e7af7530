// Converting a stored table into the other form, a block at a time: the stream is nowhere held whole.

ghost use Rattle.std.specs.Prelude.{◌≡◌, true, false, ◌++◌, ◌+◌, ◌*◌, ◌≤◌, ◌<◌, length, get_or, take, drop};
ghost use Rattle.base.specs.Limits.{block_size, payload_size, stream_size};
ghost use Rattle.base.specs.Refusal.{answered};
ghost use Rattle.table.specs.Stream.{in_form_two, opening};
ghost use Rattle.table.specs.Block.{all_zero, blocks_for};
ghost use Rattle.table.specs.Written.{file_of};
ghost use Rattle.table.specs.File.{stream_of, read_refusal};
ghost use Rattle.table.specs.Form.{convert_of, convert_into};
ghost use Rattle.table.specs.Form.Pieces.{Within, ShapeOf, same_form, to_two_pieces, to_one_pieces, pieces_of};

use crate::view::{View, place_in_file};
use crate::{Form, blocks_for, check_file, fill_block, stream_length};
use base::{BLOCK_SIZE, FORM_TWO, PAYLOAD_SIZE, Refusal, STREAM_SIZE};

// How the stream of the result is made of the file's: `front` bytes 200, `head` bytes from byte `from` on, zeros, and all from byte `rest` on.
// What stands between head and rest is left out: the unary costs, on the way to form one.
#[derive(Clone, Copy)]
struct Pieces {
    front: usize,
    from: usize,
    head: usize,
    zeros: usize,
    rest: usize,
}

// An accepted file.
#[derive(Clone, Copy)]
struct Table<'a> {
    bytes: &'a [u8],
    ghost accepted: { read_refusal bytes.now stream_size ≡ 0 },
}

// The result's stream, by the pieces that make it.
#[derive(Clone, Copy)]
struct Pieced<'a> {
    table: Table<'a>,
    pieces: Pieces,
    ghost within: { Within pieces (stream_of table.bytes.now) },
}

// How many units there are, and how many values they have together.
#[derive(Clone, Copy)]
struct Shape {
    n: usize,
    values: usize,
}

// The file in the form wanted into the lent buffer: validated whole, then written, so a refusal leaves the buffer as it was.
pub fn convert(file: &[u8], form: Form, out: &mut [u8]) -> Result<usize, Refusal>
    ensures { (answered result ≡ convert_of form file.now (length out.old)) × (out.new ≡ convert_into form file.now out.old) }
{
    check_file(file, STREAM_SIZE)?;
    let table = Table { bytes: file };
    let pieces = table.pieces_of(form);
    let made = Pieced { table, pieces };
    let blocks = blocks_for(made.len());
    if out.len() < BLOCK_SIZE * blocks {
        return Err(Refusal::NoRoom);
    }
    // what is left out could not be had back
    if !table.zero_between(pieces.from + pieces.head, pieces.rest) {
        return Err(Refusal::HasUnary);
    }
    made.write(out);
    Ok(BLOCK_SIZE * blocks)
}

// ---- what the result is made of

impl<'a> Table<'a> {
    // By the form wanted, and the form that the first byte says.
    fn pieces_of(&self, form: Form) -> Pieces
        ensures { result ≡ pieces_of form (stream_of self.now.bytes.now) }
    {
        let two = self.in_form_two();
        match form {
            Form::One => {
                if two {
                    self.pieces_to_one()
                } else {
                    as_it_is()
                }
            }
            Form::Two => {
                if two {
                    as_it_is()
                } else {
                    self.pieces_to_two()
                }
            }
        }
    }

    // Whether the stream is in form two.
    fn in_form_two(&self) -> bool
        ensures { result ≡ in_form_two (stream_of self.now.bytes.now) }
    {
        self.byte(0) == FORM_TWO
    }

    // Byte 200, n and the sizes, unary costs of zero, the pair costs.
    fn pieces_to_two(&self) -> Pieces
        requires { in_form_two (stream_of self.now.bytes.now) ≡ false }
        ensures { result ≡ to_two_pieces (stream_of self.now.bytes.now) }
    {
        let shape = self.shape(0);
        Pieces {
            front: 1,
            from: 0,
            head: 1 + shape.n,
            zeros: 2 * shape.values,
            rest: 1 + shape.n,
        }
    }

    // n and the sizes, the pair costs.
    fn pieces_to_one(&self) -> Pieces
        requires { in_form_two (stream_of self.now.bytes.now) ≡ true }
        ensures { result ≡ to_one_pieces (stream_of self.now.bytes.now) }
    {
        let shape = self.shape(1);
        Pieces {
            front: 0,
            from: 1,
            head: 1 + shape.n,
            zeros: 0,
            rest: 2 + shape.n + 2 * shape.values,
        }
    }

    // What n and the sizes of the stream say, `before` bytes standing before n.
    fn shape(&self, before: usize) -> Shape
        requires { (before ≡ opening (stream_of self.now.bytes.now)) × (before ≤ 1) }
        ensures { ShapeOf (stream_of self.now.bytes.now) result }
    {
        let n = usize::from(self.byte(before));
        let values = View::of_file(self.bytes).sum_sizes(before + 1, n);
        Shape { n, values }
    }

    // Whether bytes `from` to `to` of the stream are zero.
    fn zero_between(&self, from: usize, to: usize) -> bool
        requires { (from ≤ to) × (to ≤ length (stream_of self.now.bytes.now)) }
        ensures { result ≡ all_zero (drop from (take to (stream_of self.now.bytes.now))) }
    {
        for k in from..to {
            if self.byte(k) != 0 {
                return false;
            }
        }
        true
    }

    // How long the stream is.
    fn len(&self) -> usize
        ensures { result ≡ length (stream_of self.now.bytes.now) }
    {
        stream_length(self.bytes)
    }

    // Byte k of the stream.
    fn byte(&self, k: usize) -> u8
        requires { k < length (stream_of self.now.bytes.now) }
        ensures { result ≡ get_or (stream_of self.now.bytes.now) k 0 }
    {
        base::byte_at(self.bytes, place_in_file(k))
    }
}

// The stream as it is.
fn as_it_is() -> Pieces
    ensures { result ≡ same_form }
{
    Pieces {
        front: 0,
        from: 0,
        head: 0,
        zeros: 0,
        rest: 0,
    }
}

// ---- its bytes, and its blocks

impl<'a> Pieced<'a> {
    ghost use Rattle.table.specs.Form.Made.{made};

    // How long the stream is.
    fn len(&self) -> usize
        ensures { result ≡ length (made self.now) }
    {
        let p = self.pieces;
        p.front + p.head + p.zeros + (self.table.len() - p.rest)
    }

    // Byte k.
    fn byte(&self, k: usize) -> u8
        requires { k < length (made self.now) }
        ensures { result ≡ get_or (made self.now) k 0 }
    {
        let pieces = self.pieces;
        if k < pieces.front {
            return FORM_TWO;
        }
        let behind = k - pieces.front;
        if behind < pieces.head {
            return self.table.byte(pieces.from + behind);
        }
        let last = behind - pieces.head;
        if last < pieces.zeros {
            return 0;
        }
        self.table.byte(pieces.rest + (last - pieces.zeros))
    }

    // Bytes `from` to `from + count`, and zeros behind them.
    fn payload(&self, from: usize, count: usize) -> [u8; PAYLOAD_SIZE]
        requires { (from + count ≤ length (made self.now)) × (count ≤ payload_size) }
        ensures { take count result ≡ take count (drop from (made self.now)) }
    {
        let mut payload = [0u8; PAYLOAD_SIZE];
        for i in 0..count {
            payload[i] = self.byte(from + i);
        }
        payload
    }

    // The blocks of the stream, to the front of `out`.
    fn write(&self, out: &mut [u8])
        requires { block_size * blocks_for (length (made self.now)) ≤ length out.old }
        ensures { out.new ≡ file_of (made self.now) ++ drop (length (file_of (made self.now))) out.old }
    {
        let count = self.len();
        let blocks = blocks_for(count);
        for k in 0..blocks {
            let from = PAYLOAD_SIZE * k;
            let used = PAYLOAD_SIZE.min(count - from);
            let payload = self.payload(from, used);
            let start = BLOCK_SIZE * k;
            let end = start + BLOCK_SIZE;
            fill_block(&mut out[start..end], k as u16, &payload[..used]);
        }
    }
}
