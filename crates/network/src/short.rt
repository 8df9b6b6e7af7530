// A message of a run: it is heard and taken out of the pool, and what is sent on it is put behind the others.

ghost use Rattle.std.specs.Prelude.{◌≡◌, ◌-◌, ◌*◌, ◌≤◌, length, take, drop, Ok};
ghost use Rattle.base.specs.Limits.{message_size, pool_cells, pool_size};
ghost use Rattle.base.specs.Bytes.Laws.{AllBytes};
ghost use Rattle.table.specs.Stream.{units_of};
ghost use Rattle.costs.specs.Gather.{sizes_in};
ghost use Rattle.message.specs.declared.Kind.TheVariants.{Estimate};
ghost use Rattle.message.specs.Sized.{Sized};
ghost use Rattle.message.specs.Decode.{put_into};
ghost use Rattle.message.specs.Unpack.{unpack_of};
ghost use Rattle.rules.specs.Way.{changed_by, reply_to};
ghost use Rattle.rules.specs.Laws.Range.{SizedUnit};
ghost use Rattle.rules.specs.Laws.Trusted.{seat_at};
ghost use Rattle.runs.specs.Calls.{receiver_of};
ghost use Rattle.runs.specs.Pool.Laws.{close_gap};
ghost use Rattle.runs.specs.Trusted.{Oldest};
ghost use Rattle.rules.specs.Trusted.{on_known};
ghost use Rattle.rules.specs.Ready.{decided_of};
ghost use Rattle.runs.specs.Short.{Passed, SentOn, Heard};

use crate::pool::close;
use base::MESSAGE_SIZE;
use costs::{Seat, ValueOrder};
use message::{Kind, Message};
use unit::{Decided, Unit, Way};

// What was heard: the message as it was read, the way that it goes, and how many messages were sent on it.
#[derive(Clone, Copy)]
pub(crate) struct Turn {
    pub kind: Kind,
    pub message: Message,
    pub way: Way,
    pub sent: u8,
}

// Unit 1's seat in a table.
pub(crate) fn first_seat(order: ValueOrder, stream: &[u8]) -> Seat
    ensures { result ≡ seat_at order 1 (units_of stream.now) (sizes_in stream.now) }
{
    Seat {
        own: 1,
        n: table::units_of(stream),
        sizes: costs::sizes_of(stream),
        order,
    }
}

// The seat of the unit that a packet is for, in the same table.
pub(crate) fn seat_of(any: Seat, packet: &[u8]) -> Seat
    ensures { (result ≡ seat_at any.order (receiver_of any.n packet.now) any.n any.sizes) × AllBytes packet.now }
{
    let mut seat = any;
    seat.own = shed_core::receiver(any.n, packet);
    seat
}

// The message at cell 0 is read, and leaves the pool if it goes a short way.
pub(crate) fn hear(
    seat: Seat,
    costs: &[u8],
    ahead: &[u32],
    u: Unit,
    pool: &mut [u8],
    used: u64,
) -> Turn
    requires { Oldest seat.order u seat.own seat.n seat.sizes costs.now ahead.now pool.old used }
    ensures { ((t : Oldest seat.order u seat.own seat.n seat.sizes costs.now ahead.now pool.old used) → Heard t result.way result.message result.sent pool.new) × (Ok (result.kind, result.message) ≡ unpack_of (take message_size (drop 0 pool.old))) × SizedUnit u }
{
    let (kind, message) = message::unpack(&pool[..MESSAGE_SIZE]).unwrap();
    let way = unit::way(seat, Ok((kind, message)), u);
    let sent = pass(way, seat, costs, ahead, message, pool, used as usize);
    Turn {
        kind,
        message,
        way,
        sent,
    }
}

// The unit with what the message changes.
pub(crate) fn changed(turn: Turn, u: Unit) -> Unit
    ensures { result ≡ changed_by turn.way turn.message u }
{
    unit::changed(turn.way, turn.message, u)
}

// What the message makes the unit do that goes the whole way.
pub(crate) fn decided(seat: Seat, costs: &[u8], ahead: &[u32], turn: Turn, u: Unit) -> Decided
    ensures { result ≡ decided_of u (on_known seat costs.now ahead.now u (Ok (turn.kind, turn.message))) }
{
    unit::respond(seat, costs, ahead, Ok((turn.kind, turn.message)), u)
}

// What the unit decided is sent: the message at cell 0 is taken out, and what is sent is put behind the others, straight into the pool.
pub(crate) fn send_on(seat: Seat, d: Decided, pool: &mut [u8], used: usize) -> u8
    requires { (1 ≤ used) × (used ≤ pool_cells) × (pool_size ≤ length pool.old) }
    ensures { SentOn seat d.sending pool.old used result pool.new }
{
    close(pool, 0, MESSAGE_SIZE * used);
    let at = MESSAGE_SIZE * (used - 1);
    unit::send(seat, d.sending, &mut pool[at..])
}

// What the way of the message at cell 0 does to the pool; how many messages are sent. The whole way does nothing yet.
fn pass(
    way: Way,
    seat: Seat,
    costs: &[u8],
    ahead: &[u32],
    m: Message,
    pool: &mut [u8],
    used: usize,
) -> u8
    requires { (1 ≤ used) × (used ≤ pool_cells) × (pool_size ≤ length pool.old) }
    ensures { Passed way seat costs.now ahead.now m pool.old used result pool.new }
{
    match way {
        Way::Quiet | Way::Store | Way::Lower => take_out(pool, used),
        Way::Reply | Way::Follow => answer(seat, costs, ahead, m, pool, used),
        Way::Whole => 0,
    }
}

// The message at cell 0 is taken out, and nothing is sent.
fn take_out(pool: &mut [u8], used: usize) -> u8
    requires { (1 ≤ used) × (used ≤ pool_cells) × (pool_size ≤ length pool.old) }
    ensures { (result ≡ 0) × (pool.new ≡ close_gap pool.old 0 (message_size * used)) }
{
    close(pool, 0, MESSAGE_SIZE * used);
    0
}

// The request at cell 0 is taken out, and the estimate that answers it is put behind the others.
fn answer(seat: Seat, costs: &[u8], ahead: &[u32], m: Message, pool: &mut [u8], used: usize) -> u8
    requires { (1 ≤ used) × (used ≤ pool_cells) × (pool_size ≤ length pool.old) }
    ensures { (result ≡ 1) × Sized (reply_to seat costs.now ahead.now m) × (pool.new ≡ put_into Estimate (reply_to seat costs.now ahead.now m) (close_gap pool.old 0 (message_size * used)) (message_size * (used - 1))) }
{
    let estimate = unit::reply(seat, costs, ahead, m);
    close(pool, 0, MESSAGE_SIZE * used);
    message::put(Kind::Estimate, estimate, pool, MESSAGE_SIZE * (used - 1)).unwrap();
    1
}
