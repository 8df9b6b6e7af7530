// What a unit sends, laid into the lent buffer: one message after the other, 64 bytes each.

ghost use Rattle.std.specs.Prelude.{◌≡◌, Bool, ◌+◌, ◌*◌, ◌-◌, ◌≤◌, length};
ghost use Rattle.base.specs.Limits.{message_size};
ghost use Rattle.base.specs.Put.{put_at};
ghost use Rattle.message.specs.Sized.{Sized};
ghost use Rattle.rules.specs.declared.Plan.TheVariants.{Forward, Back};
ghost use Rattle.rules.specs.Send.{with_receiver, sent_to, without_bound, bound_only, each, hand_back, by_plan, packets, encode_all, laid};
ghost use Rattle.rules.specs.Trusted.{can_send, send_to};
ghost use Rattle.rules.specs.Laying.{Placed};

use costs::Seat;
use message::{Kind, Message};
use rules::{Plan, Sending};

// What a unit decided is laid at the front, if all of it fits; how many messages.
pub fn send(seat: Seat, s: Sending, out: &mut [u8]) -> u8
    ensures { (result ≡ length (send_to seat s (length out.old))) × (out.new ≡ laid (send_to seat s (length out.old)) out.old) }
{
    if can_send(seat, s, out.len()) {
        lay(seat, s, out)
    } else {
        0
    }
}

// Whether a unit sends this into so many bytes.
fn can_send(seat: Seat, s: Sending, room: usize) -> bool
    ensures { result ≡ can_send seat s room }
{
    message::is_unit(seat.n, seat.own)
        && seat.n <= 16
        && base::MESSAGE_SIZE * count(seat, s) <= room
}

// How many messages a plan has.
fn count(seat: Seat, s: Sending) -> usize
    requires { Placed seat }
    ensures { (result ≡ length (packets seat.n (seat.own - 1) s)) × (result ≤ 32) }
{
    match s.plan {
        Plan::Nothing => 0,
        Plan::Forward => usize::from(seat.n - seat.own) + 1,
        Plan::Back => count_back(seat, s.improved),
        Plan::Reply => 1,
    }
}

// How many are handed back, with the solutions behind if unit n improved.
fn count_back(seat: Seat, improved: bool) -> usize
    requires { Placed seat }
    ensures { ((m : Message) → Sized m → result ≡ length (by_plan seat.n (seat.own - 1) Back improved m)) × (result ≤ 32) }
{
    let handed = count_handed(seat);
    if improved {
        handed + usize::from(seat.n - 1)
    } else {
        handed
    }
}

// The cpa alone; from unit 1 a stop to each of the others.
fn count_handed(seat: Seat) -> usize
    requires { Placed seat }
    ensures { ((m : Message) → Sized m → result ≡ length (hand_back seat.n (seat.own - 1) m)) × (result ≤ 16) }
{
    if seat.own == 1 {
        usize::from(seat.n - 1)
    } else {
        1
    }
}

// The messages of a plan are laid at the front; how many.
pub(crate) fn lay(seat: Seat, s: Sending, out: &mut [u8]) -> u8
    requires { Placed seat × (message_size * length (packets seat.n (seat.own - 1) s) ≤ length out.old) }
    ensures { (result ≡ length (packets seat.n (seat.own - 1) s)) × (out.new ≡ laid (packets seat.n (seat.own - 1) s) out.old) }
{
    let m = s.message;
    match s.plan {
        Plan::Nothing => 0,
        Plan::Forward => forward(seat, m, out),
        Plan::Back => back(seat, s.improved, m, out),
        Plan::Reply => {
            let _ = message::put(Kind::Estimate, m, out, 0);
            1
        }
    }
}

// The cpa to the next unit, a request to every later one.
fn forward(seat: Seat, m: Message, out: &mut [u8]) -> u8
    requires { Placed seat × (message_size * (seat.n - seat.own + 1) ≤ length out.old) }
    ensures { (b : Bool) → (result ≡ length (by_plan seat.n (seat.own - 1) Forward b m)) × (out.new ≡ laid (by_plan seat.n (seat.own - 1) Forward b m) out.old) }
{
    let sent = spread(Kind::Cpa, m, seat.own, 1, out, 0);
    let requests = seat.n - seat.own;
    spread(Kind::Request, no_bound(m), seat.own, requests, out, sent)
}

// The cpa or the stops, and solutions behind it if unit n improved.
fn back(seat: Seat, improved: bool, m: Message, out: &mut [u8]) -> u8
    requires { Placed seat × (message_size * length (by_plan seat.n (seat.own - 1) Back improved m) ≤ length out.old) }
    ensures { (result ≡ length (by_plan seat.n (seat.own - 1) Back improved m)) × (out.new ≡ laid (by_plan seat.n (seat.own - 1) Back improved m) out.old) }
{
    let sent = hand_back(seat, m, out);
    if !improved {
        return sent;
    }
    let solution = bound_only(m);
    let lower = spread(Kind::Solution, solution, 0, seat.own - 1, out, sent);
    spread(
        Kind::Solution,
        solution,
        seat.own,
        seat.n - seat.own,
        out,
        lower,
    )
}

// The cpa to the unit before; from unit 1 a stop to all others.
fn hand_back(seat: Seat, m: Message, out: &mut [u8]) -> u8
    requires { Placed seat × (message_size * length (hand_back seat.n (seat.own - 1) m) ≤ length out.old) }
    ensures { (result ≡ length (hand_back seat.n (seat.own - 1) m)) × (out.new ≡ laid (hand_back seat.n (seat.own - 1) m) out.old) }
{
    if seat.own == 1 {
        spread(Kind::Stop, bound_only(m), 1, seat.n - 1, out, 0)
    } else {
        spread(Kind::Cpa, m, seat.own - 2, 1, out, 0)
    }
}

// One message to `count` units, those after unit `lo`, laid behind the first `sent` messages; how many there are then.
fn spread(kind: Kind, m: Message, lo: u8, count: u8, out: &mut [u8], sent: u8) -> u8
    requires { (lo + count ≤ 32) × (sent + count ≤ 32) × (message_size * (sent + count) ≤ length out.old) }
    ensures { (result ≡ sent + count) × (out.new ≡ put_at out.old (message_size * sent) (encode_all (each (sent_to kind m) lo count))) }
{
    for i in 0..count {
        let to = address(m, lo + i + 1);
        let at = base::MESSAGE_SIZE * usize::from(sent + i);
        let _ = message::put(kind, to, out, at);
    }
    sent + count
}

// The same message to this receiver.
fn address(m: Message, receiver: u8) -> Message
    ensures { result ≡ with_receiver receiver m }
{
    Message { receiver, ..m }
}

// A cpa's fields as a request has them.
fn no_bound(m: Message) -> Message
    ensures { result ≡ without_bound m }
{
    Message {
        bound: 0,
        best: [0; 16],
        ..m
    }
}

// A cpa's fields as a solution or a stop has them.
fn bound_only(m: Message) -> Message
    ensures { result ≡ bound_only m }
{
    Message {
        stamp: [0; 16],
        values: [0; 16],
        cost: 0,
        ..m
    }
}
