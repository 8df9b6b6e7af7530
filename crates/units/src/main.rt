// Makes units and feeds them the packets of data/steps, and says what comes of each: the numbers handed back, the state, and the
// messages sent. A record of the file has 160 bytes: 31 of name; 0 for making and 1 for a step, values tried ascending, 2 and 3 for the
// same with no order named; own number; n; 16 sizes; how many
// bytes of costs, and 32 for them; how many bytes of packet, and 65 for them; 1 where the output lent is a byte too short; what the
// state's first threshold byte is set to before the step, if not 0.
// Each step goes on from the state that the record before left. What is sent is printed, and goes to no unit.
#![tactic(auto)]

ghost use Rattle.std.specs.Prelude.{◌+◌, ◌<◌};

use base::{MESSAGE_SIZE, SENDING_SIZE};
use message::Message;
use unit::{Outcome, Unit, ValueOrder};

const RECORD: usize = 160;

fn main(rt: HostRuntime) {
    let mut file = [0; 20480];
    if let Some(n) = inputs::read(&rt, "steps", &mut file) {
        run(&rt, &file[..n]);
    }
}

// Each record, from the state that the one before left.
fn run(rt: &impl Print, file: &[u8]) {
    let (records, _) = file.as_chunks::<RECORD>();
    let mut u = unit::no_unit();
    for record in records {
        u = step(rt, u, record);
    }
}

// One record: its name, what comes of it, and the state then.
fn step(rt: &impl Print, u: Unit, r: &[u8; RECORD]) -> Unit {
    let _ = rt.write_all(&r[..31]);
    let mut out = [0; SENDING_SIZE];
    let room = if r[150] == 0 {
        SENDING_SIZE
    } else {
        SENDING_SIZE - 1
    };
    let o = call(u, r, &mut out[..room]);
    told(rt, r, o, &out[..room])
}

// Making, or a step with the record's packet.
fn call(u: Unit, r: &[u8; RECORD], out: &mut [u8]) -> Outcome {
    let (own, n) = (r[32], r[33]);
    let sizes = sizes_in(r);
    let costs = part(r, 50, 32);
    let packet = part(r, 83, 65);
    match r[31] {
        0 => unit::make_by(ValueOrder::Ascending, own, n, sizes, costs, out),
        2 => unit::make(own, n, sizes, costs, out),
        3 => unit::step(begun(u, r), own, n, sizes, costs, packet, out),
        _ => unit::step_by(
            ValueOrder::Ascending,
            begun(u, r),
            own,
            n,
            sizes,
            costs,
            packet,
            out,
        ),
    }
}

// The state before a step.
fn begun(u: Unit, r: &[u8; RECORD]) -> Unit {
    let mut v = u;
    if r[151] != 0 {
        v.threshold[0] = r[151];
    }
    v
}

// The bytes behind their number at `at`, at most `most` of them.
fn part(r: &[u8; RECORD], at: usize, most: usize) -> &[u8]
    requires { at + most < 160 }
{
    let n = usize::from(r[at]);
    if most < n {
        return &[];
    }
    &r[at + 1..at + 1 + n]
}

fn sizes_in(r: &[u8; RECORD]) -> [u8; 16] {
    let mut sizes = [0; 16];
    sizes.copy_from_slice(&r[34..50]);
    sizes
}

// What a call gave: the refusal's number, or the records, the state and the messages sent.
fn told(rt: &impl Print, r: &[u8; RECORD], o: Outcome, out: &[u8]) -> Unit {
    if o.refusal != 0 {
        print::print_refusal(o.refusal);
    } else {
        print::print_number(b" records ", u32::from(o.records));
        state(rt, o.unit);
        sent(rt, r[33], sizes_in(r), o.sent, out);
    }
    o.unit
}

fn state(rt: &impl Print, u: Unit) {
    print::print_places(b" threshold", u.threshold);
    print::print_places(b" estimates", u.estimates);
    print::print_number(b" counter ", u32::from(u.counter));
    if u.stopped {
        let _ = rt.write_all(b" stopped");
    }
    let Unit {
        stamp,
        values,
        cost,
        bound,
        best,
        ..
    } = u;
    print::print_fields(Message {
        sender: 0,
        receiver: 0,
        stamp,
        values,
        cost,
        bound,
        best,
    });
}

// The messages at the front of the output.
fn sent(rt: &impl Print, n: u8, sizes: [u8; 16], count: u8, out: &[u8]) {
    for bytes in out.chunks_exact(MESSAGE_SIZE).take(usize::from(count)) {
        packet(rt, n, sizes, bytes);
    }
}

// A packet as it reads.
fn packet(rt: &impl Print, n: u8, sizes: [u8; 16], bytes: &[u8]) {
    match message::parse(n, sizes, bytes) {
        Ok((kind, m)) => {
            let _ = rt.write_all(b"  sends ");
            print::print_message(kind, m);
        }
        Err(_) => {
            let _ = println!(rt; "  not a message");
        }
    }
}
