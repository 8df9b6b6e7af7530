// Runs T and a network of five units with every packet echoed, 02, job 2, and prints the listing of each run after its name: values tried
// in both orders; the oldest or the newest packet delivered each time; each echoed before it is delivered, at once, or late. A refusal is
// printed too, unless it is 12 once unit 1 has stopped.
#![tactic(auto)]

ghost use Rattle.std.specs.Prelude.{◌+◌, ◌*◌, ◌<◌, ◌≤◌, length};

use base::{FILE_ROOM, MESSAGE_SIZE, POOL_CELLS, POOL_SIZE, Refusal, STREAM_SIZE};
use network::{Answer, Network, ValueOrder};
use std::fs::File;
use std::rt::Files;

// The most turns of a run, each with a delivery and an echo.
const TURNS: usize = 10000;
// How many packets are kept, the last ones delivered.
const KEPT: usize = 6;

// Which packet is delivered each time.
#[derive(Clone, Copy, Debug, PartialEq, Eq)]
enum Next {
    Oldest,
    Newest,
}

// When it is echoed: before it is delivered, or once so many more were.
#[derive(Clone, Copy, Debug, PartialEq, Eq)]
enum Echoed {
    Before,
    After(usize),
}

// A run: its table, in which order values are tried, and how far it is.
#[derive(Drop)]
struct Run<'a> {
    order: ValueOrder,
    stream: &'a [u8],
    net: Network,
    pool: &'a mut [u8; POOL_SIZE],
    kept: [u8; KEPT * MESSAGE_SIZE],
}

fn main(rt: HostRuntime) {
    show(&rt, "t.table");
    show(&rt, "five.table");
}

// The runs of the stored table with this name.
fn show(rt: &(impl Files<File = File> + Print + Eprint), name: &str) {
    let mut file = [0; FILE_ROOM];
    if let Some(n) = inputs::read(rt, name, &mut file) {
        show_table(rt, name, &file[..n]);
    }
}

fn show_table(rt: &impl Print, name: &str, file: &[u8]) {
    let mut buffer = [0; STREAM_SIZE];
    match report::read_stream(file, &mut buffer) {
        Ok(stream) => {
            show_by(rt, ValueOrder::Ascending, name, stream);
            show_by(rt, ValueOrder::CheapestFirst, name, stream);
        }
        Err(refusal) => {
            let _ = println!(rt; "{refusal}");
        }
    }
}

// The runs with values tried in one order.
fn show_by(rt: &impl Print, order: ValueOrder, name: &str, stream: &[u8]) {
    let values = match order {
        ValueOrder::Ascending => "ascending",
        ValueOrder::CheapestFirst => "cheapest first",
    };
    let _ = println!(rt; "{name}, {values}, oldest first, each echoed at once");
    list(rt, order, stream, Next::Oldest, Echoed::After(0));
    let _ = println!(rt; "{name}, {values}, oldest first, each echoed before it is delivered");
    list(rt, order, stream, Next::Oldest, Echoed::Before);
    let _ = println!(rt; "{name}, {values}, newest first, each echoed at once");
    list(rt, order, stream, Next::Newest, Echoed::After(0));
    let _ = println!(rt; "{name}, {values}, oldest first, each echoed after one more");
    list(rt, order, stream, Next::Oldest, Echoed::After(1));
    let _ = println!(rt; "{name}, {values}, oldest first, each echoed after five more");
    list(rt, order, stream, Next::Oldest, Echoed::After(5));
}

// The listing of a run, once unit 1 has stopped, or after the most turns.
fn list(rt: &impl Print, order: ValueOrder, stream: &[u8], next: Next, echoed: Echoed) {
    let mut pool = [0; POOL_SIZE];
    let mut run = Run::begin(rt, order, stream, &mut pool);
    for k in 0..TURNS {
        if stopped(run.net) {
            break;
        }
        run.turn(rt, next, echoed, k);
    }
    report::print_network(table::units_of(stream), run.net);
}

impl<'a> Run<'a> {
    fn begin(
        rt: &impl Print,
        order: ValueOrder,
        stream: &'a [u8],
        pool: &'a mut [u8; POOL_SIZE],
    ) -> Run<'a> {
        let made = network::make_by(order, stream, pool);
        Run {
            order,
            stream,
            net: told(rt, made),
            pool,
            kept: [0; KEPT * MESSAGE_SIZE],
        }
    }

    // Turn k: a packet is kept and delivered, and one that was kept is echoed.
    fn turn(&mut self, rt: &impl Print, next: Next, echoed: Echoed, k: usize) {
        let cell = cell_of(next, self.net.used);
        self.keep(cell, k);
        match echoed {
            Echoed::Before => {
                self.echo(rt, k);
                self.deliver(rt, cell);
            }
            Echoed::After(late) => {
                self.deliver(rt, cell);
                if late <= k {
                    self.echo(rt, k - late);
                }
            }
        }
    }

    // The packet of turn k, at this cell, is kept.
    fn keep(&mut self, cell: u64, k: usize)
        requires { cell < 1024 }
    {
        let packet = packet_at(self.pool, cell as usize);
        let at = MESSAGE_SIZE * (k % KEPT);
        let end = at + MESSAGE_SIZE;
        self.kept[at..end].copy_from_slice(&packet);
    }

    fn deliver(&mut self, rt: &impl Print, cell: u64) {
        let a = network::deliver_by(self.order, self.net, self.stream, self.pool, cell);
        self.net = told(rt, a);
    }

    // The packet of turn k is heard again.
    fn echo(&mut self, rt: &impl Print, k: usize) {
        let packet = packet_at(&self.kept, k % KEPT);
        let a = network::echo_by(self.order, self.net, self.stream, self.pool, &packet);
        self.net = told(rt, a);
    }
}

// The 64 bytes at a place.
fn packet_at(bytes: &[u8], place: usize) -> [u8; MESSAGE_SIZE]
    requires { (place < 1024) × (64 * place + 64 ≤ length bytes.now) }
{
    let at = MESSAGE_SIZE * place;
    let end = at + MESSAGE_SIZE;
    let mut packet = [0; MESSAGE_SIZE];
    packet.copy_from_slice(&bytes[at..end]);
    packet
}

// The cell to deliver.
fn cell_of(next: Next, used: u64) -> u64
    ensures { result < 1024 }
{
    match next {
        Next::Newest if used <= POOL_CELLS => used.saturating_sub(1),
        _ => 0,
    }
}

// The network after an event.
fn told(rt: &impl Print, a: Answer) -> Network {
    let number = a.refusal;
    if number != 0 && !(number == Refusal::Stopped.number() && stopped(a.network)) {
        let _ = println!(rt; "refused {number}");
    }
    a.network
}

// Whether unit 1 has.
fn stopped(net: Network) -> bool {
    net.core.units[0].stopped
}
