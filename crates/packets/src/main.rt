// Reads the packets of data/packets for 4 units of 2, 3, 4 and 5 values, and says of each what reading it gives. A record of the
// file has 96 bytes: 31 of name, a unit number (0: read by no unit, for any receiver), and the 64 bytes of a message. The last is a
// byte short. A message that is read is written again, into 65 bytes, for 3 units and for none, and into 63 bytes; and read for none.
#![tactic(auto)]

use base::{MESSAGE_SIZE, Refusal};
use message::{Kind, Message};
use std::fs::File;
use std::os::fd::AsRawFd;
use std::rt::Files;

const STDOUT_FILENO: i32 = 1;

// 4 units' domain sizes.
const SIZES: [u8; 16] = [2, 3, 4, 5, 0, 0, 0, 0, 0, 0, 0, 0, 0, 0, 0, 0];

fn main(rt: HostRuntime) {
    let mut file = [0u8; 16384];
    let Some(input) = inputs::open(&rt, "packets") else {
        return;
    };
    let n = io::read_full(input.as_raw_fd(), &mut file);
    show_all(&file[..n]);
}

// Each record, one to a line.
fn show_all(file: &[u8]) {
    for record in file.chunks(96) {
        show(record);
    }
}

// A record, or what is left of the last.
fn show(record: &[u8]) {
    if record.len() < 32 {
        return;
    }
    io::write_all(STDOUT_FILENO, &record[0..31]);
    say(record[31], &record[32..]);
}

// What reading a packet gives, and what writing it again does.
fn say(own: u8, packet: &[u8]) {
    match parse(own, packet) {
        Ok((kind, m)) => {
            io::write_all(STDOUT_FILENO, b" ");
            print::print_message(kind, m);
            again(kind, m, packet);
        }
        Err(refusal) => {
            print::print_refusal(refusal.number());
        }
    }
}

// Read by unit `own`, or for any receiver.
fn parse(own: u8, packet: &[u8]) -> Result<(Kind, Message), Refusal> {
    if own == 0 {
        message::parse(4, SIZES, packet)
    } else {
        message::parse_for(4, SIZES, own, packet)
    }
}

// The message written again.
fn again(kind: Kind, m: Message, packet: &[u8]) {
    io::write_all(STDOUT_FILENO, b"  written");
    write(4, kind, m, packet);
    io::write_all(STDOUT_FILENO, b"; for 3 units");
    write(3, kind, m, packet);
    io::write_all(STDOUT_FILENO, b"; for none");
    write(0, kind, m, packet);
    io::write_all(STDOUT_FILENO, b"; into 63 bytes");
    let mut short = [255u8; MESSAGE_SIZE - 1];
    let written = message::write(4, SIZES, kind, m, &mut short);
    outcome(written, &short, packet);
    io::write_all(STDOUT_FILENO, b"; read for none");
    let read = message::parse(0, SIZES, packet);
    outcome(read.map(|_| ()), &short, packet);
    io::write_all(STDOUT_FILENO, b"\n");
}

// The same for n units, into 65 bytes of 255.
fn write(n: u8, kind: Kind, m: Message, packet: &[u8]) {
    let mut out = [255u8; MESSAGE_SIZE + 1];
    let written = message::write(n, SIZES, kind, m, &mut out);
    outcome(written, &out, packet);
}

// What was refused, or whether the output is then the packet and a byte of 255.
fn outcome(done: Result<(), Refusal>, out: &[u8], packet: &[u8]) {
    match done {
        Err(refusal) => {
            print::print_number(b" refused ", u32::from(refusal.number()));
        }
        Ok(()) => {
            let word: &[u8] = if same(packet, out) {
                b" the same"
            } else {
                b" otherwise"
            };
            io::write_all(STDOUT_FILENO, word);
        }
    }
}

// Whether `out` is the packet and a byte of 255.
fn same(packet: &[u8], out: &[u8]) -> bool {
    match out.split_last() {
        Some((last, front)) => *last == 255 && front == packet,
        None => false,
    }
}
