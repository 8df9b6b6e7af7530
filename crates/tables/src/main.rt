// Reads the sample tables of data/ and says of each what reading it gives; an accepted one is written again and compared. Then some are
// converted into form one and form two, and back.
#![tactic(auto)]

use base::{BLOCK_SIZE, FILE_ROOM, FILE_SIZE, Refusal, STREAM_SIZE};
use std::fs::File;
use std::os::fd::AsRawFd;
use std::rt::Files;
use table::Form;

const STDOUT_FILENO: i32 = 1;

fn main(rt: HostRuntime) {
    accepted(&rt);
    refused(&rt);
    // 13: read into 61,969 bytes; written into 511
    show_cramped(&rt, "t.table");
    forms(&rt);
    cramped_forms(&rt);
}

// Accepted.
fn accepted(rt: &(impl Files<File = File> + Eprint)) {
    // table T; T with a cost of 65,535; two blocks; 16 units of 16 values, 122 blocks
    show(rt, "t.table");
    show(rt, "barred.table");
    show(rt, "eight.table");
    show(rt, "largest.table");
    // form two: T with unary costs, up to 60,000; with none above zero; one unit; 16 units of 16 values, 123 blocks
    show(rt, "two.table");
    show(rt, "two-zero.table");
    show(rt, "two-one-unit.table");
    show(rt, "largest-two.table");
}

// Refused.
fn refused(rt: &(impl Files<File = File> + Eprint)) {
    // 1: no byte; one byte cut off; a block too many
    show(rt, "none.table");
    show(rt, "cut.table");
    show(rt, "over.table");
    // 2: two blocks swapped
    show(rt, "swapped.table");
    // 3: a last block of no payload; an earlier one of less than 506; a byte after the payload
    show(rt, "count.table");
    show(rt, "half.table");
    show(rt, "unused.table");
    // 4: a byte changed
    show(rt, "flipped.table");
    // 5: 17 units; a size of 0; the same in form two
    show(rt, "units.table");
    show(rt, "size.table");
    show(rt, "two-units.table");
    show(rt, "two-size.table");
    // 6: a byte less; a byte more; of form two its first byte alone, no unary cost, a byte less, a byte more
    show(rt, "short.table");
    show(rt, "long.table");
    show(rt, "two-alone.table");
    show(rt, "two-missing.table");
    show(rt, "two-short.table");
    show(rt, "two-long.table");
    // 7: a cost of 60,001; of 65,534; a unary cost of 60,001; of 65,535; a pair cost of 60,001 in form two
    show(rt, "cost.table");
    show(rt, "unbarred.table");
    show(rt, "two-cost.table");
    show(rt, "two-barred.table");
    show(rt, "two-pair.table");
}

// Converted into each form, and back.
fn forms(rt: &(impl Files<File = File> + Eprint)) {
    show_forms(rt, "t.table");
    show_forms(rt, "eight.table");
    show_forms(rt, "largest.table");
    show_forms(rt, "two.table");
    show_forms(rt, "two-zero.table");
    show_forms(rt, "largest-two.table");
    // a reading's refusals
    show_forms(rt, "flipped.table");
    show_forms(rt, "two-cost.table");
}

// Reads the named file as a table into a buffer that holds any stream.
fn show(rt: &(impl Files<File = File> + Eprint), name: &str) {
    let mut file = [0u8; FILE_ROOM];
    let n = load(rt, name, &mut file);
    let mut stream = [0u8; STREAM_SIZE];
    show_read(name.as_bytes(), front(&file, n), &mut stream);
}

// The same with a buffer that is a byte short, for reading and then for writing.
fn show_cramped(rt: &(impl Files<File = File> + Eprint), name: &str) {
    let mut file = [0u8; FILE_ROOM];
    let n = load(rt, name, &mut file);
    let mut cramped = [0u8; STREAM_SIZE - 1];
    show_read(name.as_bytes(), front(&file, n), &mut cramped);
    let mut stream = [0u8; STREAM_SIZE];
    let read = table::read(front(&file, n), &mut stream);
    let mut again = [0u8; BLOCK_SIZE - 1];
    let written = table::write(front(&stream, length(read)), &mut again);
    io::write_all(STDOUT_FILENO, name.as_bytes());
    say(b" written refusal ", number(written));
    io::write_all(STDOUT_FILENO, b"\n");
}

// The named file in form one and in form two.
fn show_forms(rt: &(impl Files<File = File> + Eprint), name: &str) {
    let mut file = [0u8; FILE_ROOM];
    let n = load(rt, name, &mut file);
    show_form(
        name.as_bytes(),
        b" to one",
        front(&file, n),
        Form::One,
        Form::Two,
    );
    show_form(
        name.as_bytes(),
        b" to two",
        front(&file, n),
        Form::Two,
        Form::One,
    );
}

// The file in that form, and what converting it into the other gives.
fn show_form(name: &[u8], words: &[u8], file: &[u8], form: Form, back: Form) {
    let mut out = [0u8; FILE_SIZE];
    let done = table::convert(file, form, &mut out);
    io::write_all(STDOUT_FILENO, name);
    io::write_all(STDOUT_FILENO, words);
    show_length(done, &out);
    if let Ok(length) = done {
        show_back(file, front(&out, length), back);
    }
    io::write_all(STDOUT_FILENO, b"\n");
}

// Whether a converted file is the one that went in, what converting it back gives, and whether that is the first file.
fn show_back(file: &[u8], converted: &[u8], back: Form) {
    if check::same(converted, file) {
        io::write_all(STDOUT_FILENO, b" the same");
    }
    let mut again = [0u8; FILE_SIZE];
    let done = table::convert(converted, back, &mut again);
    say(b" back refusal ", number(done));
    if check::same(front(&again, length(done)), file) {
        io::write_all(STDOUT_FILENO, b" the first file");
    }
}

// 13: a byte less than the block needed, before 18; with that byte 18
fn cramped_forms(rt: &(impl Files<File = File> + Eprint)) {
    let mut file = [0u8; FILE_ROOM];
    let n = load(rt, "two.table", &mut file);
    let mut out = [0u8; BLOCK_SIZE - 1];
    let done = table::convert(front(&file, n), Form::One, &mut out);
    io::write_all(STDOUT_FILENO, b"two.table to one, cramped");
    show_length(done, &out);
    let mut enough = [0u8; BLOCK_SIZE];
    let done = table::convert(front(&file, n), Form::One, &mut enough);
    io::write_all(STDOUT_FILENO, b"\ntwo.table to one, just room");
    show_length(done, &enough);
    io::write_all(STDOUT_FILENO, b"\n");
}

// A refusal, how many bytes were written, and the sum of the buffer, which a refusal leaves zero.
fn show_length(done: Result<usize, Refusal>, out: &[u8]) {
    say(b" refusal ", number(done));
    say(b" written ", length(done) as u64);
    say(b" sum ", u64::from(checksum::sum(out)));
}

// The refusal of a call that fills a buffer, 0 for none, and how many bytes it wrote there.
fn number(done: Result<usize, Refusal>) -> u64 {
    match done {
        Ok(_) => 0,
        Err(refusal) => u64::from(refusal.number()),
    }
}

fn length(done: Result<usize, Refusal>) -> usize {
    done.unwrap_or(0)
}

// The named file's bytes, and how many they are.
fn load(rt: &(impl Files<File = File> + Eprint), name: &str, file: &mut [u8]) -> usize {
    let Some(input) = inputs::open(rt, name) else {
        return 0;
    };
    io::read_full(input.as_raw_fd(), file)
}

// The first n bytes, or all that there are.
fn front(bytes: &[u8], n: usize) -> &[u8] {
    &bytes[..bytes.len().min(n)]
}

// One line of output: the reading, and the payload of the first block read alone. A refused reading leaves the buffer zero, and so its sum.
fn show_read(name: &[u8], file: &[u8], stream: &mut [u8]) {
    let done = table::read(file, stream);
    io::write_all(STDOUT_FILENO, name);
    say(b" refusal ", number(done));
    say(b" stream ", length(done) as u64);
    say(b" sum ", u64::from(checksum::sum(stream)));
    let first = table::read_block(front(file, BLOCK_SIZE), 0, file.len() <= BLOCK_SIZE);
    say(b" first block ", first.map_or(0, |part| part.len()) as u64);
    if let Ok(length) = done {
        show_written(file, front(stream, length));
    }
    io::write_all(STDOUT_FILENO, b"\n");
}

// The stream written again, and whether that gave the file.
fn show_written(file: &[u8], stream: &[u8]) {
    let mut again = [0u8; FILE_SIZE];
    let done = table::write(stream, &mut again);
    say(b" written ", length(done) as u64);
    if check::same(front(&again, length(done)), file) {
        io::write_all(STDOUT_FILENO, b" the same");
    }
}

fn say(word: &[u8], x: u64) {
    io::write_all(STDOUT_FILENO, word);
    io::print_decimal(STDOUT_FILENO, x);
}
