// Makes tables of sample readings, and says of each what is made of it; then what the bench and the shed print of that table.
#![tactic(auto)]

use base::{FILE_ROOM, FILE_SIZE, Refusal, STREAM_SIZE};
use costs::ValueOrder;
use std::fs::File;
use std::rt::Files;

fn main(rt: HostRuntime) {
    show_all(&rt);
}

fn show_all(rt: &(impl Files<File = File> + Print + Eprint)) {
    // two lines of one lot: gaps of -20, -19, -1, 0, 1, 19 and 20
    pair(rt, 200, 180);
    pair(rt, 200, 181);
    pair(rt, 200, 199);
    pair(rt, 200, 200);
    pair(rt, 200, 201);
    pair(rt, 200, 219);
    pair(rt, 200, 220);
    // both ends of the range
    pair(rt, 100, 400);
    pair(rt, 400, 100);
    // 17: a tenth of a micron past either end
    pair(rt, 99, 400);
    pair(rt, 100, 401);
    lots(rt);
    sixteen(rt);
    refusals(rt);
}

// ---- samples

// Two lines that can only go into the same lot.
fn pair(rt: &(impl Files<File = File> + Print + Eprint), earlier: u16, later: u16) {
    let _ = print!(rt; "readings {earlier} and {later}");
    let [a, b] = earlier.to_le_bytes();
    let [c, d] = later.to_le_bytes();
    show(rt, 2, [1; 16], &[a, b, c, d], None);
}

// Three lines, 19.0, 19.3 and 18.8 microns, of two, three and two lots.
fn lots(rt: &(impl Files<File = File> + Print + Eprint)) {
    let _ = print!(rt; "lots 2, 3 and 2");
    let mut sizes = [2u8; 16];
    sizes[1] = 3;
    show(rt, 3, sizes, &[190, 0, 193, 0, 188, 0], None);
}

// Sixteen lines of three lots: just the sample table `readings-sixteen`.
fn sixteen(rt: &(impl Files<File = File> + Print + Eprint)) {
    let _ = print!(rt; "sixteen lines");
    let readings = [
        200, 0, 175, 0, 187, 0, 184, 0, 186, 0, 200, 0, 197, 0, 167, 0, 199, 0, 182, 0, 178, 0,
        203, 0, 180, 0, 182, 0, 199, 0, 182, 0,
    ];
    show(rt, 16, [3; 16], &readings, Some("readings-sixteen.table"));
}

// Each refusal, found before those that come after it.
fn refusals(rt: &(impl Files<File = File> + Print + Eprint)) {
    // 5: no line; 17 lines; a line of no lot, of 17; before 6
    let _ = print!(rt; "no line");
    show(rt, 0, [1; 16], &[], None);
    let _ = print!(rt; "17 lines");
    show(rt, 17, [1; 16], &[], None);
    let _ = print!(rt; "no lot");
    show(rt, 2, [0; 16], &[0, 0, 0], None);
    let _ = print!(rt; "17 lots");
    show(rt, 2, [17; 16], &[200, 0, 200, 0], None);
    // 6: a byte short; a reading more; before 17
    let _ = print!(rt; "three bytes");
    show(rt, 2, [1; 16], &[99, 0, 200], None);
    let _ = print!(rt; "three readings");
    show(rt, 2, [1; 16], &[200, 0, 200, 0, 99, 0], None);
    // 17 before 13, and 13
    cramped(rt, 99);
    cramped(rt, 200);
}

// Two lines, and a buffer that is a byte short.
fn cramped(rt: &impl Print, reading: u8) {
    let _ = print!(rt; "a byte short");
    let mut stream = [0u8; STREAM_SIZE - 1];
    let made = readings::write_stream(2, [1; 16], &[reading, 0, 200, 0], &mut stream);
    tell(rt, made, &stream);
}

// ---- what is said

// The stream that is made, and, unless it is refused, what the bench and the shed print of its table; whether it is the sample table of that
// name, where it should be.
fn show(
    rt: &(impl Files<File = File> + Print + Eprint),
    n: u8,
    sizes: [u8; 16],
    readings: &[u8],
    sample: Option<&str>,
) {
    let mut stream = [0u8; STREAM_SIZE];
    let made = readings::write_stream(n, sizes, readings, &mut stream);
    tell(rt, made, &stream);
    let Ok(length) = made else {
        return;
    };
    let mut file = [0u8; FILE_SIZE];
    let written = table::write(front(&stream, length), &mut file);
    let file = front(&file, written.unwrap_or(0));
    if let Some(name) = sample {
        compare(rt, name, file);
    }
    let _ = report::print_search(file);
    let _ = report::print_settled_by(ValueOrder::Ascending, file);
}

// The refusal, how long the stream is, and the sum of the buffer, which a refusal leaves zero.
fn tell(rt: &impl Print, made: Result<usize, Refusal>, stream: &[u8]) {
    let sum = checksum::sum(stream);
    let _ = match made {
        Ok(length) => println!(rt; ": refusal 0 stream {length} sum {sum}"),
        Err(refusal) => println!(rt; ": refusal {} stream 0 sum {sum}", refusal.number()),
    };
}

// Whether these are the bytes of the sample table of this name.
fn compare(rt: &(impl Files<File = File> + Print + Eprint), name: &str, file: &[u8]) {
    let mut sample = [0u8; FILE_ROOM];
    match inputs::read(rt, name, &mut sample) {
        Some(n) if front(&sample, n) == file => {
            let _ = println!(rt; "the sample table");
        }
        _ => {}
    }
}

// The first n bytes, or all that there are.
fn front(bytes: &[u8], n: usize) -> &[u8] {
    &bytes[..n.min(bytes.len())]
}
