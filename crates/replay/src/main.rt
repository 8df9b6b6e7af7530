// Replays recorded runs, document 02, job 14. Three arguments name each: the order of values of the run, `ascending` or `cheapest`; the file of its
// stored table; the file with the list of its cells. Prints what unit 1 then reports, records and deliveries, as the shed does, and how many of
// the list's deliveries stand; where the next was refused, its cell and the number too. Where the table or the whole list is refused it prints only
// `refused` and the number. A list is replayed in parts, as it is read, which comes to the same as the whole, so it may be of any length.
#![tactic(auto)]

ghost use Rattle.std.specs.Prelude.{◌≤◌, length};

use base::{FILE_ROOM, Refusal, STREAM_SIZE};
use costs::ValueOrder;
use slots::Core;
use std::env::Env;
use std::fs::File;
use std::os::fd::AsRawFd;
use std::rt::Files;

// The bytes of a part, whole pairs, and the most parts.
const PART: usize = 4096;

const PARTS: u64 = 4294967296;

// A list of cells: the name of its file, and how many there are.
#[derive(Clone, Copy)]
struct List<'a> {
    name: &'a [u8],
    cells: u64,
}

// Where a replay ended: the units and counts, and the cell that was refused with its refusal.
#[derive(Clone, Copy)]
struct Ended {
    core: Core,
    refused: Option<(u32, u8)>,
}

fn main(rt: HostRuntime) {
    let count = inputs::arg_count(&rt);
    if count < 4 || count % 3 != 1 {
        usage(&rt);
        return;
    }
    for k in 0..count / 3 {
        show(&rt, 3 * k + 1);
    }
}

// The run that the arguments from i on name.
fn show(rt: &(impl Files<File = File> + Env + Print + Eprint), i: usize)
    requires { i ≤ 18446744073709551613 }
{
    let mut word = [0; 10];
    let n = inputs::arg(rt, i, &mut word);
    let Some(order) = order_named(&word[..n]) else {
        usage(rt);
        return;
    };
    let mut table = io::buffer();
    let n = inputs::arg(rt, i + 1, &mut table);
    let mut list = io::buffer();
    let m = inputs::arg(rt, i + 2, &mut list);
    if let Err(refusal) = show_files(rt, order, &table[..n], &list[..m]) {
        let _ = println!(rt; "{refusal}");
    }
}

fn order_named(word: &[u8]) -> Option<ValueOrder> {
    match word {
        b"ascending" => Some(ValueOrder::Ascending),
        b"cheapest" => Some(ValueOrder::CheapestFirst),
        _ => None,
    }
}

// The list's length is looked at first: 22 comes before any other check.
fn show_files(
    rt: &(impl Files<File = File> + Print + Eprint),
    order: ValueOrder,
    table: &[u8],
    name: &[u8],
) -> Result<(), Refusal> {
    let Some(length) = measure(rt, name) else {
        return Ok(());
    };
    if length % 2 != 0 {
        return Err(Refusal::OddList);
    }
    let Some(input) = inputs::open_named(rt, table) else {
        return Ok(());
    };
    let mut file = [0; FILE_ROOM];
    let n = io::read_full(input.as_raw_fd(), &mut file);
    let mut buffer = [0; STREAM_SIZE];
    let stream = report::read_stream(&file[..n], &mut buffer)?;
    let list = List {
        name,
        cells: length / 2,
    };
    show_stream(rt, order, stream, list);
    Ok(())
}

// How many bytes the file has.
fn measure(rt: &(impl Files<File = File> + Eprint), name: &[u8]) -> Option<u64> {
    let input = inputs::open_named(rt, name)?;
    let mut part = [0; PART];
    let mut total: u64 = 0;
    for _ in 0..PARTS {
        let n = io::read_full(input.as_raw_fd(), &mut part);
        total = total.saturating_add(n as u64);
        if n < PART {
            break;
        }
    }
    Some(total)
}

fn show_stream(
    rt: &(impl Files<File = File> + Print + Eprint),
    order: ValueOrder,
    stream: &[u8],
    list: List,
) {
    let mut pool = [0; slots::SLOT_POOL_SIZE];
    let made = slots::make_by(order, stream, &mut pool);
    let number = made.refusal;
    if number != 0 {
        let _ = println!(rt; "refused {number}");
        return;
    }
    let Some(input) = inputs::open_named(rt, list.name) else {
        return;
    };
    let ended = replay_parts(order, made.core, stream, &mut pool, input.as_raw_fd());
    report::print_core(table::units_of(stream), ended.core);
    print_end(rt, ended, list.cells);
}

// The file's list, replayed part by part, to its end or the first refusal.
fn replay_parts(order: ValueOrder, begun: Core, stream: &[u8], pool: &mut [u8], fd: i32) -> Ended {
    let mut part = [0; PART];
    let mut core = begun;
    for _ in 0..PARTS {
        let n = io::read_full(fd, &mut part);
        let a = slots::replay_by(order, core, stream, pool, &part[..n]);
        if a.refusal != 0 {
            let cell = refused_cell(core, a.core, &part[..n]);
            return Ended {
                core: a.core,
                refused: Some((cell, a.refusal)),
            };
        }
        core = a.core;
        if n < PART {
            break;
        }
    }
    Ended {
        core,
        refused: None,
    }
}

// The cell behind those of a part that were delivered.
fn refused_cell(before: Core, after: Core, part: &[u8]) -> u32 {
    let done = after.deliveries.low.wrapping_sub(before.deliveries.low);
    if part.len() as u64 <= done {
        return 0;
    }
    base::u16_at(part, 2 * done as usize)
}

fn print_end(rt: &impl Print, ended: Ended, cells: u64) {
    let done = ended.core.deliveries.low;
    let _ = match ended.refused {
        None => println!(rt; "replayed {done} of {cells}"),
        Some((cell, number)) => println!(rt;
            "replayed {done} of {cells}, cell {cell} refused {number}"
        ),
    };
}

fn usage(rt: &impl Eprint) {
    let _ = eprintln!(rt;
        "replay: for each run say ascending or cheapest, the order of values, then the file of its table, then that of its cells"
    );
}
