// What the bench and the shed print of a stored table. What can't be written is lost, and what comes behind it is tried all the same.
#![tactic(auto)]

ghost use Rattle.std.specs.Prelude.{◌≡◌, ℕ, List, IfOk, IfErr};
ghost use Rattle.std.specs.Fn.{FnOnceReturnsAt};
ghost use Rattle.base.specs.Limits.{stream_size};
ghost use Rattle.base.specs.Refusal.{number_of};
ghost use Rattle.table.specs.File.{stream_of, read_refusal};
ghost use Rattle.table.specs.Stream.{stream_refusal};
ghost use Rattle.search.specs.Search.{search_refusal};
ghost use Rattle.runs.specs.Run.{unit_at};
ghost use Rattle.report.specs.Report.{file_refusal, settle_refusal, slots_refusal};

use base::{Refusal, STREAM_SIZE};
use network::{Core, Count, Network, ValueOrder};
use print::Out;
use search::Found;
use std::fmt::Write;

const STDOUT_FILENO: i32 = 1;

// Prints the least total of a file's table, then each unit's value in the first assignment that has it, or `refused` and the number,
// which it gives too. Where no assignment is permitted the total is the word none, and the values are 0.
pub fn print_search(file: &[u8]) -> u8
    ensures { result ≡ file_refusal search_refusal file.now }
{
    print_file(file, |stream| print_least(stream))
}

// The same by branch and bound, however many assignments there are.
pub fn print_branch_and_bound(file: &[u8]) -> u8
    ensures { result ≡ file_refusal stream_refusal file.now }
{
    print_file(file, |stream| print_least_by_bound(stream))
}

// Runs the network of a file's table, values tried in this order and cell 0 delivered each time, and prints what unit 1 reports, then
// records and accepted deliveries, or `refused` and the number, which it gives too.
pub fn print_settled_by(order: ValueOrder, file: &[u8]) -> u8
    ensures { result ≡ file_refusal (settle_refusal order) file.now }
{
    print_file(file, |stream| print_run(order, stream))
}

// The same over the pool of 02, job 4, the lowest cell in use delivered each time.
pub fn print_slots_by(order: ValueOrder, file: &[u8]) -> u8
    ensures { result ≡ file_refusal (slots_refusal order) file.now }
{
    print_file(file, |stream| print_slots(order, stream))
}

// The stream of a file's table, as the part of the lent buffer that holds it.
pub fn read_stream<'a>(file: &[u8], buffer: &'a mut [u8; STREAM_SIZE]) -> Result<&'a [u8], Refusal>
    ensures ok { IfOk result (λ stream. (read_refusal file.now stream_size ≡ 0) × (stream.now ≡ stream_of file.now)) }
    ensures err { IfErr result (λ refusal. number_of refusal ≡ read_refusal file.now stream_size) }
{
    let length = table::read(file, buffer)?;
    Ok(&buffer[..length])
}

// A refusal of the file, or what `print` prints of its stream, and gives: a number, as the searches and runs give it in C's structs.
#[tactic(auto, unfolding(crate::specs::Report::file_refusal))]
fn print_file<F: FnOnce(&[u8]) -> u8>(file: &[u8], print: F) -> u8
    requires { F.IsAlwaysCallable print }
    ensures { (done : List ℕ → ℕ) → ((stream : List ℕ) (number : ℕ) → FnOnceReturnsAt F.FnOnce print stream number → number ≡ done stream) → result ≡ file_refusal done file.now }
{
    let mut buffer = [0; STREAM_SIZE];
    match read_stream(file, &mut buffer) {
        Ok(stream) => print(stream),
        Err(refusal) => {
            let _ = writeln!(Out(STDOUT_FILENO), "{refusal}");
            refusal.number()
        }
    }
}

// The least of all assignments of a stream.
fn print_least(stream: &[u8]) -> u8
    ensures { result ≡ search_refusal stream.now }
{
    print_found(table::units_of(stream), search::exhaustive(stream))
}

// The same by branch and bound.
fn print_least_by_bound(stream: &[u8]) -> u8
    ensures { result ≡ stream_refusal stream.now }
{
    print_found(table::units_of(stream), search::branch_and_bound(stream))
}

// A refusal, or what a search finds of n units.
fn print_found(n: u8, found: Found) -> u8
    ensures { result ≡ found.refusal }
{
    if found.refusal != 0 {
        refuse(found.refusal);
    } else {
        list(n, found.total, found.values);
    }
    found.refusal
}

// What the run over 01's pool comes to.
fn print_run(order: ValueOrder, stream: &[u8]) -> u8
    ensures { result ≡ settle_refusal order stream.now }
{
    let mut pool = [0; base::POOL_SIZE];
    let answer = network::settle_by(order, stream, &mut pool);
    print_ended(answer.refusal, table::units_of(stream), answer.network.core)
}

// What the run over 02's pool comes to.
fn print_slots(order: ValueOrder, stream: &[u8]) -> u8
    ensures { result ≡ slots_refusal order stream.now }
{
    let mut pool = [0; slots::SLOT_POOL_SIZE];
    let answer = slots::settle_by(order, stream, &mut pool);
    print_ended(answer.refusal, table::units_of(stream), answer.core)
}

// A refusal, or the core that a run of n units ends with.
fn print_ended(refusal: u8, n: u8, core: Core) -> u8
    ensures { result ≡ refusal }
{
    if refusal != 0 {
        refuse(refusal);
    } else {
        print_core(n, core);
    }
    refusal
}

// Prints what unit 1 of n reports, then records and accepted deliveries; gives the total.
pub fn print_network(n: u8, net: Network) -> u32
    ensures { result ≡ (unit_at net.core.units 0).bound }
{
    print_core(n, net.core)
}

// The same of the core alone.
pub fn print_core(n: u8, core: Core) -> u32
    ensures { result ≡ (unit_at core.units 0).bound }
{
    let first = core.units[0];
    list(n, first.bound, first.best);
    print_counts(core.records, core.deliveries);
    first.bound
}

// The line of the counts.
fn print_counts(records: Count, deliveries: Count) {
    io::write_all(STDOUT_FILENO, b"records ");
    print_count(records);
    io::write_all(STDOUT_FILENO, b" deliveries ");
    print_count(deliveries);
    io::write_all(STDOUT_FILENO, b"\n");
}

// A count, whole.
fn print_count(c: Count) {
    let digits = network::digits(c);
    io::write_all(STDOUT_FILENO, &digits.text[digits.start..]);
}

// The line of a total, and one for each of n units. 02: "The listing then has the word none".
fn list(n: u8, total: u32, values: [u8; 16]) {
    let mut out = Out(STDOUT_FILENO);
    let _ = match total {
        base::NONE => writeln!(out, "total none"),
        _ => writeln!(out, "total {total}"),
    };
    for (unit, value) in (1..=n).zip(values) {
        let _ = writeln!(out, "unit {unit} value {value}");
    }
}

fn refuse(number: u8) {
    let _ = writeln!(Out(STDOUT_FILENO), "refused {number}");
}
