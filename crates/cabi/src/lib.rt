// The calls of documents 01 and 02 for C and Rust, as include/riksamoe.h declares them. Each hands on to the call that it names, and promises
// what that one does.
#![tactic(auto)]

mod begun; // how far a box is with its blocks, as C lends it
mod lent; // a state, and a network over either pool, as C lends them

ghost use Rattle.std.specs.Prelude.{◌≡◌, not, pred, eqb, length};
ghost use Rattle.checksum.specs.Sum.{sum_of};
ghost use Rattle.base.specs.Refusal.{told};
ghost use Rattle.table.specs.Block.{block_refusal};
ghost use Rattle.table.specs.Stream.{units_of};
ghost use Rattle.table.specs.File.{read_of, read_into, store_of, store_into};
ghost use Rattle.table.specs.declared.Form.TheVariants.{One, Two};
ghost use Rattle.table.specs.Form.{convert_of, convert_into};
ghost use Rattle.readings.specs.Readings.{table_of, table_into};
ghost use Rattle.tiny.specs.Tiny.{tiny_of, tiny_into};
ghost use Rattle.costs.specs.Gather.{sizes_in, gather_of, gather_into};
ghost use Rattle.costs.specs.Order.{default_order};
ghost use Rattle.message.specs.Message.{kind_of};
ghost use Rattle.message.specs.Decode.{parse_of};
ghost use Rattle.rules.specs.State.{no_unit};
ghost use Rattle.rules.specs.Calls.{outcome_of, bytes_of, make_out, range_refusal};
ghost use Rattle.runs.specs.Calls.{make_of};
ghost use Rattle.runs.specs.Settle.{settle_of};
ghost use Rattle.slots.specs.Newer.{newer_refusal, which_newer};
ghost use Rattle.slots.specs.Calls.{make_of as slotsMakeOf};
ghost use Rattle.slots.specs.Settle.{settle_of as slotsSettleOf};
ghost use Rattle.search.specs.Search.{search_of, branch_and_bound_of};
ghost use Rattle.sensitivity.specs.Ends.{ends_of};
ghost use Rattle.projections.specs.Moves.{held_by, answer_of, project_of, unary_project_of, extend_of};
ghost use Rattle.projections.specs.All.{project_all_of};
ghost use Rattle.projections.specs.Made.{hold_of, hold_into, bound_of, bound_into};
ghost use Rattle.start.specs.Block.{fresh};
ghost use Rattle.cabi.specs.Begun.{lent_start, start_block, started_costs};
ghost use Rattle.cabi.specs.Lent.{unit_from};
ghost use Rattle.cabi.specs.Calls.{parsed_of, order_of, slot_as, write_as, written_as, unknown_kind, step_of, stepped_bytes, report_by, delivered_to, delivered_pool, echoed_to, echoed_pool, slots_delivered_to, slots_delivered_pool, replayed_to, replayed_pool};

use base::{Length, Refusal};
use message::{Kind, Message};
use network::{Answer, Core, Count, Network};
use projections::Moved;
use search::Found;
use sensitivity::Range;
use table::Form;
use unit::{Outcome, Report, Unit, ValueOrder};

// The number of the order that is taken where none is named.
const CHEAPEST_FIRST: u8 = 1;

// What stands beside a refusal.
const NO_MESSAGE: Message = Message {
    sender: 0,
    receiver: 0,
    stamp: [0; 16],
    values: [0; 16],
    cost: 0,
    bound: 0,
    best: [0; 16],
};

// A domain size for each of 16 units, zero past n.
#[repr(C)]
#[derive(Clone, Copy)]
pub struct Sizes {
    pub places: [u8; 16],
}

// `start::Start` as C lends it, and what a block gives: any number can stand where the stage is, and where the refusal is.
#[repr(C)]
#[derive(Clone, Copy)]
pub struct LentStart {
    pub own: u8,
    pub stage: u8,
    pub blocks: u16,
    pub count: u32,
    pub n: u8,
    pub sizes: Sizes,
    pub row: u8,
    pub unit: u8,
    pub low: u8,
    pub left: u16,
    pub refusal: u8,
}

#[repr(C)]
#[derive(Clone, Copy)]
pub struct LentStarted {
    pub refusal: u8,
    pub length: usize,
    pub start: LentStart,
}

// A refusal with all else zero, or 0 with the kind's number and the fields.
#[repr(C)]
#[derive(Clone, Copy)]
pub struct Parsed {
    pub refusal: u8,
    pub kind: u8,
    pub message: Message,
}

// `unit::Unit` as C lends it: any byte can stand where the flag is. Making, which is lent no state, gives `unit::Outcome`, of the same
// layout. It and the structs below are twins of the library's but for that byte, as C lays them out.
#[repr(C)]
#[derive(Clone, Copy)]
pub struct LentUnit {
    pub threshold: [u8; 16],
    pub bound: u32,
    pub best: [u8; 16],
    pub estimates: [u32; 16],
    pub stamp: [u8; 16],
    pub values: [u8; 16],
    pub cost: u32,
    pub counter: u8,
    pub stopped: u8,
}

// `unit::Outcome` of a lent state.
#[repr(C)]
#[derive(Clone, Copy)]
pub struct LentOutcome {
    pub refusal: u8,
    pub unit: LentUnit,
    pub sent: u8,
    pub records: u8,
}

// `network::Core`, `Network` and `Answer` with lent states.
#[repr(C)]
#[derive(Clone, Copy)]
pub struct LentCore {
    pub units: [LentUnit; 16],
    pub records: Count,
    pub deliveries: Count,
}

#[repr(C)]
#[derive(Clone, Copy)]
pub struct LentNetwork {
    pub core: LentCore,
    pub used: u64,
}

#[repr(C)]
#[derive(Clone, Copy)]
pub struct LentAnswer {
    pub refusal: u8,
    pub network: LentNetwork,
}

// `slots::Answer` with lent states.
#[repr(C)]
#[derive(Clone, Copy)]
pub struct LentSlotsAnswer {
    pub refusal: u8,
    pub core: LentCore,
}

// ---- blocks and tables

#[unsafe(no_mangle)]
pub extern "C" fn riksamoe_checksum(bytes: &[u8]) -> u32
    ensures { result ≡ sum_of bytes.now }
{
    checksum::sum(bytes)
}

// Any `last` but 0 is true.
#[unsafe(no_mangle)]
pub extern "C" fn riksamoe_block_refusal(block: &[u8], number: u16, last: u8) -> u8
    ensures { result ≡ block_refusal number (not (eqb last 0)) block.now }
{
    base::told(table::check_block(block, number, last != 0))
}

#[unsafe(no_mangle)]
pub extern "C" fn riksamoe_table_read(file: &[u8], stream: &mut [u8]) -> Length
    ensures { (result ≡ read_of file.now (length stream.old)) × (stream.new ≡ read_into file.now stream.old) }
{
    table::read(file, stream).into()
}

#[unsafe(no_mangle)]
pub extern "C" fn riksamoe_table_write(stream: &[u8], file: &mut [u8]) -> Length
    ensures { (result ≡ store_of stream.now (length file.old)) × (file.new ≡ store_into stream.now file.old) }
{
    table::write(stream, file).into()
}

// A stored table in form one, or in form two.
#[unsafe(no_mangle)]
pub extern "C" fn riksamoe_to_form_one(file: &[u8], out: &mut [u8]) -> Length
    ensures { (result ≡ convert_of One file.now (length out.old)) × (out.new ≡ convert_into One file.now out.old) }
{
    table::convert(file, Form::One, out).into()
}

#[unsafe(no_mangle)]
pub extern "C" fn riksamoe_to_form_two(file: &[u8], out: &mut [u8]) -> Length
    ensures { (result ≡ convert_of Two file.now (length out.old)) × (out.new ≡ convert_into Two file.now out.old) }
{
    table::convert(file, Form::Two, out).into()
}

// The stream of a table made of readings.
#[unsafe(no_mangle)]
pub extern "C" fn riksamoe_readings_stream(
    n: u8,
    sizes: Sizes,
    readings: &[u8],
    stream: &mut [u8],
) -> Length
    ensures { (result ≡ table_of n sizes.places readings.now (length stream.old)) × (stream.new ≡ table_into n sizes.places readings.now stream.old) }
{
    readings::write_stream(n, sizes.places, readings, stream).into()
}

// The stream of a tiny table, by its number.
#[unsafe(no_mangle)]
pub extern "C" fn riksamoe_tiny_stream(n: u8, number: u32, stream: &mut [u8]) -> Length
    ensures { (result ≡ tiny_of n number (length stream.old)) × (stream.new ≡ tiny_into n number stream.old) }
{
    tiny::write_stream(n, number, stream).into()
}

// ---- what a unit is lent, out of a stream

// How many units a stream says there are.
#[unsafe(no_mangle)]
pub extern "C" fn riksamoe_units(stream: &[u8]) -> u8
    ensures { result ≡ units_of stream.now }
{
    table::units_of(stream)
}

#[unsafe(no_mangle)]
pub extern "C" fn riksamoe_sizes(stream: &[u8]) -> Sizes
    ensures { result.places ≡ sizes_in stream.now }
{
    Sizes {
        places: costs::sizes_of(stream),
    }
}

#[unsafe(no_mangle)]
pub extern "C" fn riksamoe_costs(stream: &[u8], own: u8, out: &mut [u8]) -> Length
    ensures { (result ≡ gather_of stream.now own (length out.old)) × (out.new ≡ gather_into stream.now own out.old) }
{
    costs::gather(stream, own, out).into()
}

// ---- a box's start from blocks

// Before the first block.
#[unsafe(no_mangle)]
pub extern "C" fn riksamoe_start(own: u8) -> LentStart
    ensures { result ≡ lent_start (fresh own) }
{
    begun::lent_start(start::begin(own))
}

// Any `last` but 0 is true.
#[unsafe(no_mangle)]
pub extern "C" fn riksamoe_start_block(
    state: LentStart,
    block: &[u8],
    last: u8,
    costs: &mut [u8],
) -> LentStarted
    ensures { (result ≡ start_block state block.now (not (eqb last 0)) (length costs.old)) × (costs.new ≡ started_costs state block.now (not (eqb last 0)) costs.old) }
{
    let mut read = begun::start_from(state);
    let r = start::take_block(&mut read, block, last != 0, costs);
    begun::started_back(state, r, read)
}

// ---- messages

#[unsafe(no_mangle)]
pub extern "C" fn riksamoe_message_parse(n: u8, sizes: Sizes, bytes: &[u8]) -> Parsed
    ensures { result ≡ parsed_of (parse_of n sizes.places bytes.now) }
{
    match message::parse(n, sizes.places, bytes) {
        Ok((kind, m)) => {
            // by its fields: copied whole, across where they begin, it takes a third of the time of reading
            let Message {
                sender,
                receiver,
                stamp,
                values,
                cost,
                bound,
                best,
            } = m;
            Parsed {
                refusal: 0,
                kind: u8::from(kind),
                message: Message {
                    sender,
                    receiver,
                    stamp,
                    values,
                    cost,
                    bound,
                    best,
                },
            }
        }
        Err(refusal) => Parsed {
            refusal: refusal.number(),
            kind: 0,
            message: NO_MESSAGE,
        },
    }
}

// A kind that is none of 01's is refused by 9, after 5 and 10.
#[tactic(auto, unfolding(crate::specs::Calls::write_as, crate::specs::Calls::written_as))]
#[unsafe(no_mangle)]
pub extern "C" fn riksamoe_message_write(
    n: u8,
    sizes: Sizes,
    kind: u8,
    m: Message,
    out: &mut [u8],
) -> u8
    ensures { (result ≡ write_as (kind_of kind) n sizes.places m (length out.old)) × (out.new ≡ written_as (kind_of kind) n sizes.places m out.old) }
{
    match Kind::try_from(kind) {
        Ok(kind) => base::told(message::write(n, sizes.places, kind, m, out)),
        Err(_) => base::told(check_unknown(n, sizes.places, m)),
    }
}

// ---- one unit. Each of the calls below that try values has `by` one whose first argument is the number of an order of values: 0 for
// ascending, any other for the cheapest first. One that is told none tries the cheapest first.

#[unsafe(no_mangle)]
pub extern "C" fn riksamoe_unit_make(
    own: u8,
    n: u8,
    sizes: Sizes,
    costs: &[u8],
    out: &mut [u8],
) -> Outcome
    ensures { (result ≡ outcome_of n (pred own) no_unit (make_out default_order own n sizes.places costs.now (length out.old))) × (out.new ≡ bytes_of n (pred own) out.old (make_out default_order own n sizes.places costs.now (length out.old))) }
{
    unit::make(own, n, sizes.places, costs, out)
}

#[unsafe(no_mangle)]
pub extern "C" fn riksamoe_unit_make_by(
    order: u8,
    own: u8,
    n: u8,
    sizes: Sizes,
    costs: &[u8],
    out: &mut [u8],
) -> Outcome
    ensures { (result ≡ outcome_of n (pred own) no_unit (make_out (order_of order) own n sizes.places costs.now (length out.old))) × (out.new ≡ bytes_of n (pred own) out.old (make_out (order_of order) own n sizes.places costs.now (length out.old))) }
{
    unit::make_by(order_of(order), own, n, sizes.places, costs, out)
}

#[unsafe(no_mangle)]
pub extern "C" fn riksamoe_unit_in_range(
    u: LentUnit,
    own: u8,
    n: u8,
    sizes: Sizes,
    costs: &[u8],
) -> u8
    ensures { result ≡ range_refusal default_order (unit_from u) own n sizes.places costs.now }
{
    riksamoe_unit_in_range_by(CHEAPEST_FIRST, u, own, n, sizes, costs)
}

#[unsafe(no_mangle)]
pub extern "C" fn riksamoe_unit_in_range_by(
    order: u8,
    u: LentUnit,
    own: u8,
    n: u8,
    sizes: Sizes,
    costs: &[u8],
) -> u8
    ensures { result ≡ range_refusal (order_of order) (unit_from u) own n sizes.places costs.now }
{
    base::told(unit::in_range_by(order_of(order), Unit::from(u), own, n, sizes.places, costs))
}

#[unsafe(no_mangle)]
pub extern "C" fn riksamoe_unit_step(
    u: LentUnit,
    own: u8,
    n: u8,
    sizes: Sizes,
    costs: &[u8],
    packet: &[u8],
    out: &mut [u8],
) -> LentOutcome
    ensures { (result ≡ step_of default_order u own n sizes.places costs.now packet.now (length out.old)) × (out.new ≡ stepped_bytes default_order u own n sizes.places costs.now packet.now out.old) }
{
    riksamoe_unit_step_by(CHEAPEST_FIRST, u, own, n, sizes, costs, packet, out)
}

#[tactic(auto, unfolding(crate::specs::Calls::step_of, crate::specs::Calls::stepped_bytes))]
#[unsafe(no_mangle)]
pub extern "C" fn riksamoe_unit_step_by(
    order: u8,
    u: LentUnit,
    own: u8,
    n: u8,
    sizes: Sizes,
    costs: &[u8],
    packet: &[u8],
    out: &mut [u8],
) -> LentOutcome
    ensures { (result ≡ step_of (order_of order) u own n sizes.places costs.now packet.now (length out.old)) × (out.new ≡ stepped_bytes (order_of order) u own n sizes.places costs.now packet.now out.old) }
{
    let v = Unit::from(u);
    let r = unit::step_by(order_of(order), v, own, n, sizes.places, costs, packet, out);
    lent::outcome_back(u, r)
}

#[unsafe(no_mangle)]
pub extern "C" fn riksamoe_unit_step_in_place(
    u: &mut LentUnit,
    own: u8,
    n: u8,
    sizes: Sizes,
    costs: &[u8],
    packet: &[u8],
    out: &mut [u8],
) -> Report
    ensures { (result ≡ report_by (step_of default_order u.old own n sizes.places costs.now packet.now (length out.old))) × (u.new ≡ (step_of default_order u.old own n sizes.places costs.now packet.now (length out.old)).unit) × (out.new ≡ stepped_bytes default_order u.old own n sizes.places costs.now packet.now out.old) }
{
    riksamoe_unit_step_in_place_by(CHEAPEST_FIRST, u, own, n, sizes, costs, packet, out)
}

#[unsafe(no_mangle)]
pub extern "C" fn riksamoe_unit_step_in_place_by(
    order: u8,
    u: &mut LentUnit,
    own: u8,
    n: u8,
    sizes: Sizes,
    costs: &[u8],
    packet: &[u8],
    out: &mut [u8],
) -> Report
    ensures { (result ≡ report_by (step_of (order_of order) u.old own n sizes.places costs.now packet.now (length out.old))) × (u.new ≡ (step_of (order_of order) u.old own n sizes.places costs.now packet.now (length out.old)).unit) × (out.new ≡ stepped_bytes (order_of order) u.old own n sizes.places costs.now packet.now out.old) }
{
    let r = riksamoe_unit_step_by(order, *u, own, n, sizes, costs, packet, out);
    *u = r.unit;
    Report {
        refusal: r.refusal,
        sent: r.sent,
        records: r.records,
    }
}

// ---- a network

#[unsafe(no_mangle)]
pub extern "C" fn riksamoe_network_make(stream: &[u8], pool: &mut [u8]) -> Answer
    ensures { (result ≡ (make_of default_order stream.now pool.old).answer) × (pool.new ≡ (make_of default_order stream.now pool.old).pool) }
{
    network::make(stream, pool)
}

#[unsafe(no_mangle)]
pub extern "C" fn riksamoe_network_make_by(order: u8, stream: &[u8], pool: &mut [u8]) -> Answer
    ensures { (result ≡ (make_of (order_of order) stream.now pool.old).answer) × (pool.new ≡ (make_of (order_of order) stream.now pool.old).pool) }
{
    network::make_by(order_of(order), stream, pool)
}

#[unsafe(no_mangle)]
pub extern "C" fn riksamoe_network_deliver(
    net: LentNetwork,
    stream: &[u8],
    pool: &mut [u8],
    cell: u64,
) -> LentAnswer
    ensures { (result ≡ delivered_to default_order net stream.now pool.old cell) × (pool.new ≡ delivered_pool default_order net stream.now pool.old cell) }
{
    riksamoe_network_deliver_by(CHEAPEST_FIRST, net, stream, pool, cell)
}

#[tactic(auto, unfolding(crate::specs::Calls::delivered_to, crate::specs::Calls::delivered_pool))]
#[unsafe(no_mangle)]
pub extern "C" fn riksamoe_network_deliver_by(
    order: u8,
    net: LentNetwork,
    stream: &[u8],
    pool: &mut [u8],
    cell: u64,
) -> LentAnswer
    ensures { (result ≡ delivered_to (order_of order) net stream.now pool.old cell) × (pool.new ≡ delivered_pool (order_of order) net stream.now pool.old cell) }
{
    let read = Network::from(net);
    let a = network::deliver_by(order_of(order), read, stream, pool, cell);
    lent::answer_back(net, a)
}

#[unsafe(no_mangle)]
pub extern "C" fn riksamoe_network_echo(
    net: LentNetwork,
    stream: &[u8],
    pool: &mut [u8],
    packet: &[u8],
) -> LentAnswer
    ensures { (result ≡ echoed_to default_order net stream.now pool.old packet.now) × (pool.new ≡ echoed_pool default_order net stream.now pool.old packet.now) }
{
    riksamoe_network_echo_by(CHEAPEST_FIRST, net, stream, pool, packet)
}

#[tactic(auto, unfolding(crate::specs::Calls::echoed_to, crate::specs::Calls::echoed_pool))]
#[unsafe(no_mangle)]
pub extern "C" fn riksamoe_network_echo_by(
    order: u8,
    net: LentNetwork,
    stream: &[u8],
    pool: &mut [u8],
    packet: &[u8],
) -> LentAnswer
    ensures { (result ≡ echoed_to (order_of order) net stream.now pool.old packet.now) × (pool.new ≡ echoed_pool (order_of order) net stream.now pool.old packet.now) }
{
    let read = Network::from(net);
    let a = network::echo_by(order_of(order), read, stream, pool, packet);
    lent::answer_back(net, a)
}

#[unsafe(no_mangle)]
pub extern "C" fn riksamoe_network_settle(stream: &[u8], pool: &mut [u8]) -> Answer
    ensures { (result ≡ (settle_of default_order stream.now pool.old).answer) × (pool.new ≡ (settle_of default_order stream.now pool.old).pool) }
{
    network::settle(stream, pool)
}

#[unsafe(no_mangle)]
pub extern "C" fn riksamoe_network_settle_by(order: u8, stream: &[u8], pool: &mut [u8]) -> Answer
    ensures { (result ≡ (settle_of (order_of order) stream.now pool.old).answer) × (pool.new ≡ (settle_of (order_of order) stream.now pool.old).pool) }
{
    network::settle_by(order_of(order), stream, pool)
}

// ---- a network over slots: one cell for each sender, receiver and kind

#[unsafe(no_mangle)]
pub extern "C" fn riksamoe_slots_make(stream: &[u8], pool: &mut [u8]) -> slots::Answer
    ensures { (result ≡ (slotsMakeOf default_order stream.now pool.old).answer) × (pool.new ≡ (slotsMakeOf default_order stream.now pool.old).pool) }
{
    slots::make(stream, pool)
}

#[unsafe(no_mangle)]
pub extern "C" fn riksamoe_slots_make_by(order: u8, stream: &[u8], pool: &mut [u8]) -> slots::Answer
    ensures { (result ≡ (slotsMakeOf (order_of order) stream.now pool.old).answer) × (pool.new ≡ (slotsMakeOf (order_of order) stream.now pool.old).pool) }
{
    slots::make_by(order_of(order), stream, pool)
}

#[unsafe(no_mangle)]
pub extern "C" fn riksamoe_slots_deliver(
    core: LentCore,
    stream: &[u8],
    pool: &mut [u8],
    cell: u64,
) -> LentSlotsAnswer
    ensures { (result ≡ slots_delivered_to default_order core stream.now pool.old cell) × (pool.new ≡ slots_delivered_pool default_order core stream.now pool.old cell) }
{
    riksamoe_slots_deliver_by(CHEAPEST_FIRST, core, stream, pool, cell)
}

#[tactic(auto, unfolding(crate::specs::Calls::slots_delivered_to, crate::specs::Calls::slots_delivered_pool))]
#[unsafe(no_mangle)]
pub extern "C" fn riksamoe_slots_deliver_by(
    order: u8,
    core: LentCore,
    stream: &[u8],
    pool: &mut [u8],
    cell: u64,
) -> LentSlotsAnswer
    ensures { (result ≡ slots_delivered_to (order_of order) core stream.now pool.old cell) × (pool.new ≡ slots_delivered_pool (order_of order) core stream.now pool.old cell) }
{
    let read = Core::from(core);
    let a = slots::deliver_by(order_of(order), read, stream, pool, cell);
    lent::slots_back(core, a)
}

#[unsafe(no_mangle)]
pub extern "C" fn riksamoe_slots_replay(
    core: LentCore,
    stream: &[u8],
    pool: &mut [u8],
    list: &[u8],
) -> LentSlotsAnswer
    ensures { (result ≡ replayed_to default_order core stream.now pool.old list.now) × (pool.new ≡ replayed_pool default_order core stream.now pool.old list.now) }
{
    riksamoe_slots_replay_by(CHEAPEST_FIRST, core, stream, pool, list)
}

#[tactic(auto, unfolding(crate::specs::Calls::replayed_to, crate::specs::Calls::replayed_pool))]
#[unsafe(no_mangle)]
pub extern "C" fn riksamoe_slots_replay_by(
    order: u8,
    core: LentCore,
    stream: &[u8],
    pool: &mut [u8],
    list: &[u8],
) -> LentSlotsAnswer
    ensures { (result ≡ replayed_to (order_of order) core stream.now pool.old list.now) × (pool.new ≡ replayed_pool (order_of order) core stream.now pool.old list.now) }
{
    let read = Core::from(core);
    let a = slots::replay_by(order_of(order), read, stream, pool, list);
    lent::slots_back(core, a)
}

#[unsafe(no_mangle)]
pub extern "C" fn riksamoe_slots_settle(stream: &[u8], pool: &mut [u8]) -> slots::Answer
    ensures { (result ≡ (slotsSettleOf default_order stream.now pool.old).answer) × (pool.new ≡ (slotsSettleOf default_order stream.now pool.old).pool) }
{
    slots::settle(stream, pool)
}

#[unsafe(no_mangle)]
pub extern "C" fn riksamoe_slots_settle_by(
    order: u8,
    stream: &[u8],
    pool: &mut [u8],
) -> slots::Answer
    ensures { (result ≡ (slotsSettleOf (order_of order) stream.now pool.old).answer) × (pool.new ≡ (slotsSettleOf (order_of order) stream.now pool.old).pool) }
{
    slots::settle_by(order_of(order), stream, pool)
}

// The cell of a message; slots::SLOTS where the rules allow none, or no kind has the number.
#[tactic(auto, unfolding(crate::specs::Calls::slot_as))]
#[unsafe(no_mangle)]
pub extern "C" fn riksamoe_slot_of(n: u8, kind: u8, sender: u8, receiver: u8) -> u64
    ensures { result ≡ slot_as (kind_of kind) n sender receiver }
{
    match Kind::try_from(kind) {
        Ok(kind) => slots::slot_of(n, kind, sender, receiver),
        Err(_) => slots::SLOTS,
    }
}

// 1 for the first buffer, 2 for the second, 0 where refused: C is handed no part of a buffer.
#[unsafe(no_mangle)]
pub extern "C" fn riksamoe_newer(n: u8, sizes: Sizes, first: &[u8], second: &[u8]) -> u8
    ensures { result ≡ which_newer n sizes.places first.now second.now }
{
    slots::which_newer(n, sizes.places, first, second)
}

#[unsafe(no_mangle)]
pub extern "C" fn riksamoe_newer_refusal(n: u8, sizes: Sizes, first: &[u8], second: &[u8]) -> u8
    ensures { result ≡ newer_refusal n sizes.places first.now second.now }
{
    base::told(slots::check_newer(n, sizes.places, first, second))
}

// ---- the bench

#[unsafe(no_mangle)]
pub extern "C" fn riksamoe_search(stream: &[u8]) -> Found
    ensures { result ≡ search_of stream.now }
{
    search::exhaustive(stream)
}

#[unsafe(no_mangle)]
pub extern "C" fn riksamoe_branch_and_bound(stream: &[u8]) -> Found
    ensures { result ≡ branch_and_bound_of stream.now }
{
    search::branch_and_bound(stream)
}

#[unsafe(no_mangle)]
pub extern "C" fn riksamoe_ends(total: u32, old: u32, new: u32) -> Range
    ensures { result ≡ ends_of total old new }
{
    sensitivity::ends(total, old, new)
}

// ---- costs pushed forward

// The costs of a table, held in 32 bits.
#[unsafe(no_mangle)]
pub extern "C" fn riksamoe_hold_costs(stream: &[u8], costs: &mut [u32]) -> Length
    ensures { (result ≡ hold_of stream.now (length costs.old)) × (costs.new ≡ hold_into stream.now costs.old) }
{
    projections::hold(stream, costs).into()
}

#[unsafe(no_mangle)]
pub extern "C" fn riksamoe_project(
    costs: &mut [u32],
    n: u8,
    sizes: Sizes,
    floor: u32,
    unit: u8,
    value: u8,
    other: u8,
) -> Moved
    ensures { (result ≡ answer_of (project_of n sizes.places unit value other (held_by floor costs.old))) × (costs.new ≡ (project_of n sizes.places unit value other (held_by floor costs.old)).held.costs) }
{
    projections::project(costs, n, sizes.places, floor, unit, value, other)
}

#[unsafe(no_mangle)]
pub extern "C" fn riksamoe_project_unary(
    costs: &mut [u32],
    n: u8,
    sizes: Sizes,
    floor: u32,
    unit: u8,
) -> Moved
    ensures { (result ≡ answer_of (unary_project_of n sizes.places unit (held_by floor costs.old))) × (costs.new ≡ (unary_project_of n sizes.places unit (held_by floor costs.old)).held.costs) }
{
    projections::project_unary(costs, n, sizes.places, floor, unit)
}

#[unsafe(no_mangle)]
pub extern "C" fn riksamoe_extend(
    costs: &mut [u32],
    n: u8,
    sizes: Sizes,
    floor: u32,
    unit: u8,
    value: u8,
    other: u8,
    part: u32,
) -> Moved
    ensures { (result ≡ answer_of (extend_of n sizes.places unit value other part (held_by floor costs.old))) × (costs.new ≡ (extend_of n sizes.places unit value other part (held_by floor costs.old)).held.costs) }
{
    projections::extend(costs, n, sizes.places, floor, unit, value, other, part)
}

#[unsafe(no_mangle)]
pub extern "C" fn riksamoe_project_all(costs: &mut [u32], n: u8, sizes: Sizes, floor: u32) -> Moved
    ensures { (result ≡ answer_of (project_all_of n sizes.places (held_by floor costs.old))) × (costs.new ≡ (project_all_of n sizes.places (held_by floor costs.old)).held.costs) }
{
    projections::project_all(costs, n, sizes.places, floor)
}

#[unsafe(no_mangle)]
pub extern "C" fn riksamoe_lower_bound(stream: &[u8], costs: &mut [u32]) -> Moved
    ensures { (result ≡ bound_of stream.now (length costs.old)) × (costs.new ≡ bound_into stream.now costs.old) }
{
    projections::lower_bound(stream, costs)
}

// ---- orders and kinds by their numbers

// The order of values of a number.
fn order_of(code: u8) -> ValueOrder
    ensures { result ≡ order_of code }
{
    match code {
        0 => ValueOrder::Ascending,
        _ => ValueOrder::CheapestFirst,
    }
}

// What a message of no kind is refused by: 5 and 10, before 9.
#[tactic(auto, unfolding(crate::specs::Calls::unknown_kind))]
fn check_unknown(n: u8, sizes: [u8; 16], m: Message) -> Result<(), Refusal>
    ensures { told result ≡ unknown_kind n sizes m }
{
    if !base::shape_good(n, sizes) {
        return Err(Refusal::OutOfRange);
    }
    if !message::address_good(n, m) {
        return Err(Refusal::BadUnit);
    }
    Err(Refusal::BadField)
}
