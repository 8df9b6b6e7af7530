// Cells of the pool, emptied, filled and looked for.

ghost use Rattle.std.specs.Prelude.{◌≡◌, ◌*◌, ◌<◌, ◌≤◌, length};
ghost use Rattle.base.specs.Limits.{message_size, places};
ghost use Rattle.table.specs.Block.{all_zero};
ghost use Rattle.runs.specs.Pool.{cell_of};
ghost use Rattle.slots.specs.Slot.{slot_cells, slot_pool_size};
ghost use Rattle.slots.specs.Bytes.{take_out, zero_cells, is_empty};
ghost use Rattle.slots.specs.Placing.{named_slot, place_named, place_sent};
ghost use Rattle.slots.specs.Settle.{lowest};

use crate::SLOTS;
use crate::numbering::{slot_of, used_slots};
use base::MESSAGE_SIZE;
use message::Kind;

// Zeros in the cells that n units use.
pub(crate) fn zero_cells(pool: &mut [u8], n: u8)
    requires { (n ≤ places) × (slot_pool_size ≤ length pool.old) }
    ensures { pool.new ≡ zero_cells n pool.old }
{
    let end = MESSAGE_SIZE * used_slots(n) as usize;
    pool[..end].fill(0);
}

// Zeros in a cell.
pub(crate) fn zero_cell(pool: &mut [u8], cell: usize)
    requires { (cell < slot_cells) × (slot_pool_size ≤ length pool.old) }
    ensures { pool.new ≡ take_out pool.old cell }
{
    let at = MESSAGE_SIZE * cell;
    let end = at + MESSAGE_SIZE;
    pool[at..end].fill(0);
}

// The first `sent` packets in `out`, each put into the cell that it names, one after the other.
pub(crate) fn place_all(n: u8, pool: &mut [u8], out: &[u8], sent: usize)
    requires { message_size * sent ≤ length out.now }
    ensures { pool.new ≡ place_sent n pool.old out.now 0 sent }
{
    for i in 0..sent {
        let at = MESSAGE_SIZE * i;
        let end = at + MESSAGE_SIZE;
        place(n, pool, &out[at..end]);
    }
}

// One packet; none where it names no cell.
fn place(n: u8, pool: &mut [u8], packet: &[u8])
    ensures { pool.new ≡ place_named n pool.old packet.now }
{
    let cell = named_slot(n, packet);
    if cell < SLOTS {
        base::put(pool, MESSAGE_SIZE * cell as usize, packet);
    }
}

// The cell of the kind, sender and receiver that stand first in a packet, or SLOTS.
fn named_slot(n: u8, packet: &[u8]) -> u64
    ensures { result ≡ named_slot n packet.now }
{
    let Ok(kind) = Kind::try_from(base::byte_at(packet, 0)) else {
        return SLOTS;
    };
    let sender = base::byte_at(packet, 1);
    let receiver = base::byte_at(packet, 2);
    slot_of(n, kind, sender, receiver)
}

// Whether no message waits at a cell: it is past those used, or all zero.
pub(crate) fn is_empty(n: u8, pool: &[u8], cell: u64) -> bool
    requires { (n ≤ places) × (slot_pool_size ≤ length pool.now) }
    ensures { result ≡ is_empty n pool.now cell }
{
    used_slots(n) <= cell || cell_zero(pool, cell as usize)
}

// The lowest cell where a message waits, or how many are used.
pub(crate) fn lowest(n: u8, pool: &[u8]) -> u64
    requires { (n ≤ places) × (slot_pool_size ≤ length pool.now) }
    ensures { result ≡ lowest n pool.now }
{
    let used = used_slots(n);
    for c in 0..used {
        if !cell_zero(pool, c as usize) {
            return c;
        }
    }
    used
}

fn cell_zero(pool: &[u8], cell: usize) -> bool
    requires { (cell < slot_cells) × (slot_pool_size ≤ length pool.now) }
    ensures { result ≡ all_zero (cell_of pool.now cell) }
{
    let at = MESSAGE_SIZE * cell;
    let end = at + MESSAGE_SIZE;
    all_zero(&pool[at..end])
}

#[tactic(auto, unfolding(table::specs::Block::all_zero))]
fn all_zero(bytes: &[u8]) -> bool
    ensures { result ≡ all_zero bytes.now }
{
    bytes.iter().all(|b| *b == 0)
}
