// The cell of a kind, a sender and a receiver.

ghost use Rattle.std.specs.Prelude.{◌≡◌, ◌≤◌};
ghost use Rattle.message.specs.declared.Kind.TheVariants.{Cpa, Request, Estimate, Solution, Stop};
ghost use Rattle.slots.specs.Slot.{used_slots, triangle, slot_or_none};
ghost use Rattle.slots.specs.Slot.Laws.{Units, slot_if_allowed};

use crate::SLOTS;
use message::Kind;

// The cell of a message of this kind, from a sender to a receiver; SLOTS where the rules allow none, past every cell that up to 16 units use,
// as C is told by that number.
pub fn slot_of(n: u8, kind: Kind, sender: u8, receiver: u8) -> u64
    ensures { result ≡ slot_or_none n kind sender receiver }
{
    if !message::is_unit(n, sender) || !message::is_unit(n, receiver) {
        return SLOTS;
    }
    let count = u64::from(n);
    let from = u64::from(sender);
    let to = u64::from(receiver);
    match kind {
        Kind::Cpa => cpa_slot(count, from, to),
        Kind::Request => request_slot(count, from, to),
        Kind::Estimate => estimate_slot(count, from, to),
        Kind::Solution => solution_slot(count, from, to),
        Kind::Stop => stop_slot(count, from, to),
    }
}

// The cells that n units use, the first of the pool.
pub fn used_slots(n: u8) -> u64
    ensures { result ≡ used_slots n }
{
    let count = u64::from(n);
    count.saturating_sub(1) * (count + 4)
}

// Between neighbours: down, from 0 on, every second cell, and back in between.
fn cpa_slot(n: u64, sender: u64, receiver: u64) -> u64
    requires { Units n sender receiver }
    ensures { result ≡ slot_if_allowed n Cpa sender receiver }
{
    if receiver == sender + 1 {
        return sender + receiver - 3;
    }
    if sender == receiver + 1 {
        return sender + receiver - 2;
    }
    SLOTS
}

// To a later unit: past the later units of the senders before.
fn request_slot(n: u64, sender: u64, receiver: u64) -> u64
    requires { Units n sender receiver }
    ensures { result ≡ slot_if_allowed n Request sender receiver }
{
    if receiver <= sender {
        return SLOTS;
    }
    let before = triangle(n) - triangle(n + 1 - sender);
    2 * (n - 1) + (before + (receiver - sender - 1))
}

// To an earlier unit: past the earlier units of the senders before.
fn estimate_slot(n: u64, sender: u64, receiver: u64) -> u64
    requires { Units n sender receiver }
    ensures { result ≡ slot_if_allowed n Estimate sender receiver }
{
    if sender <= receiver {
        return SLOTS;
    }
    2 * (n - 1) + triangle(n) + (triangle(sender - 1) + (receiver - 1))
}

// From unit n to another.
fn solution_slot(n: u64, sender: u64, receiver: u64) -> u64
    requires { Units n sender receiver }
    ensures { result ≡ slot_if_allowed n Solution sender receiver }
{
    if sender != n || receiver == sender {
        return SLOTS;
    }
    2 * (n - 1) + 2 * triangle(n) + (receiver - 1)
}

// From unit 1 to another.
fn stop_slot(n: u64, sender: u64, receiver: u64) -> u64
    requires { Units n sender receiver }
    ensures { result ≡ slot_if_allowed n Stop sender receiver }
{
    if sender != 1 || receiver == sender {
        return SLOTS;
    }
    3 * (n - 1) + 2 * triangle(n) + (receiver - 2)
}

// The pairs of m units.
fn triangle(m: u64) -> u64
    requires { m ≤ 255 }
    ensures { (result ≡ triangle m) × (result ≤ 32385) }
{
    m * m.saturating_sub(1) / 2
}
