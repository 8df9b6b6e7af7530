// Bytes read into kind and fields: checks 8 and 9.

ghost use Rattle.std.specs.Prelude.{◌≡◌, ◌+◌, ◌≤◌, length, take, drop, get_or};
ghost use Rattle.base.specs.Limits.{places, message_size};
ghost use Rattle.message.specs.Message.{kind_of};
ghost use Rattle.message.specs.Decode.{message_in, check_good, rest_zero, parse_kind};

use crate::{
    BEST_BYTE, BOUND_BYTE, CHECK_BYTE, COST_BYTE, Kind, Message, STAMP_BYTE, VALUES_BYTE,
    ZERO_BYTE, well_formed,
};
use base::Refusal;

// Check 8: 64 bytes, and the checksum is right.
#[tactic(auto, unfolding(crate::specs::Decode::check_good))]
pub(crate) fn check_good(bytes: &[u8]) -> bool
    ensures { result ≡ check_good bytes.now }
{
    bytes.len() == base::MESSAGE_SIZE
        && base::u16_at(bytes, CHECK_BYTE) == checksum::sum(&bytes[0..CHECK_BYTE])
}

// Check 9, on the bytes and on the fields read from them.
#[tactic(auto, unfolding(crate::specs::Decode::parse_kind))]
pub(crate) fn parse_kind(
    n: u8,
    sizes: [u8; 16],
    bytes: &[u8],
    m: Message,
) -> Result<(Kind, Message), Refusal>
    ensures { result ≡ parse_kind n sizes bytes.now m (kind_of (get_or bytes.now 0 0)) }
{
    let kind = Kind::try_from(base::byte_at(bytes, 0))?;
    if !rest_zero(bytes) || !well_formed(n, sizes, kind, m) {
        return Err(Refusal::BadField);
    }
    Ok((kind, m))
}

// Whether bytes 3, 60 and 61 are zero.
#[tactic(auto, unfolding(crate::specs::Decode::rest_zero))]
fn rest_zero(bytes: &[u8]) -> bool
    ensures { result ≡ rest_zero bytes.now }
{
    base::byte_at(bytes, 3) == 0 && base::u16_at(bytes, ZERO_BYTE) == 0
}

// The fields of a message's bytes.
#[tactic(auto, unfolding(crate::specs::Decode::message_in))]
pub(crate) fn message_in(bytes: &[u8]) -> Message
    requires { length bytes.now ≡ message_size }
    ensures { result ≡ message_in bytes.now }
{
    let stamp = bytes16(bytes, STAMP_BYTE);
    let values = bytes16(bytes, VALUES_BYTE);
    let best = bytes16(bytes, BEST_BYTE);
    Message {
        sender: base::byte_at(bytes, 1),
        receiver: base::byte_at(bytes, 2),
        stamp,
        values,
        cost: base::u32_at(bytes, COST_BYTE),
        bound: base::u32_at(bytes, BOUND_BYTE),
        best,
    }
}

// 16 bytes from `at` on.
fn bytes16(bytes: &[u8], at: usize) -> [u8; 16]
    requires { at + places ≤ length bytes.now }
    ensures { result ≡ take places (drop at bytes.now) }
{
    let mut r = [0u8; 16];
    r.copy_from_slice(&bytes[at..at + base::PLACES]);
    r
}
