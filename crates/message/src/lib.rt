// The radio message: 64 bytes, read and written.
#![tactic(auto)]

ghost use Rattle.std.specs.Prelude.{◌≡◌, length};
ghost use Rattle.base.specs.Refusal.{told};
ghost use Rattle.message.specs.Message.{kind_code, kind_of};
ghost use Rattle.message.specs.Decode.{parse_of, parse_for, write_refusal, packet_into};
ghost use Rattle.message.specs.Unpack.{unpack_of};

mod decode; // bytes read into kind and fields
mod encode; // the 64 bytes of a message, laid into a lent buffer
mod fields; // which fields go together: checks 10 and 9

use base::Refusal;
pub use encode::put;
pub use fields::{
    address_good, bound_good, filled_to, is_unit, none_or_bound, prefix_limit, well_formed,
};
use std::fmt;

// Where the fields of a message begin, as specs/Layout has them.
const STAMP_BYTE: usize = 4;

const VALUES_BYTE: usize = 20;

const COST_BYTE: usize = 36;

const BOUND_BYTE: usize = 40;

const BEST_BYTE: usize = 44;

const ZERO_BYTE: usize = 60;

const CHECK_BYTE: usize = 62;

// 01: "1 paper, 2 copy, 3 estimate, 4 news, 5 stop".
#[derive(Clone, Copy, Debug, PartialEq, Eq)]
pub enum Kind {
    Cpa = 1,
    Request = 2,
    Estimate = 3,
    Solution = 4,
    Stop = 5,
}

// The kind of a number; refused by 9 where it is no kind's.
impl TryFrom<u8> for Kind {
    type Error = Refusal;

    ghost try_from_gives = { λ b r. r ≡ kind_of b };

    fn try_from(b: u8) -> Result<Kind, Refusal> {
        match b {
            1 => Ok(Kind::Cpa),
            2 => Ok(Kind::Request),
            3 => Ok(Kind::Estimate),
            4 => Ok(Kind::Solution),
            5 => Ok(Kind::Stop),
            _ => Err(Refusal::BadField),
        }
    }
}

// A kind is printed by 01's word.
impl fmt::Display for Kind {
    fn fmt<W: fmt::Write>(&self, f: &mut fmt::Formatter<W>) -> fmt::Result {
        f.write_str(match self {
            Kind::Cpa => "paper",
            Kind::Request => "copy",
            Kind::Estimate => "estimate",
            Kind::Solution => "news",
            Kind::Stop => "stop",
        })
    }
}

// 01's number of a kind.
impl From<Kind> for u8 {
    ghost from_gives = { λ kind b. b ≡ kind_code kind };

    fn from(kind: Kind) -> u8 {
        kind as u8
    }
}

// The fields of a message beside its kind.
#[repr(C)]
#[derive(Clone, Copy, Debug, PartialEq, Eq)]
pub struct Message {
    pub sender: u8,
    pub receiver: u8,
    pub stamp: [u8; 16],
    pub values: [u8; 16],
    pub cost: u32,
    pub bound: u32,
    pub best: [u8; 16],
}

// What a kind carries besides a bound: units 1 to `stamps` have a stamp, 1 to `values` a value, and the cost is at most `cost`, or `none` says
// that it may be NONE.
#[derive(Clone, Copy)]
struct Carried {
    stamps: u8,
    values: u8,
    cost: u32,
    none: bool,
}

// A message read: its kind and fields, or a refusal: 5, 8, 10, 9. Any receiver will do: it is read as by the unit that it names.
pub fn parse(n: u8, sizes: [u8; 16], bytes: &[u8]) -> Result<(Kind, Message), Refusal>
    ensures { result ≡ parse_of n sizes bytes.now }
{
    parse_for(n, sizes, base::byte_at(bytes, 2), bytes)
}

// The same by unit `own`: a message for another unit is refused by 10. An `own` that is no unit's number is no message's receiver.
#[tactic(auto, using(crate::specs::DecodeLaws::check_length), unfolding(crate::specs::Decode::parse_for))]
pub fn parse_for(n: u8, sizes: [u8; 16], own: u8, bytes: &[u8]) -> Result<(Kind, Message), Refusal>
    ensures { result ≡ parse_for n sizes own bytes.now }
{
    if !base::shape_good(n, sizes) {
        return Err(Refusal::OutOfRange);
    }
    if !decode::check_good(bytes) {
        return Err(Refusal::Damaged);
    }
    let m = decode::message_in(bytes);
    if !address_good(n, m) || m.receiver != own {
        return Err(Refusal::BadUnit);
    }
    decode::parse_kind(n, sizes, bytes, m)
}

// 64 bytes that are known to be a message: kind and fields as they stand. Refusals 8 (not 64 bytes) and 9 (no kind), and no other check.
#[tactic(auto, unfolding(crate::specs::Unpack::unpack_of))]
pub fn unpack(bytes: &[u8]) -> Result<(Kind, Message), Refusal>
    ensures { result ≡ unpack_of bytes.now }
{
    if bytes.len() != base::MESSAGE_SIZE {
        return Err(Refusal::Damaged);
    }
    let kind = Kind::try_from(base::byte_at(bytes, 0))?;
    Ok((kind, decode::message_in(bytes)))
}

// A message written first in the lent bytes. Refusals 5, 10, 9, 13.
#[tactic(auto, unfolding(crate::specs::Decode::write_refusal, crate::specs::Decode::packet_into, crate::specs::Decode::put_refusal, crate::specs::Decode::put_into))]
pub fn write(n: u8, sizes: [u8; 16], kind: Kind, m: Message, out: &mut [u8]) -> Result<(), Refusal>
    ensures { (told result ≡ write_refusal n sizes kind m (length out.old)) × (out.new ≡ packet_into n sizes kind m out.old) }
{
    if !base::shape_good(n, sizes) {
        return Err(Refusal::OutOfRange);
    }
    if !address_good(n, m) {
        return Err(Refusal::BadUnit);
    }
    if !well_formed(n, sizes, kind, m) {
        return Err(Refusal::BadField);
    }
    put(kind, m, out, 0)
}
