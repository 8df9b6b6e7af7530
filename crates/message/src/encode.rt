// The 64 bytes of a message, laid into a lent buffer.

ghost use Rattle.std.specs.Prelude.{◌≡◌, ◌+◌, ◌≤◌, ◌++◌, ◌∷◌, [], length};
ghost use Rattle.base.specs.Limits.{message_size};
ghost use Rattle.base.specs.Put.{put_at};
ghost use Rattle.base.specs.Refusal.{told};
ghost use Rattle.message.specs.Decode.{put_refusal, put_into};
ghost use Rattle.message.specs.Written.{body, encode};

use crate::{BEST_BYTE, BOUND_BYTE, CHECK_BYTE, COST_BYTE, Kind, Message, STAMP_BYTE, VALUES_BYTE};
use base::{MESSAGE_SIZE, Refusal};

// The 64 bytes of a message laid at `at`, its fields unchecked. Refusal 13 where they don't fit.
#[tactic(auto, unfolding(crate::specs::Decode::put_refusal, crate::specs::Decode::put_into))]
pub fn put(kind: Kind, m: Message, out: &mut [u8], at: usize) -> Result<(), Refusal>
    ensures { (told result ≡ put_refusal (length out.old) at) × (out.new ≡ put_into kind m out.old at) }
{
    if out.len() < MESSAGE_SIZE || out.len() - MESSAGE_SIZE < at {
        return Err(Refusal::NoRoom);
    }
    let bytes = encode(kind, m);
    lay(&bytes, out, at);
    Ok(())
}

// The 64 bytes.
fn encode(kind: Kind, m: Message) -> [u8; MESSAGE_SIZE]
    ensures { result ≡ encode kind m }
{
    let mut r = body(kind, m);
    let sum = checksum::sum(&r[0..CHECK_BYTE]) as u16;
    lay(&sum.to_le_bytes(), &mut r, CHECK_BYTE);
    r
}

// Bytes 0 to 61, and zeros for the checksum.
fn body(kind: Kind, m: Message) -> [u8; MESSAGE_SIZE]
    ensures { result ≡ body kind m ++ 0 ∷ 0 ∷ [] }
{
    let mut r = [0u8; MESSAGE_SIZE];
    r[0] = u8::from(kind);
    r[1] = m.sender;
    r[2] = m.receiver;
    lay(&m.stamp, &mut r, STAMP_BYTE);
    lay(&m.values, &mut r, VALUES_BYTE);
    lay(&m.cost.to_le_bytes(), &mut r, COST_BYTE);
    lay(&m.bound.to_le_bytes(), &mut r, BOUND_BYTE);
    lay(&m.best, &mut r, BEST_BYTE);
    r
}

// Bytes laid at `at` of the lent ones.
fn lay(bytes: &[u8], out: &mut [u8], at: usize)
    requires { at + length bytes.now ≤ length out.old }
    ensures { out.new ≡ put_at out.old at bytes.now }
{
    let end = at + bytes.len();
    out[at..end].copy_from_slice(bytes);
}
