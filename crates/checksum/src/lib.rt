// The check of blocks and packets.
#![tactic(auto)]

ghost use Rattle.std.specs.Prelude.{◌≡◌, ◌≤◌, length};
ghost use Rattle.base.specs.Limits.{checked_size};
ghost use Rattle.checksum.specs.Sum.{weigh, sum_of};

use base::{BLOCK_SIZE, CHECKED_SIZE};

// As specs/Sum has it; weights come round again after as many bytes.
const MODULUS: u32 = 65521;

const ROUND: usize = MODULUS as usize;

// The sum of (k + 1) times byte k, modulo 65,521: of a block or a message, and of anything as short, by one remainder.
pub fn sum(bytes: &[u8]) -> u32
    ensures { result ≡ sum_of bytes.now }
{
    if bytes.len() <= CHECKED_SIZE {
        short_sum(bytes) % MODULUS
    } else {
        long_sum(bytes)
    }
}

// The sum itself: of so few bytes it fits 32 bits, and no test stands in the loop, so that a compiler can add up many bytes at once; the
// remainder, which changes nothing, tells it that weights are small numbers too.
fn short_sum(bytes: &[u8]) -> u32
    requires { length bytes.now ≤ checked_size }
    ensures { result ≡ weigh 0 bytes.now }
{
    let mut total: u32 = 0;
    for (i, b) in bytes.iter().enumerate() {
        let weight = (i % BLOCK_SIZE) as u32 + 1;
        total += weight * u32::from(*b);
    }
    total
}

// Both the sum and the weight are reduced at each byte, so that no length is too long.
fn long_sum(bytes: &[u8]) -> u32
    ensures { result ≡ sum_of bytes.now }
{
    let mut total: u32 = 0;
    for (i, b) in bytes.iter().enumerate() {
        let weight = (i % ROUND) as u32 + 1;
        total = (total + weight * u32::from(*b)) % MODULUS;
    }
    total
}
