// Cells of the pool moved and written.

ghost use Rattle.std.specs.Prelude.{◌≡◌, ◌+◌, ◌≤◌, length};
ghost use Rattle.std.proofs.Math.Seq.{paste};
ghost use Rattle.base.specs.Limits.{message_size};
ghost use Rattle.runs.specs.Pool.Laws.{close_gap};

use base::MESSAGE_SIZE;

// The bytes from `at` + 64 to `end` move down by 64; those from `end` - 64 on stay as they were.
pub(crate) fn close(pool: &mut [u8], at: usize, end: usize)
    requires { (at + message_size ≤ end) × (end ≤ length pool.old) }
    ensures { pool.new ≡ close_gap pool.old at end }
{
    pool.copy_within(at + MESSAGE_SIZE..end, at);
}

// The first n bytes of `source`, written at `at`.
pub(crate) fn copy_in(pool: &mut [u8], at: usize, source: &[u8], n: usize)
    requires { (at + n ≤ length pool.old) × (n ≤ length source.now) }
    ensures { pool.new ≡ paste pool.old at source.now n }
{
    let end = at + n;
    pool[at..end].copy_from_slice(&source[..n]);
}
