// A count in two words.

ghost use Rattle.std.specs.Prelude.{◌≡◌};
ghost use Rattle.runs.specs.Count.{plus};

use runs::Count;

// m more, modulo 2^128.
pub fn plus(c: Count, m: u64) -> Count
    ensures { result ≡ plus m c }
{
    let (low, over) = c.low.overflowing_add(m);
    Count {
        low,
        high: c.high.wrapping_add(u64::from(over)),
    }
}
