// A count in decimal digits.

ghost use Rattle.std.specs.Prelude.{◌≡◌, ◌+◌, ◌*◌, ◌<◌, ◌≤◌, ◌==◌};
ghost use Rattle.runs.specs.Count.{value_of};
ghost use Rattle.runs.specs.Digits.{digits_of};

use runs::{Count, Text};

// A count divided by ten.
#[derive(Clone, Copy)]
struct Divided {
    quotient: Count,
    digit: u8,
}

// The decimal digits of a count, most significant first, at the end of the text.
pub fn digits(c: Count) -> Text
    ensures { (result ≡ digits_of (value_of c)) × (result.start ≤ 40) }
{
    let mut text = [0u8; 40];
    let mut rest = c;
    for start in (0..40).rev() {
        let d = tenth(rest);
        text[start] = b'0' + d.digit;
        rest = d.quotient;
        if is_zero(rest) {
            return Text { text, start };
        }
    }
    Text { text, start: 0 }
}

fn is_zero(c: Count) -> bool
    ensures { result ≡ (value_of c == 0) }
{
    c.high == 0 && c.low == 0
}

// Long division by ten: the high word, then the low one in two halves.
fn tenth(c: Count) -> Divided
    ensures { (value_of c ≡ 10 * value_of result.quotient + result.digit) × (result.digit < 10) }
{
    let upper = c.high % 10 * 4294967296 + c.low / 4294967296;
    let lower = upper % 10 * 4294967296 + c.low % 4294967296;
    Divided {
        quotient: Count {
            low: upper / 10 * 4294967296 + lower / 10,
            high: c.high / 10,
        },
        digit: (lower % 10) as u8,
    }
}
