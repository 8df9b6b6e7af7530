// What a change of one cost can do to the least total: document 02's retest, the field's sensitivity.
#![tactic(auto)]

mod place; // where the number of a cost stands in a stream

ghost use Rattle.std.specs.Prelude.{◌≡◌};
ghost use Rattle.sensitivity.specs.Ends.{in_limits, ends_of};

use base::{NONE, PAIR_LIMIT, Refusal, TOTAL_LIMIT};
pub use place::{pair_at, unary_at};

// How far the least total may go: the refusal, or 0 with the lowest and the highest that it can become; NONE for both where there is none.
// C is handed it as it is.
#[repr(C)]
#[derive(Clone, Copy, Debug, PartialEq, Eq)]
pub struct Range {
    pub refusal: u8,
    pub lower: u32,
    pub upper: u32,
}

// The ends for a least total, NONE where there is no assignment, of a table in which one cost, unary or pair, becomes `new` where it was `old`.
#[tactic(auto, unfolding(crate::specs::Ends::ends_of))]
pub fn ends(total: u32, old: u32, new: u32) -> Range
    ensures { result ≡ ends_of total old new }
{
    if !in_limits(total, old, new) {
        return Range {
            refusal: Refusal::PastLimit.number(),
            lower: 0,
            upper: 0,
        };
    }
    if total == NONE {
        return Range {
            refusal: 0,
            lower: total,
            upper: total,
        };
    }
    Range {
        refusal: 0,
        lower: total.saturating_sub(old.saturating_sub(new)),
        upper: total + new.saturating_sub(old),
    }
}

// Whether costs and total are within their limits; no total at all is too.
fn in_limits(total: u32, old: u32, new: u32) -> bool
    ensures { result ≡ in_limits total old new }
{
    old <= PAIR_LIMIT && new <= PAIR_LIMIT && (total <= TOTAL_LIMIT || total == NONE)
}
