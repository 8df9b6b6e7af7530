// A network of units over the pool of 02, job 4, which keeps the last message for each sender, receiver and kind: the numbering of its cells,
// the newer of two messages for one, making, delivery, a recorded run replayed, and running to the end.
#![tactic(auto)]

ghost use Rattle.std.specs.Prelude.{◌≡◌};
ghost use Rattle.base.specs.Refusal.{number_of};

mod cells; // cells emptied, filled and looked for
mod delivery; // the message at a cell delivered
mod making; // a network made of a stream
mod numbering; // the cell of a kind, a sender and a receiver
mod pair; // the newer of two lent messages
mod replaying; // a recorded run replayed
mod settling; // a network run to its end

use base::Refusal;
// Each call that is told no order of values has `by` one that is: README and C name both. Making, delivery and settling are the twins of `network`'s
// but for the pool and for the struct that C is handed; what they share is `shed_core`.
pub use costs::ValueOrder;
pub use delivery::{deliver, deliver_by};
pub use making::{make, make_by};
pub use numbering::{slot_of, used_slots};
pub use pair::{check_newer, newer, which_newer};
pub use replaying::{replay, replay_by};
pub use runs::{Core, Count};
pub use settling::{settle, settle_by};

// The cells of this pool, and its bytes, as specs/Slot has them.
pub const SLOTS: u64 = 300;

pub const SLOT_POOL_SIZE: usize = 19200;

// What making, a delivery and a replay give beside the pool's bytes; C is handed it as it is. No one Answer with `runs`: the other has the cells in
// use too.
#[repr(C)]
#[derive(Clone, Copy)]
pub struct Answer {
    pub refusal: u8,
    pub core: Core,
}

impl Answer {
    // What a refused call gives beside the units and counts as they were lent.
    fn refused(refusal: Refusal, core: Core) -> Answer
        ensures { result ≡ record { refusal = number_of refusal; core = core } }
    {
        Answer {
            refusal: refusal.number(),
            core,
        }
    }
}
