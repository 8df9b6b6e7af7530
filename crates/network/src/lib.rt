// A network of units with a pool of waiting messages: making, delivery, and running to the end.
#![tactic(auto)]

mod decimal; // a count in decimal digits
mod delivery; // the message at a cell delivered
mod echoing; // a packet heard again
mod lending; // the costs of all units, gathered once
mod making; // a network made of a stream
mod pool; // cells moved and written
mod settling; // a network run to its end
mod short; // a message that goes a short way

// Each call that is told no order of values has `by` one that is: README and C name both.
pub use costs::ValueOrder;
pub use decimal::digits;
pub use delivery::{deliver, deliver_by};
pub use echoing::{echo, echo_by};
pub use making::{make, make_by};
pub use runs::{Answer, Core, Count, Network, Text};
pub use settling::{settle, settle_by};
