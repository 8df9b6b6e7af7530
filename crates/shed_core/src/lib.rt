// The units and counts of a network, whatever pool their messages wait in: made, checked, and changed by a step.
#![tactic(auto)]

mod counting; // a count in two words
mod handing; // a packet handed to its unit
mod making; // unit 1 made, the others new
mod states; // what is asked of the stream and the states

pub use counting::plus;
pub use handing::{advance, receiver, step};
pub use making::{begun, check_making, first_step, no_core};
pub use states::check;
