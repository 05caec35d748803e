// What two workers may do with the ports while each has a pass to them, whatever implements it.
//
// Builds on the entries of the ports. `Wire` is the trait of what carries the two sides' entries. A whole is parted
// into two passes, one for each side, which are reunited later. Each call over a pass returns or is refused without
// waiting. `specs/` has what contracts see of a pass. That is its list of entries, what it has heard of the other's,
// and the stamp up to which it has heard all. It is also its clock, and the tally of its refusals.
//
// No call waits for the other side. A refused call changes nothing but what the pass has heard and its tally. `Counts`
// keeps the tally of refusals, for whoever carries entries. `Gate` is what a worker reports to as it starts a leg.
#![tactic(auto)]

mod counts;
mod late;
mod wire;

pub use counts::{Counts, Refusal, counted};
pub use late::{CallName, PassLate};
pub use wire::Wire;
pub use worker_gate::{Gate, OpenGate};
