// The serial console: two machines joined by eight bytes. The earlier one runs each step.
//
// Builds on the trait of a machine. `Serial` is the plain program against which everything that runs the two machines
// in another order is compared. Its turn is exactly `turn` of the definitions of `side_law`, for any two machines.
// `leading` runs many steps of a side, ahead of the other by quiet ones. Each side does so in one call of its machine:
// the sound side with the eight bytes as its ports (`lead_by`, `Bytes`), the console with the sound side behind its
// ports (`lead_over`, `Rest`). The sound side then runs up to each call of the console.
//
// In contracts a serial console is its two machines and eight bytes (`specs/Joined.antt`). What `Rest` notes besides
// them lasts for one call.
//
// The side whose turn it is needs room for the bytes of one step: `Machine::ready` before each turn is enough. The
// earlier stamp is at most 2^62. `docs/proof/RUNS.md` has the rule.
#![tactic(auto)]

mod behind;
mod bytes;
mod leading;
mod ports;
mod rest;
mod serial;

pub use behind::Rest;
pub use bytes::{Bytes, lead_by};
pub use rest::lead_over;
pub use serial::{Serial, step};
