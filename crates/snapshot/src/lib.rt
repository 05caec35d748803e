//! Save states of a run: moments that are kept in slots and gone back to.
//!
//! Builds on the two machines and on the serial console. A `Rewind` is on a path: the spans that its console has
//! played since the start of its job, and its resets. Its machines are where the serial run of that path's job ends
//! (`specs/Path.antt`, `specs/Positions.antt`). However it went back, a span emits exactly what the run of the longer
//! path has beyond that of the shorter one. `proofs/Runs.antt` shows that a script that goes on, or has a reset more,
//! leaves the run so far as it was.
//!
//! A caller begins a span, then steps and takes the bytes until both stamps have reached the end. It keeps, goes back
//! and presses the reset button only there. `docs/use/REWIND.md` has the rules. Only `Rewind::with_room` and
//! `Rewind::new` allocate.
#![tactic(auto)]

mod memory;
mod rewind;
mod room_law;
mod run;

pub use rewind::Rewind;
pub use room_law::room_is_not_seen;
