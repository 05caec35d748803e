//! The beam: its line and line clock, and the events at the places that it passes.
//!
//! The crate depends on `snes_defs` alone. A line has 1,364 master clocks in both regions. One table says what
//! happens at a place (`specs/Events.antt`). Every call follows it, in whatever steps the beam advances.
//!
//! A caller that takes many small steps calls `clocks_left` once and counts down. Until the end of the count nothing
//! happens, as `go_on` promises. There `reach` returns what happens.
#![tactic(auto)]

mod beam;
mod events;

pub use beam::Beam;
pub use events::{Event, Happens};
