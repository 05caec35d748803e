// What a worker reports to as it starts a leg.
//
// Builds on the plain types alone, so that whoever only passes a gate on needs no ports (`run_drive`, the commands).
#![tactic(auto)]

mod gate;

pub use gate::{Gate, OpenGate};
