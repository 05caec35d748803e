// Two machines that run apart, each over a pass to the ports, and meet.
//
// Builds on the trait of a machine, on the laws of steps that commute, and on the trait `Wire` of `port_wire`. `leg`
// lets one machine run by itself until it reaches an end stamp, has no room for more bytes, or is refused too often.
// What it did is a leg of the laws, a run of that machine alone against what its pass has heard by then. No step is
// made at the end stamp or later. None is further than the window ahead of a clock of the other side that the pass
// knew.
//
// `turn` parts a whole, runs a leg of each side, each in a thread of its own, and reunites the passes. Then it makes
// one step of the earlier side, which no call refuses. By the laws the two machines are then on the serial run, further
// by at least one step.
#![tactic(auto)]

mod again;
mod apart;
mod calls;
mod calls_whole;
mod earlier;
mod ends;
mod legs;
mod limits;
mod over;
mod runs;
mod stepped;
mod turns;

pub use apart::Apart;
pub use ends::LegEnd;
pub use legs::leg;
pub use port_wire::{CallName, Gate, PassLate, Wire};
pub use stepped::Stepped;
pub use turns::{Turned, turn};
