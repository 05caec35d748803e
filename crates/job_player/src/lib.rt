// The player of jobs: the console that a job makes, and all memory of its run.
//
// Builds on both sides of the console and on the loops that run two machines. `Console` is made from a job, with both
// sides at their starts, and is a player. However it is run, it emits the output of the serial console of the two.
// That goes from their starts to the end of the job's frames (`specs/Start.antt`). It also plays plans, by a rewinder
// of the two sides (`Planned`). `SoundTaker` is what plays a job for its sound file (`specs/Sounded.antt`).
#![tactic(auto)]

mod console;
mod left;
mod nowhere;
mod onward;
mod planned;
mod sounding;
mod turning;

pub use console::Console;
pub use left::Leaving;
pub use planned::Planned;
pub use sounding::{SoundTaker, Sounding};
pub use turning::{Carrier, Turning, play_by_turns};
