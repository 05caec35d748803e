// Plays a job whose inputs and outputs are slices of memory, for programs that call the console.
//
// Builds on the readers of the inputs and on what plays a job, and knows no machine. `play` reads a job from four
// slices, plays it by the serial console, and fills two slices with its video and its sound. Its clauses use the
// program's own definitions of what is read and refused (`snes_program`). So a slice is accepted if and only if a file
// of these bytes is. `docs/use/EMBEDDING.md` says how other programs call it.
#![tactic(auto)]

mod filling;
mod inputs;
mod playing;
mod slices;

pub use inputs::{End, Inputs, Why, job_in};
pub use playing::play;
pub use slices::Counts;
