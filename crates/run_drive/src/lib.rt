// Runs of two machines from their start to an end stamp, and the bytes that they emit on the way.
//
// Builds on the serial console and on the shelf of files, and knows neither a console nor a sound side. The loops are
// generic over two machines, and over a `Sink` that takes what they emit. Any shelf is one, under the names of its
// outputs for video and sound. At Ok it took, byte for byte, the output of the serial run of the two machines,
// whichever loop ran them. Otherwise it took a prefix of that.
//
// A caller makes both machines and the buffer, and has created the outputs. `docs/proof/RUNS.md` has the
// rules.
#![tactic(auto)]

mod driving;
mod player;
mod pours;
mod serial_run;
mod shelf_sink;
mod sink;
mod state_player;
mod turn_player;

pub use driving::drive;
pub use player::Player;
pub use pours::pour;
pub use serial_run::{run_serial, run_to_end};
pub use shelf_sink::out_of;
pub use sink::Sink;
pub use state_player::StatePlayer;
pub use turn_player::TurnPlayer;
