// The bytes of a state: registers and memories of both sides, as the command `dump` writes them.
//
// Stands on the two machines and on the serial console that joins them. `specs/State.antt` says which bytes they are, and
// `docs/use/STATE.md` has the same as a table of offsets. All memory is allocated by `StateBytes::new`, or by
// `with_room` for another file that is put in this way (`sound_file`).
#![tactic(auto)]

mod bytes;
mod state;

pub use bytes::StateBytes;
pub use state::{put_shown, put_state};
