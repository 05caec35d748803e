//! Some of the parts of a sound file's sound, and a fade at the end, into a sink.
//!
//! Builds on `spc_player`. `play_heard` plays as `Player::play` does, and passes the sink the bytes of a stem: of some
//! of the eight voices and the echo. The last samples may fade out. `specs/Heard.antt` says which bytes these are.
//! No call allocates.
#![tactic(auto)]

mod fade;
mod heard;
mod play;

pub use heard::Heard;
pub use play::play_heard;
