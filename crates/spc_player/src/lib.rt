//! A player of sound files: the sound side alone, started from the state in a file.
//!
//! Builds on `audio_side`, and on the sink of `run_drive`. `Player::play` passes that sink exactly the first pairs
//! (stereo samples) that the machine emits. `read_spc` says which files are accepted, and what they hold
//! (`specs/SoundFile.antt`). `Player` is the machine that begins there (`specs/Play.antt`). Nobody is at the other
//! side of its ports, so a read gets the byte that the file has there, and a write changes none.
//! `docs/use/SPC-FILES.md` has the format and what a file leaves out.
#![tactic(auto)]

mod apart;
mod image;
mod play;
mod player;

pub use image::{SpcEnd, SpcImage, SpcRefused, read_spc};
pub use player::Player;
