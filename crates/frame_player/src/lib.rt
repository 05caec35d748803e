//! A console that is played a frame at a time, for programs that hold it between frames.
//!
//! Builds on the rewinder (`snapshot`) and on what reads the inputs of a job (`memory_player`). `Frames::begin` makes a
//! console of a cartridge, a boot ROM and a table. `frame` plays one frame with the pads of that frame, and hands out its
//! picture and its samples. `reset` presses the reset button. `keep` stores a save state in a slot, and `back` returns
//! to it. `specs/Told.antt` has what the calls so far told the console, `specs/Frames.antt` what each call does. Only
//! `begin` allocates.
#![tactic(auto)]

mod begin;
mod console;
mod ends;
mod frame_bytes;
mod frames;
mod moves;

pub use begin::ConsoleInputs;
pub use console::Frames;
pub use ends::{BeginEnd, FrameEnd};
