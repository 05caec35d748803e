//! A console that a C program holds between calls.
//!
//! C has a struct of two fields, `SnesConsole`. It zeroes the struct, hands it to each call, and never follows the
//! pointer in it. The state lies on the heap. Ghost fields say what lies there, and what the calls told so far.
#![tactic(auto)]

mod console;
mod kept;
mod loose;

pub use console::SnesConsole;
pub use kept::KeptFrames;
