//! Symbol files of the field's assemblers: the names of addresses, and the lines of source that bytes of a ROM come
//! from.
//!
//! `Symbols` reads VICE labels and debug files of ld65, symbol files of WLA-DX and asar, and the plain lists of bass.
//! It tells the form from the lines themselves, and refuses any other text with the number of its line. `SourceLines`
//! reads the lines of source in a debug file of ld65.
#![tactic(auto)]

mod fields;
mod forms;
mod numbers;
mod refused;
mod source_lines;
mod symbols;

pub use refused::Refused;
pub use source_lines::{SourceLine, SourceLines};
pub use symbols::{Found, Symbols};
