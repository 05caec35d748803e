//! One whole row of the picture, from its layers.
//!
//! The crate depends on the crates of the layers (`ppu_tiles`, `ppu_mode7`, `ppu_objects`) and on `ppu_screens`,
//! which puts them together. `draw` writes a row's 512 dots. Each is `pixel` of `specs/Line.antt`, a function of the
//! picture, the row and the dot. The decoded tiles must be in step with VRAM.
#![tactic(auto)]

mod layers;
mod line;

pub use line::draw;
