//! The rotated and scaled background of mode 7.
//!
//! The crate depends on `ppu_regs` and `scanline_ops`. `rotated_row` writes a row of dots of layer 1, or of layer 2 of
//! EXTBG, and `rotated_planes` writes that row as two byte planes. Both are exact by `rotated_layer_dot` of
//! `specs/Rotated.antt`, a function of the registers, VRAM, the layer, the row and the pixel.
#![tactic(auto)]

mod places;
mod rows;
mod texels;

pub use rows::{rotated_planes, rotated_row};
