//! Draws a row of the picture dot by dot, as slowly and plainly as possible: the reference for the fast rows.
//!
//! Except for plain types, the crate depends on `ppu_regs` alone, and there on the registers and the three memories. It
//! has its own code for backgrounds, objects, mode 7, windows, the order of the layers and the arithmetic of colours.
//! All of it reads VRAM, OAM and CGRAM directly. Nothing is kept from dot to dot except what the objects of a row show.
//!
//! The crate is proved safe and total. That it shows the same rows as `ppu_line` is tested, by the cases of
//! `scene_vectors`, of scenes and of random rows.
#![tactic(auto)]

mod background;
mod colours;
mod layers;
mod memory;
mod mode_seven;
mod objects;
mod row;
mod windows;

pub use row::draw_slowly;
