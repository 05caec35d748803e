//! The PPU's registers, 2100 to 213F, and its three memories: VRAM, CGRAM and OAM.
//!
//! The crate depends on `snes_defs`. Contracts see `Ppu` as the record `Picture` of `specs/Picture.antt`:
//! all registers by name, and the three memories as lists.
#![tactic(auto)]

mod bits;
mod cgram;
mod dots;
mod layers;
mod oam;
mod pages;
mod ppu;
mod reads;
mod registers;
mod start;
mod vram;
mod writes;

pub use dots::{Dot, LayerDot, RankedRow, direct_colour};
pub use ppu::Ppu;
pub use registers::{
    Background, CgramPort, ColourMath, Combine, Counters, Display, LayerScreens, LayerWindows,
    OamPort, ObjectTiles, Outside, Over, Registers, Rotation, Settings, VramPort, Window,
    WindowPart,
};
