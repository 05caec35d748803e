//! The backgrounds of the picture modes 0 to 6.
//!
//! The crate depends on `ppu_regs`, `tile_cache` and `scanline_ops`. A background's dot is a function of the picture,
//! `background_layer_dot` in `specs/Backgrounds.antt`. `background_row` writes a row of it as dots with their colours.
//! `ranked_row` writes it as two byte planes, in which a caller compares layers before it looks colours up. Both
//! take decoded tiles that are in step with VRAM, and neither allocates.
#![tactic(auto)]

mod columns;
mod dots;
mod entries;
mod modes;
mod rows;
mod scrolls;
mod small_tiles;

pub use dots::background_row;
pub use modes::depth;
pub use rows::ranked_row;
