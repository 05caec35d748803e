//! The decoded tiles: VRAM with the two plane bytes of each word already taken apart, eight pixels a word.
//!
//! The crate depends on `ppu_regs`. It promises that a line of the cache is what decoding VRAM gives, while the
//! two are in step. `write` writes a register and keeps them so. A caller of `Ppu::write` itself passes the word
//! to `wrote`. Nothing else changes VRAM.
#![tactic(auto)]

mod cache;
mod eights;

pub use cache::{TileCache, write};
pub use eights::line_of_words;
