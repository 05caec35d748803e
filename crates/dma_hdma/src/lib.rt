//! DMA and HDMA: eight channels that move bytes between the address space (A) and the registers at 2100 to
//! 21FF (B). DMA moves them in one go, HDMA a few at each scanline by a table.
//!
//! The crate depends on std alone, and touches no memory: `next` returns the byte to be moved, the caller moves
//! it, and `done` records it. Contracts see a `Dma` as the list of its eight channels. `specs/Channel` defines
//! what a channel does, table by table. HDMA goes before DMA, and each goes from channel 0 up.
#![tactic(auto)]

mod channel_state;
mod each;
mod moves;
mod transfers;
mod turns;
mod whose;

pub use channel_state::{Channel, Work};
pub use moves::Move;
pub use transfers::Dma;
