//! Where a frame of a film differs from a picture that is kept as PNG.
//!
//! A golden picture has 512 or 256 pixels across and 478, 448, 239 or 224 down. Each half-pixel of the frame is compared
//! with the pixels that lie over it. `Found` has how many differ, the first of them, and a frame that shows where.
#![tactic(auto)]

mod compare;
mod golden;

pub use compare::{Found, Place};
pub use golden::Golden;
