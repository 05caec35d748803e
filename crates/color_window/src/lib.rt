//! The PPU's windows and colour arithmetic.
//!
//! The crate depends on `ppu_regs`, and on `scanline_ops` for the arithmetic of two colours. `inside` returns
//! whether a pixel is in a layer's windows (`specs/Windows.antt`). `mix` returns what the main screen shows at a
//! pixel before brightness (`specs/Mixing.antt`). `mask_row` and `mix_row` do this for a row of 256 pixels.
//!
//! If the main screen is black nowhere, `mark_mixed` and `mix_marked` are the two halves of `mix_row`. So a caller
//! finds a row without arithmetic first.
#![tactic(auto)]

mod mixing;
mod windows;

pub use mixing::{fixed, mark_mixed, mix, mix_marked, mix_row};
pub use windows::{inside, mask_row};
