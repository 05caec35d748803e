//! The CPU's own registers, 4016 to 421F: controller ports, interrupts, multiplication and division.
//!
//! The crate depends on `snes_defs` alone. Contracts see `Io` as its registers by name. A write, a read and each
//! event of the beam are exact by the register pages of `specs/`. The caller passes 420B, 420C and 4300 to 437F to
//! the DMA channels.
#![tactic(auto)]

mod io;
mod registers;

pub use io::Io;
pub use registers::{Arithmetic, Interrupts, IoRegisters, Pad};
