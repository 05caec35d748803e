//! The cartridge as the processor sees it: the files that are cartridges, the contents of the 2^24 addresses, and
//! the master clocks of an access.
//!
//! The crate depends on the plain types of `snes_defs`. `accept` takes LoROM and HiROM cartridges with up to
//! 128 KiB of RAM, and refuses every other file by the first rule that fails. `place` and `clocks` are the tables
//! of the address map.
#![tactic(auto)]

mod acceptance;
mod fold;
mod header;
mod map;
mod places;
mod refused;
mod speed;

pub use acceptance::accept;
pub use map::{place, place_in};
pub use places::Place;
pub use refused::{CartEnd, CartRefused};
pub use speed::clocks;
