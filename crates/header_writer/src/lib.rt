//! Writes a LoROM header into the file of a cartridge that has none, so that `accept` of `cart_map` takes the file.
//!
//! `write_header` writes the 32 bytes of a header, if nothing else is there. `write_least` writes only the four bytes
//! of a header that say which cartridge it is. Both change nothing else, and neither touches the vectors behind the
//! header. Their clauses say which bytes they write, that the file is a cartridge afterwards, and why a file is refused.
//!
//! The fields are those of the Super Nintendo Development Manual and of fullsnes, "SNES Cartridge ROM Header". The rule
//! by which a file is a LoROM cartridge is this project's own.
#![tactic(auto)]

mod checksum;
mod fields;
mod refusal;
mod refused;
mod write;

pub use refused::HeaderRefused;
pub use write::{write_header, write_least};
