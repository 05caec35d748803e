// The cartridges that speed is measured by, beside the scene: `examples/speed`. `./scene --measured` writes them.
//
// `tools/write_game.py` writes their bytes from what ca65 and ld65 make of the sources. A test pins the SHA-256 of each.
#![tactic(auto)]

mod bytes;
mod cartridges;
#[cfg(test)]
mod pinned;

pub use cartridges::{SIZE, mode7_cartridge, sieve_cartridge, tune_cartridge};
