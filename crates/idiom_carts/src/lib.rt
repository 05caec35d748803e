// The cartridges that show the rules of the two profiles, `examples/profiles`. `./scene --idioms` writes them, and the rows of
// `console_vectors` play them.
//
// `tools/write_game.py` writes their bytes from what ca65 and ld65 make of the sources. A test pins the SHA-256 of each.
#![tactic(auto)]

mod bytes;
mod cartridges;
#[cfg(test)]
mod pinned;

pub use cartridges::{IDIOMS, Idiom, SIZE, cartridge, first_script, name, second_script};
