// The cartridge of a free game, `examples/game`: `./scene` writes it as `game.sfc`, and tests of both pads play it.
//
// It depends on nothing. `tools/write_game.py` writes its bytes from what ca65 and ld65 make of the source.
#![tactic(auto)]

mod bytes;
mod cartridge;

pub use cartridge::{SIZE, game_cartridge};
