//! Reads the lines of a file of sound scenes, and does them with the voices and the echo of the S-DSP.
//!
//! A scene begins `sound K` with a new unit, a RAM of zeros and the sample number 0, and ends `end`.
//! Between, numbers are hexadecimal except for counts: `ram SEED ANDS` fills RAM from a generator, each
//! byte the AND of ANDS of its bytes; `p ADDRESS BYTES` puts bytes there; `table ramp` is the lesser
//! of 4 i and 2047 for entry i, `table SEED` comes from the generator; `start N` sets the sample
//! number; `w N RRVV ..` writes registers before sample N; `s N PAIRS` makes N samples and compares
//! left and right; `q RR BYTE` compares a register, `m HASH` the 64-bit FNV-1a hash of RAM. The crate
//! depends on `sdsp_voice` and `sdsp_echo`; it is for programs that show or compare scenes.
#![tactic(auto)]

mod unit;

pub use unit::{Outcome, Unit};
