//! The voices of the S-DSP: registers, BRR, envelopes, noise, interpolation, and what a sample adds up to.
//!
//! Builds on `snes_defs` for the interpolation table. `Voices` keeps the 128 registers and the eight voices. `read`
//! and `write` follow `specs/Registers.antt` exactly, and `sample` makes one sample, exactly as `specs/Sample.antt`
//! says. That is keys, then noise, then for each voice from 0 its output, its envelope and its position. The profile
//! decides which samples look at KON and KOFF, and when a block with the end and without the loop silences its voice.
//! BRR blocks are read from the 64 KiB of RAM that the caller passes in. A rate has an event at each sample whose
//! number its period divides, counted from sample 0 of the machine, not from a key on. No call allocates. `sdsp_echo`
//! makes the numbers that are heard from the sums.
#![tactic(auto)]

pub mod brr;
pub mod envelope;
pub mod interpolation;
pub mod keys;
pub mod noise;
pub mod output;
pub mod setting;
pub mod signed;
pub mod sums;
pub mod voice;
pub mod voices;

pub use sums::Sums;
pub use voices::Voices;
