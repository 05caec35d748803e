//! Rows of the console that is played a frame at a time, worked by hand.
//!
//! The cartridge has a program of 35 bytes (`door.rt`): the screen is red until START is held, and then green for ever.
//! The rows ask for the first dot of pictures, for the number of samples, and for each answer but want of memory. Its
//! tests are in `rows`; `played` has the console that they play.
#![tactic(auto)]

pub mod door;
pub mod played;
#[cfg(test)]
mod rows;
