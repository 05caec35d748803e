//! Tests of the console's parts and of what is around it, by cases computed by hand or by external programs.
//!
//! The crate has tests alone, in a module for each part:
//!
//! - `picture`, `backgrounds`: objects over their limits, mode 7, a window, arithmetic, text, and the dots of
//!   backgrounds. Each sets up a PPU by writes of its registers and compares what the public calls give.
//! - `profiles`: what differs between the profiles in the picture, and the calls of the PPU that are only for the
//!   second.
//! - `readers`, `shelf`: the readers, the files of the demo, the shelf over real files and the lines for the user, as
//!   an outside reader expects them: each call that may allocate is made once with plenty of memory, and its result is
//!   compared.
//! - `films`: the bytes that `look` writes and the pieces that it reads, as outside programs have them: the sums and
//!   the picture by zlib, the rest by hand.
//! - `flat`: instructions and a program of the SPC700 over a flat memory.
#![tactic(auto)]

#[cfg(test)]
mod backgrounds;
#[cfg(test)]
mod films;
#[cfg(test)]
mod flat;
#[cfg(test)]
mod picture;
#[cfg(test)]
mod profiles;
#[cfg(test)]
mod readers;
#[cfg(test)]
mod shelf_rows;
