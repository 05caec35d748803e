//! The echo of the S-DSP, and the final mix of a sample.
//!
//! Builds on `sdsp_voice`, whose registers it reads and whose sums it mixes. `Echo` keeps eight numbers a side and
//! the place in the delay line. The line lies in the 64 KiB of RAM that the caller passes in. `mix` follows
//! `specs/Echo.antt` exactly: the two numbers of a sample, the echo after it, and RAM after it. No call allocates.
#![tactic(auto)]

pub mod echo;
pub mod history;

pub use echo::Echo;
