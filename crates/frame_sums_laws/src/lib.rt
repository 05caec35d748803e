//! What `snes check` finds in a file that `snes sums` wrote.
//!
//! Builds on `frame_sums`, and has no code. Each law is the contract of a function that does nothing. The laws join
//! three definitions of `frame_sums`: the text of the sums, the reader of such a text, and the comparison of a file with
//! a run. `specs/RunSums.antt` says which sums a file of a run has.
#![tactic(auto)]

mod certified;
mod joined;
mod written;

pub use certified::{a_certified_recording_has_these_sums, a_run_is_certified_by_its_own_sums};
pub use joined::sums_then_check_finds_no_difference;
pub use written::what_sums_writes_is_read;
