//! How many bytes a recording has.
//!
//! Builds on the runs of `snapshot`, and has no code. The law is the contract of a function that does nothing. So the
//! size of what a run emits follows from its frames and its region alone, whatever the cartridge does.
#![tactic(auto)]

mod sizes;

pub use sizes::a_path_has_its_size;
