//! What holds of every plan that was read.
//!
//! Builds on the reader of plans in `input_files` and on their paths in `plan_drive`, and has no code. The law is the
//! contract of a function that does nothing. It joins two rules that are written apart: where the reader takes a reset
//! line, and where a path may have a reset.
#![tactic(auto)]

mod resets;

pub use resets::every_reset_is_a_press;
