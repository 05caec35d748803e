//! Rows of the headers that are written into cartridges without one, worked by hand.
//!
//! The crate has tests alone. `rows` makes cartridges of zeros with a byte or two that matter, and compares which bytes
//! are written, the checksums, and the refusals.
#![tactic(auto)]

#[cfg(test)]
mod rows;
