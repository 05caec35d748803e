//! The order of accesses of each SPC700 instruction.
//!
//! Builds on `spc_alu` (results) and `spc_tables` (rows). `Micro` is an instruction in the middle of its accesses.
//! `specs/Orders.antt` has each instruction's accesses as a tree, which reads like a table of cycles. `next` and
//! `took`, `wrote` and `idle` of `Micro` follow it exactly: the access that comes next, and what is left after it. A
//! micro-state forgets the accesses that were made; `specs/Remaining.antt` says what it leaves to do.
#![tactic(auto)]

pub mod address;
pub mod advance;
pub mod enter;
pub mod first;
pub mod idles;
pub mod micro;
pub mod next;
pub mod place;
pub mod reads;
pub mod step;
pub mod uses;
pub mod writes;

pub use micro::Micro;
pub use place::Place;
