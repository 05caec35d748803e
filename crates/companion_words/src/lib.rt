//! The command lines of the companions of `snes`: `look`, `trace`, `scene` and `bench`.
//!
//! A companion is a table of words, and what it does with them. This crate hands the table to `clap`, reads the command
//! line, does what it asks for, and gives one of three exit statuses, which mean the same in every companion:
//!
//! - 0 (`DONE`): it did what it is for;
//! - 1 (`NO`): it did, and the answer is no (two films differ, no breakpoint was hit);
//! - 2 (`FAULT`): it could not: a file, or the command line, is at fault. One line on standard error says which.
//!
//! `run` is the `main` of a companion that starts no thread. No method of a trait can hand its handle to a thread, so one that
//! does reads its words by `command`, and ends by `answer` and `exit_of`.
#![tactic(auto)]

mod companion;
mod table;

pub use companion::{Companion, DONE, FAULT, NO, answer, exit_of, run};
pub use table::{About, Kind, Program, Word, command};
