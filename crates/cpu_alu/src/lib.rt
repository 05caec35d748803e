//! What each operation of the 65C816 makes of the registers and of its operand.
//!
//! The crate builds on `cpu_tables`. `registers_after` and `operand_written` are exact by the definitions in
//! `specs/Results.antt`, for every operation, mode and width, decimal included. `apply` gives both, and `finish` writes
//! the registers in place. All are total. They take the registers as the accesses of an instruction left them. The
//! program counter is past the operand, and the stack pointer past what was pushed or pulled. A bank that was fetched
//! or pulled is in its register, and the status that RTI pulled is in P. The word is what was read, with the low byte
//! first; at 8 bits its high byte doesn't count.
#![tactic(auto)]

mod changes;
mod flow;
mod registers;
mod results;
mod sums;
mod width;

pub use flow::{is_taken, relative};
pub use registers::pushed_status;
pub use results::{
    apply, finish, finish_change, finish_internal, finish_load, operand_written, registers_after,
};
