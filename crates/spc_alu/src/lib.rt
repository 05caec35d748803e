//! The results of the SPC700's operations: registers, flags and written bytes.
//!
//! Builds on `spc_tables` and `status_bits`. Each call follows the definition of its name in `specs/` exactly. It is
//! an operation between two operands, or on a register and a byte that was read. Or it is a changed byte, a stored
//! byte, a word, a bit, a branch's condition, or what happens inside the processor. All are total: an operation that
//! a call isn't for changes nothing. A call that changes registers writes in place only those that its operation
//! changes.
#![tactic(auto)]

pub mod arithmetic;
pub mod bits;
pub mod changes;
pub mod flow;
pub mod results;
pub mod status;
pub mod sums;
pub mod words;

pub use bits::{byte_with_bit, carry_of_bit};
pub use changes::Changed;
pub use flow::{break_set, counted_down, is_taken, is_taken_by, place_at};
pub use results::{
    change, change_by_a, combine, load, load_word, pop, stored_byte, work_internally,
};
pub use words::{low_after_step, step_word, word_after_step};
