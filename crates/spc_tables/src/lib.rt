//! What the SPC700 is made of: operations, kinds of operands, opcodes, registers and accesses.
//!
//! Builds on std alone. It promises that `row` is the processor's opcode matrix, and gives the layers above their
//! types. An `SpcRow` is what an opcode means, `SpcRegs` are the registers that a program sees, and an `SpcAccess` is
//! one cycle of the processor.
#![tactic(auto)]

pub mod access;
pub mod flags;
pub mod mode;
pub mod opcode;
pub mod operation;
pub mod regs;
pub mod rows;

pub use access::SpcAccess;
pub use flags::{
    BREAK, CARRY, DIRECT_PAGE, HALF_CARRY, INTERRUPT_ENABLE, NEGATIVE, OVERFLOW, ZERO,
};
pub use mode::SpcMode;
pub use opcode::SpcRow;
pub use operation::SpcOp;
pub use regs::SpcRegs;
pub use rows::row;
