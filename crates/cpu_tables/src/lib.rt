//! What the 65C816 is made of: operations, addressing modes, opcodes, registers and accesses.
//!
//! The crate builds on `status_bits`. It promises that `row` is the data sheet's opcode matrix, and gives the layers
//! above their types. A `Row` is what an opcode means, `Regs` are the registers that a program sees, an `Access` is one
//! cycle of the processor. `specs/Status.antt` has the names for flags and widths that the results and the access
//! orders share.
#![tactic(auto)]

pub mod access;
pub mod flags;
pub mod mode;
pub mod opcode;
pub mod operation;
pub mod regs;
pub mod rows;

pub use access::Access;
pub use flags::{CARRY, DECIMAL, INDEX_8, IRQ_DISABLE, MEMORY_8, NEGATIVE, OVERFLOW, ZERO};
pub use mode::Mode;
pub use opcode::Row;
pub use operation::Op;
pub use regs::Regs;
pub use rows::row;
