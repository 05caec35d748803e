//! The SPC700, the sound side's processor, as a processor that stops before each access.
//!
//! Builds on `spc_modes` (the access orders), which builds on `spc_alu` (the results) and `spc_tables` (the opcode
//! matrix). `Spc::next` returns the next access. The caller makes it, and reports it by `took` (a fetch or a read,
//! with the byte), `wrote` or `idle`. A processor stands for an instruction and the bytes got by its accesses so far
//! (`specs/Instruction.antt`), and each call follows that exactly. The accesses are those of the instruction's order.
//! After the last one the next instruction begins with the registers that the results give. Memory is the caller's.
#![tactic(auto)]

pub mod known;
pub mod processor;

pub use processor::Spc;
pub use spc_modes::Place;
pub use spc_tables::{SpcAccess, SpcMode, SpcOp, SpcRegs, SpcRow};
