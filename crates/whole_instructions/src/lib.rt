//! Whole instructions of the 65C816 in one call.
//!
//! The crate builds on `console_steps`, where accesses are made one by one. An instruction is made whole if all its
//! accesses are of memory or internal cycles, and end before the beam's next place. A byte may also be written to a
//! register of the B bus other than a port. `specs/Passes.antt` says what that means: the console's steps from one
//! state of the bus to the other, told by what the instruction has still to do. The fetches and reads of an instruction
//! change nothing but the byte last on the bus, and the beam (`specs/Looks.antt`). So an instruction that turns out not
//! to fit has changed nothing.
//!
//! An addressing mode is a `Way`; an operation with data is a `Load`, a `Store` or a `Change`. Each shape of an
//! instruction is one function, generic over both. `by_opcode` finds shape, mode and operation by one match of the
//! opcode.
#![tactic(auto)]

mod changes;
mod code;
mod flow;
mod instruction;
mod loads;
mod operations;
mod runs;
mod stack;
mod standing;
mod stores;
mod ways;

pub use runs::make_whole;
