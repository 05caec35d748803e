//! The 65C816 of the console, which stops before each of its accesses.
//!
//! The crate builds on `cpu_modes`. What a processor means is a `CpuState` of `specs/Instruction.antt`. It has the
//! registers at the start of the current instruction, what began that, and the bytes that its accesses got. It also has
//! the kept edge of the NMI line, and the levels of the two lines. `Cpu` forgets the bytes, and keeps a micro-state
//! with its next access. If the last instruction has ended, the lines decide that access.
//!
//! The crate promises this from a reset on, or from registers of the caller's, for every state that a value stands for
//! (`specs/Stands.antt`). `next` returns the access that a `CpuState` has next. `took`, `wrote`, `idle` and `signal`
//! move on to what it becomes, and `regs` returns its registers. A caller reads `next`, makes that access, and calls
//! the one of `took`, `wrote` and `idle` that fits it. Lines may be given between any two accesses.
#![tactic(auto)]

mod likeness;
mod processor;
mod settling;

pub use processor::Cpu;
