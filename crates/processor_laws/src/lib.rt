//! Laws of the processors' results and instructions, in a programmer's terms.
//!
//! The crate builds on `cpu_alu`, `cpu_modes` and `cpu65816`, and on `spc_alu`, `spc_modes` and `spc700` of the SPC700.
//! Each function's contract is a law over the definitions that the processor is exact by, for all registers, operands and
//! memories. The laws say that these definitions are what a programmer means by them. Only `flat` has code.
//!
//! Results of the 65C816 (`decimal`, `order`, `signed`, `widths`): decimal results are decimal sums, a subtraction undoes
//! an addition, and a comparison gives the order. An operation at 8 bits leaves the high byte of A alone.
//!
//! Instructions of the 65C816 (`calls`, `changes`, `interrupts`), in native and emulation mode: a return continues after
//! its call. An instruction that changes memory writes the places that it read. A return from an interrupt brings the
//! program back.
//!
//! The SPC700 (`arithmetic`, `pulls`, `stack`, `words`): a product and a quotient are those of arithmetic. A return goes
//! back to where the call came from. A pulled register is the one that was pushed, and a loaded word is the one that was
//! stored.
//!
//! Both processors over a memory and nothing else (`flat`): after any number of accesses the processor and the memory are
//! what the definitions give.
#![tactic(auto)]

pub mod arithmetic;
pub mod calls;
pub mod changes;
pub mod decimal;
pub mod flat;
pub mod interrupts;
pub mod order;
pub mod pulls;
pub mod signed;
pub mod stack;
pub mod widths;
pub mod words;
