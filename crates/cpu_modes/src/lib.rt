//! The order in which each instruction of the 65C816 makes its accesses.
//!
//! The crate builds on `cpu_tables` and `cpu_alu`. An order is a tree in `specs/Orders.antt`, to be compared with the
//! data sheet's table of cycles. At each fetch and read it branches by the byte got, and at its end it has the
//! registers. A `Micro` is an instruction in the middle of its order. It keeps a place, registers, a base, a word and
//! its next access, and forgets the accesses made. What it leaves to do is `remaining` of `specs/Remaining.antt`.
//!
//! The crate promises that `Micro::took`, `wrote` and `idle` leave what the tree leaves after the next access. The
//! access kept then is the first of that (`Keeps`). They return whether the instruction has ended or waits. Then the
//! interrupt lines decide the next access, so the layer above sets it. The opcode that `took` is given is the next
//! instruction's. An interrupt begins with `enter`.
#![tactic(auto)]

mod address;
mod cycles;
mod end;
mod enter;
mod fetches;
mod loads;
mod micro;
mod parts;
mod place;
mod pulls;
mod reads;
mod transitions;
mod uses;
mod writes;

pub use address::{
    code_address, direct_address, direct_always, has_index_cycle, is_wide, pointer_next,
    pull_address, pulled_stack, pushed_stack, second_address, stack_address,
};
pub use micro::Micro;
pub use place::{
    BankKind, DirectKind, Direction, OperandKind, Place, PointerKind, Reach, ReturnKind,
    TargetKind, Traffic,
};
pub use uses::{Cause, Use, Width, use_of};
