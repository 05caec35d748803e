ghost use Rattle.std.specs.Prelude.{◌<◌};

use crate::place::{Place, Traffic};
use cpu_tables::{Access, Regs, Row};

/// An instruction in the middle of its accesses.
#[derive(Clone, Copy)]
pub struct Micro {
    /// The registers at the instruction's start.
    pub start: Regs,
    /// The registers as the accesses so far left them.
    pub here: Regs,
    /// The instruction's operation and addressing mode.
    pub row: Row,
    /// How the instruction's data moves, and how wide it is.
    pub traffic: Traffic,
    /// The place of the next access in the instruction's order.
    pub place: Place,
    /// An operand, or its low byte.
    pub word: u16,
    /// An address of 24 bits, or a word that is to be pushed.
    pub base: u32,
    /// The next access. It is kept, so that it is computed once. If the instruction has ended or waits, the interrupt
    /// lines decide it.
    pub access: Access,
    ghost in_range: { base < 16777216 },
}
