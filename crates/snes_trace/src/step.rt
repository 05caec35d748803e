//! A step of either machine, as a trace shows it.

use cart_map::Place;
use cpu_tables::Regs;
use snes_defs::Side;
use spc_tables::SpcRegs;

/// The kind of a step.
#[derive(Clone, Copy, PartialEq, Eq)]
pub enum Kind {
    /// The processor fetches an opcode.
    Opcode,
    /// The processor fetches a byte of an operand.
    Fetch,
    /// The processor reads.
    Read,
    /// The processor writes.
    Write,
    /// The processor takes an internal cycle: the bus isn't used.
    Internal,
    /// Work RAM is refreshed, and the processor waits.
    Refresh,
    /// A byte is moved by DMA.
    Dma,
    /// A byte is moved by HDMA, or loaded from its table.
    Hdma,
    /// The reset of a frame of the script.
    Reset,
}

/// The instruction that an opcode fetch begins: the registers before it, and its bytes.
#[derive(Clone, Copy)]
pub enum Instruction {
    /// An instruction of the 65C816: the opcode, and the three bytes after it.
    Console(Regs, [u8; 4]),
    /// An instruction of the SPC700: the opcode, and the two bytes after it.
    Sound(SpcRegs, [u8; 3]),
    /// The step begins no instruction.
    Nothing,
}

impl Instruction {
    /// Whether the step begins an instruction.
    pub fn is_begun(&self) -> bool {
        match self {
            Instruction::Console(_, _) | Instruction::Sound(_, _) => true,
            Instruction::Nothing => false,
        }
    }
}

/// The direction of a byte of a transfer, and the register of the B bus, as an offset from 2100.
#[derive(Clone, Copy)]
pub enum Way {
    /// From the A side to a register.
    To(u8),
    /// From a register to the A side.
    From(u8),
    /// From the A side to a channel: a table of HDMA.
    Table,
    /// The step does not move a byte of a transfer.
    Nowhere,
}

/// One step of a machine: when, where and what.
#[derive(Clone, Copy)]
pub struct Step {
    /// The machine that takes the step.
    pub side: Side,
    /// The stamp at which the step begins.
    pub stamp: u64,
    /// What the step does.
    pub kind: Kind,
    /// The address on the bus: 24 bits on the console, 16 on the sound side. For a transfer, it is that of the A side.
    pub address: Option<u32>,
    /// What is at that address, for a step of the console that has one.
    pub place: Option<Place>,
    /// The direction of a byte of a transfer.
    pub way: Way,
    /// The byte that goes over the bus.
    pub byte: Option<u8>,
    /// The instruction that the step begins.
    pub instruction: Instruction,
    /// The address of the current instruction, for a read or a write.
    pub by: Option<u32>,
}
