use crate::mode::Mode;
use crate::operation::Op;

/// What an opcode means: an operation and an addressing mode.
#[derive(Clone, Copy)]
pub struct Row {
    /// The operation.
    pub op: Op,
    /// The addressing mode: where the operand is.
    pub mode: Mode,
}
