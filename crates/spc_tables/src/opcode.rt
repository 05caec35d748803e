use crate::mode::SpcMode;
use crate::operation::SpcOp;

/// What an opcode means: its operation, and where its operands are.
#[derive(Clone, Copy)]
pub struct SpcRow {
    /// The operation.
    pub op: SpcOp,
    /// Where the operands are.
    pub mode: SpcMode,
}
