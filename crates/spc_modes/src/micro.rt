use crate::place::Place;
use spc_tables::{SpcRegs, SpcRow};

/// An instruction in the middle of its accesses.
#[derive(Clone, Copy)]
pub struct Micro {
    /// The registers at its start.
    pub start: SpcRegs,
    /// The registers as the accesses so far left them.
    pub here: SpcRegs,
    /// The instruction's row: what it is.
    pub row: SpcRow,
    /// The next access.
    pub place: Place,
    /// An address, or where a call goes.
    pub base: u16,
    /// A low byte, a source byte, a count, a bit's number, or what is to be written.
    pub byte: u8,
}
