//! The address that an instruction's operand names, to find its label.

use crate::operands::{near, word};
use cpu_tables::{Mode, Op, Regs, row};

/// Whether an operation takes its address as one of the program's.
fn leads(op: Op) -> bool {
    op == Op::Jmp || op == Op::Jsr
}

/// Returns the address that an operand names, before an index is added: of a pointer, that of the pointer. None if it
/// names no address.
pub fn target_of(regs: &Regs, bytes: [u8; 4]) -> Option<u32> {
    let [opcode, first, second, third] = bytes;
    let row = row(opcode);
    let word = word(first, second);
    let program = 65_536 * u32::from(regs.pbr);
    match row.mode {
        Mode::Direct
        | Mode::DirectX
        | Mode::DirectY
        | Mode::DirectPointer
        | Mode::DirectXPointer
        | Mode::DirectPointerY
        | Mode::DirectLongPointer
        | Mode::DirectLongPointerY => Some(u32::from(regs.d.wrapping_add(u16::from(first)))),
        Mode::Absolute if leads(row.op) => Some(program + u32::from(word)),
        Mode::Absolute | Mode::AbsoluteX | Mode::AbsoluteY => {
            Some(65_536 * u32::from(regs.dbr) + u32::from(word))
        }
        Mode::Long | Mode::LongX => Some(65_536 * u32::from(third) + u32::from(word)),
        Mode::AbsolutePointer | Mode::AbsoluteLongPointer => Some(u32::from(word)),
        Mode::AbsoluteXPointer => Some(program + u32::from(word)),
        Mode::Relative => Some(program + u32::from(near(regs.pc.wrapping_add(2), first))),
        Mode::RelativeLong => {
            let target = regs.pc.wrapping_add(3).wrapping_add(word);
            Some(program + u32::from(target))
        }
        _ => None,
    }
}
