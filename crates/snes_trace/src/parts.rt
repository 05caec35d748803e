//! The parts of a line that text and CSV share.

use crate::line::Line;
use crate::mnemonics::mnemonic;
use crate::operands::{operand_of, push_operand};
use crate::spc_mnemonics::{back, front, spc_mnemonic};
use crate::spc_operands::push_spc_operand;
use crate::step::{Instruction, Kind};
use cpu_tables::Regs;
use snes_defs::Side;
use spc_tables::SpcRegs;

/// Returns the name of a side.
pub fn side_name(side: Side) -> &'static str {
    match side {
        Side::Console => "console",
        Side::Sound => "sound",
    }
}

/// Returns the name of a kind.
pub fn kind_name(kind: Kind) -> &'static str {
    match kind {
        Kind::Opcode => "opcode",
        Kind::Fetch => "fetch",
        Kind::Read => "read",
        Kind::Write => "write",
        Kind::Internal => "internal",
        Kind::Refresh => "refresh",
        Kind::Dma => "DMA",
        Kind::Hdma => "HDMA",
        Kind::Reset => "reset",
    }
}

/// Adds an address: six digits on the console's bus, four on the sound side's.
pub fn push_address(out: &mut Line, side: Side, address: u32) {
    match side {
        Side::Console => out.hex6(address),
        Side::Sound => out.hex4((address % 65_536) as u16),
    }
}

/// Adds a register of the B bus: 2100 to 21FF.
pub fn push_port(out: &mut Line, port: u8) {
    out.text("21");
    out.hex2(port);
}

/// Adds an instruction of the 65C816.
fn push_console(out: &mut Line, regs: &Regs, bytes: [u8; 4]) {
    let [opcode, first, second, third] = bytes;
    let row = cpu_tables::row(opcode);
    let operand = operand_of(row.op, row.mode, regs.p);
    out.text(mnemonic(row.op));
    if !operand.is_empty() {
        out.text(" ");
        push_operand(out, operand, regs.pc, [first, second, third]);
    }
}

/// Adds an instruction of the SPC700.
fn push_sound(out: &mut Line, regs: &SpcRegs, bytes: [u8; 3]) {
    let [opcode, first, second] = bytes;
    let row = spc_tables::row(opcode);
    out.text(spc_mnemonic(row.op));
    let named = out.len();
    out.text(" ");
    out.text(front(row.op, row.mode));
    push_spc_operand(out, row.mode, regs.pc, [first, second]);
    out.text(back(row.op));
    // If there was no operand, no space stays after the mnemonic.
    if out.len() == named.saturating_add(1) {
        out.truncate(named);
    }
}

/// Adds the mnemonic of an instruction with its operand.
pub fn push_instruction(out: &mut Line, instruction: &Instruction) {
    match instruction {
        Instruction::Console(regs, bytes) => push_console(out, regs, *bytes),
        Instruction::Sound(regs, bytes) => push_sound(out, regs, *bytes),
        Instruction::Nothing => {}
    }
}

/// Adds a label and how many bytes lie behind it, if there are any: `label+1C`.
pub fn push_here(out: &mut Line, label: &str, offset: u64) {
    out.text(label);
    if offset == 0 {
        return;
    }
    out.text("+");
    if offset < 256 {
        out.hex2(offset as u8);
    } else {
        out.hex4((offset % 65_536) as u16);
    }
}

/// Adds a name and a word.
pub fn push_named4(out: &mut Line, name: &str, word: u16) {
    out.text(name);
    out.hex4(word);
}

/// Adds a name and a byte.
pub fn push_named2(out: &mut Line, name: &str, byte: u8) {
    out.text(name);
    out.hex2(byte);
}
