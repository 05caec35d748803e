//! Operands of the SPC700, as they are written after a mnemonic, in Sony's syntax.

use crate::line::Line;
use crate::operands::{near, word};
use spc_tables::SpcMode;

/// Adds a byte as a number, with the text before it and after it.
fn push_byte(out: &mut Line, front: &str, byte: u8, back: &str) {
    out.text(front);
    out.hex2(byte);
    out.text(back);
}

/// Adds a word as a number, with the text before it and after it.
fn push_word(out: &mut Line, front: &str, word: u16, back: &str) {
    out.text(front);
    out.hex4(word);
    out.text(back);
}

/// Adds a bit's number, after its byte.
fn push_bit(out: &mut Line, bit: u8) {
    out.text(".");
    out.number(u64::from(bit), 0);
}

/// Adds two addresses or numbers; the one written first is second in the program.
fn push_two(out: &mut Line, between: &str, bytes: [u8; 2]) {
    let [second, first] = bytes;
    push_byte(out, "$", first, between);
    out.hex2(second);
}

/// Adds a bit of a byte in the first 8 KiB.
fn push_memory_bit(out: &mut Line, place: u16) {
    push_word(out, "$", place % 8192, "");
    push_bit(out, (place / 8192) as u8);
}

/// Adds the operand before a branch's target, for the modes that have both.
fn push_tested(out: &mut Line, mode: SpcMode, byte: u8) {
    match mode {
        SpcMode::DirectBitRelative(bit) => {
            push_byte(out, "$", byte, "");
            push_bit(out, bit);
            out.text(",");
        }
        SpcMode::DirectXRelative => push_byte(out, "$", byte, "+X,"),
        _ => push_byte(out, "$", byte, ","),
    }
}

/// Adds the operand of a mode, whose bytes follow an opcode at `pc`.
pub fn push_spc_operand(out: &mut Line, mode: SpcMode, pc: u16, bytes: [u8; 2]) {
    let [first, second] = bytes;
    let both = word(first, second);
    match mode {
        SpcMode::Implied | SpcMode::Stack => {}
        SpcMode::Accumulator => out.text("A"),
        SpcMode::Immediate => push_byte(out, "#$", first, ""),
        SpcMode::Direct | SpcMode::HighPage => push_byte(out, "$", first, ""),
        SpcMode::DirectX => push_byte(out, "$", first, "+X"),
        SpcMode::DirectY => push_byte(out, "$", first, "+Y"),
        SpcMode::Absolute => push_word(out, "!$", both, ""),
        SpcMode::AbsoluteX => push_word(out, "!$", both, "+X"),
        SpcMode::AbsoluteY => push_word(out, "!$", both, "+Y"),
        SpcMode::IndirectX => out.text("(X)"),
        SpcMode::IndirectXIncrement => out.text("(X)+"),
        SpcMode::DirectXPointer => push_byte(out, "[$", first, "+X]"),
        SpcMode::DirectPointerY => push_byte(out, "[$", first, "]+Y"),
        SpcMode::DirectImmediate => push_two(out, ",#$", bytes),
        SpcMode::DirectDirect => push_two(out, ",$", bytes),
        SpcMode::IndirectXIndirectY => out.text("(X),(Y)"),
        SpcMode::DirectBit(bit) => {
            push_byte(out, "$", first, "");
            push_bit(out, bit);
        }
        SpcMode::DirectBitRelative(_) | SpcMode::DirectRelative | SpcMode::DirectXRelative => {
            push_tested(out, mode, first);
            push_word(out, "$", near(pc.wrapping_add(3), second), "");
        }
        SpcMode::MemoryBit => push_memory_bit(out, both),
        SpcMode::Relative => push_word(out, "$", near(pc.wrapping_add(2), first), ""),
        SpcMode::YRelative => push_word(out, "Y,$", near(pc.wrapping_add(2), first), ""),
        SpcMode::AbsoluteXPointer => push_word(out, "[!$", both, "+X]"),
        SpcMode::VectorTable(number) => out.number(u64::from(number), 0),
    }
}
