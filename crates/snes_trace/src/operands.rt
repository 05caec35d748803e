//! Operands of the 65C816, as they are written after a mnemonic.

ghost use Rattle.std.specs.Prelude.{◌≡◌};
ghost use Rattle.cpu_alu.specs.Flow.{relative};
ghost use Rattle.cpu_modes.specs.Addresses.{join};

use crate::line::Line;
use cpu_tables::{INDEX_8, MEMORY_8, Mode, Op};

/// The kind of number in an operand.
#[derive(Clone, Copy)]
pub enum Number {
    /// No number.
    Nothing,
    /// A byte.
    Byte,
    /// A 16-bit word, low byte first.
    Word,
    /// An address of three bytes, low byte first.
    Long,
    /// The target address of a branch by a signed byte.
    Near,
    /// The target address of a branch by two bytes.
    Far,
    /// Two banks. In the bytes the destination's comes first, in the text the source's.
    Banks,
}

/// How an operand is written: its number, with the text before it and after it.
#[derive(Clone, Copy)]
pub struct Operand {
    /// The text before the number.
    pub front: &'static str,
    /// The number.
    pub number: Number,
    /// The text after the number.
    pub back: &'static str,
}

impl Operand {
    /// Whether nothing is written.
    pub fn is_empty(&self) -> bool {
        self.front.is_empty()
    }
}

fn written(front: &'static str, number: Number, back: &'static str) -> Operand {
    Operand {
        front,
        number,
        back,
    }
}

/// Returns the number whose width a flag of the status byte gives: a byte if it is set, else a word.
fn width(p: u8, flag: u8) -> Number {
    if p & flag == 0 {
        Number::Word
    } else {
        Number::Byte
    }
}

/// Returns the number of an immediate operand, if the status byte is `p`.
fn immediate(op: Op, p: u8) -> Number {
    match op {
        Op::Rep | Op::Sep | Op::Wdm => Number::Byte,
        Op::Ldx | Op::Ldy | Op::Cpx | Op::Cpy => width(p, INDEX_8),
        _ => width(p, MEMORY_8),
    }
}

/// Returns the operand of an operation that uses the stack.
fn on_stack(op: Op) -> Operand {
    match op {
        Op::Brk | Op::Cop => written("#$", Number::Byte, ""),
        Op::Pea => written("$", Number::Word, ""),
        Op::Pei => written("($", Number::Byte, ")"),
        _ => written("", Number::Nothing, ""),
    }
}

/// Returns how the operand of an operation is written, if the status byte is `p` (W65C816S data sheet, "Addressing
/// modes").
pub fn operand_of(op: Op, mode: Mode, p: u8) -> Operand {
    match mode {
        Mode::Immediate => written("#$", immediate(op, p), ""),
        Mode::Direct => written("$", Number::Byte, ""),
        Mode::DirectX => written("$", Number::Byte, ",X"),
        Mode::DirectY => written("$", Number::Byte, ",Y"),
        Mode::DirectPointer => written("($", Number::Byte, ")"),
        Mode::DirectXPointer => written("($", Number::Byte, ",X)"),
        Mode::DirectPointerY => written("($", Number::Byte, "),Y"),
        Mode::DirectLongPointer => written("[$", Number::Byte, "]"),
        Mode::DirectLongPointerY => written("[$", Number::Byte, "],Y"),
        Mode::Absolute => written("$", Number::Word, ""),
        Mode::AbsoluteX => written("$", Number::Word, ",X"),
        Mode::AbsoluteY => written("$", Number::Word, ",Y"),
        Mode::Long => written("$", Number::Long, ""),
        Mode::LongX => written("$", Number::Long, ",X"),
        Mode::StackRelative => written("$", Number::Byte, ",S"),
        Mode::StackPointerY => written("($", Number::Byte, ",S),Y"),
        Mode::AbsolutePointer => written("($", Number::Word, ")"),
        Mode::AbsoluteXPointer => written("($", Number::Word, ",X)"),
        Mode::AbsoluteLongPointer => written("[$", Number::Word, "]"),
        Mode::Relative => written("$", Number::Near, ""),
        Mode::RelativeLong => written("$", Number::Far, ""),
        Mode::Accumulator => written("A", Number::Nothing, ""),
        Mode::Implied => written("", Number::Nothing, ""),
        Mode::Stack => on_stack(op),
        Mode::BlockMove => written("$", Number::Banks, ""),
    }
}

/// Returns the 16-bit word of two bytes, low byte first, as the processor joins them.
pub fn word(low: u8, high: u8) -> u16
    ensures { result ≡ join low high }
{
    u16::from(low) + 256 * u16::from(high)
}

/// Returns the target of a branch by a signed byte, from the address after its instruction, as the processor does.
#[tactic(auto, unfolding(cpu_alu::specs::Flow::relative))]
pub fn near(behind: u16, distance: u8) -> u16
    ensures { result ≡ relative behind distance }
{
    let sum = u32::from(behind) + u32::from(distance);
    if distance < 128 {
        (sum % 65_536) as u16
    } else {
        ((sum + 65_280) % 65_536) as u16
    }
}

/// Adds the number of an operand, whose bytes follow an opcode at `pc`.
fn push_operand_number(out: &mut Line, number: Number, pc: u16, bytes: [u8; 3]) {
    let [first, second, third] = bytes;
    match number {
        Number::Nothing => {}
        Number::Byte => out.hex2(first),
        Number::Word => out.hex4(word(first, second)),
        Number::Long => out.hex6(u32::from(word(first, second)) + 65_536 * u32::from(third)),
        Number::Near => out.hex4(near(pc.wrapping_add(2), first)),
        Number::Far => out.hex4(pc.wrapping_add(3).wrapping_add(word(first, second))),
        Number::Banks => {
            out.hex2(second);
            out.text(",$");
            out.hex2(first);
        }
    }
}

/// Adds an operand, whose bytes follow an opcode at `pc`.
pub fn push_operand(out: &mut Line, operand: Operand, pc: u16, bytes: [u8; 3]) {
    out.text(operand.front);
    push_operand_number(out, operand.number, pc, bytes);
    out.text(operand.back);
}
