//! Lines of the trace as text, in columns.

use crate::labels::Named;
use crate::line::Line;
use crate::parts::{
    kind_name, push_address, push_here, push_instruction, push_named2, push_named4, push_port,
    side_name,
};
use crate::position::position_at;
use crate::step::{Instruction, Step, Way};
use cpu_tables::Regs;
use snes_defs::{Region, Side};
use spc_tables::SpcRegs;

/// The widths of the columns of the side, of the kind and of the instruction, each with a space after it.
const SIDE: usize = 8;

const KIND: usize = 9;

const INSTRUCTION: usize = 18;

/// The names of the flags of the 65C816, from bit 7 on: those of set flags, then those of clear ones.
static SET: [u8; 8] = *b"NVMXDIZC";

static CLEAR: [u8; 8] = *b"nvmxdizc";

/// The names of the flags of the SPC700, from bit 7 on: those of set flags, then those of clear ones.
static SPC_SET: [u8; 8] = *b"NVPBHIZC";

static SPC_CLEAR: [u8; 8] = *b"nvpbhizc";

/// Adds the flags of a status byte by their names.
fn push_flags(out: &mut Line, p: u8, set: &[u8; 8], clear: &[u8; 8]) {
    let mut names = [0u8; 8];
    let mut bits = p;
    for k in 0..8usize {
        names[k] = if bits >= 128 { set[k] } else { clear[k] };
        bits = bits.wrapping_mul(2);
    }
    out.add(&names);
}

/// Adds the registers of the 65C816.
fn push_regs(out: &mut Line, regs: &Regs) {
    push_named4(out, "A:", regs.a);
    push_named4(out, " X:", regs.x);
    push_named4(out, " Y:", regs.y);
    push_named4(out, " S:", regs.s);
    push_named4(out, " D:", regs.d);
    push_named2(out, " DB:", regs.dbr);
    out.text(" P:");
    push_flags(out, regs.p, &SET, &CLEAR);
    out.text(if regs.e { " E:1" } else { " E:0" });
}

/// Adds the registers of the SPC700.
fn push_spc_regs(out: &mut Line, regs: &SpcRegs) {
    push_named2(out, "A:", regs.a);
    push_named2(out, " X:", regs.x);
    push_named2(out, " Y:", regs.y);
    push_named2(out, " SP:", regs.sp);
    out.text(" PSW:");
    push_flags(out, regs.psw, &SPC_SET, &SPC_CLEAR);
}

/// Adds a word, padded with spaces on the right up to a width.
fn push_word(out: &mut Line, word: &str, width: usize) {
    out.text(word);
    out.spaces(width.saturating_sub(word.len()));
}

/// Adds the time: the position of the beam.
fn push_time(out: &mut Line, region: Region, stamp: u64) {
    let place = position_at(region, stamp);
    out.number(stamp, 16);
    out.number(place.frame, 6);
    out.number(place.line, 4);
    out.number(place.clock, 5);
}

/// Adds the address and the byte.
fn push_access(out: &mut Line, step: &Step) {
    let Some(address) = step.address else {
        return;
    };
    if step.side == Side::Sound {
        out.text("  ");
    }
    push_address(out, step.side, address);
    match step.byte {
        Some(byte) => push_named2(out, " ", byte),
        None => {}
    }
}

/// Adds an instruction with its registers.
fn push_begun(out: &mut Line, instruction: &Instruction) {
    if !instruction.is_begun() {
        return;
    }
    out.text("  ");
    let begins = out.len();
    push_instruction(out, instruction);
    let width = out.len().saturating_sub(begins);
    out.spaces(INSTRUCTION.saturating_sub(width));
    match instruction {
        Instruction::Console(regs, _) => push_regs(out, regs),
        Instruction::Sound(regs, _) => push_spc_regs(out, regs),
        Instruction::Nothing => {}
    }
}

/// Adds the rest of a step: its instruction, the register of a transfer, or the instruction that makes the access.
fn push_rest(out: &mut Line, step: &Step) {
    match step.way {
        Way::To(port) => {
            out.text("  to ");
            push_port(out, port);
        }
        Way::From(port) => {
            out.text("  from ");
            push_port(out, port);
        }
        Way::Table => out.text("  table"),
        Way::Nowhere => {}
    }
    if let Some(at) = step.by {
        out.text("  by ");
        push_address(out, step.side, at);
    }
    push_begun(out, &step.instruction);
}

/// Adds the labels of a step behind its line.
pub fn push_names(out: &mut Line, named: Named<'_>) {
    if let Some((label, offset)) = named.here {
        out.text("  ");
        push_here(out, label, offset);
    }
    match named.there {
        Some(label) => {
            out.text("  -> ");
            out.text(label);
        }
        None => {}
    }
}

/// Adds the line of a step, without its end.
pub fn push_line(out: &mut Line, region: Region, step: &Step) {
    push_time(out, region, step.stamp);
    out.text(" ");
    push_word(out, side_name(step.side), SIDE);
    if step.address.is_some() {
        push_word(out, kind_name(step.kind), KIND);
        push_access(out, step);
        push_rest(out, step);
    } else {
        out.text(kind_name(step.kind));
    }
}
