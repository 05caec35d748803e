//! Lines of the trace as CSV.

use crate::labels::Named;
use crate::line::Line;
use crate::parts::{
    kind_name, push_address, push_here, push_instruction, push_named2, push_named4, push_port,
    side_name,
};
use crate::position::position_at;
use crate::step::{Instruction, Step, Way};
use cpu_tables::Regs;
use snes_defs::Region;
use spc_tables::SpcRegs;

/// The names of the columns, which the file begins with.
pub const HEAD: &str =
    "stamp,frame,line,clock,side,kind,address,byte,way,register,by,instruction,A,X,Y,S,D,DB,P,E";

/// What the head has more where there are labels.
pub const LABEL_HEAD: &str = ",label,target";

/// Adds the stamp, and the frame, line and clock of the beam.
fn push_time(out: &mut Line, region: Region, stamp: u64) {
    let place = position_at(region, stamp);
    out.number(stamp, 0);
    out.text(",");
    out.number(place.frame, 0);
    out.text(",");
    out.number(place.line, 0);
    out.text(",");
    out.number(place.clock, 0);
    out.text(",");
}

/// Adds the address, the byte, and the direction of a byte of a transfer.
fn push_access(out: &mut Line, step: &Step) {
    if let Some(address) = step.address {
        push_address(out, step.side, address);
    }
    out.text(",");
    if let Some(byte) = step.byte {
        out.hex2(byte);
    }
    match step.way {
        Way::To(port) => {
            out.text(",to,");
            push_port(out, port);
        }
        Way::From(port) => {
            out.text(",from,");
            push_port(out, port);
        }
        Way::Table => out.text(",table,"),
        Way::Nowhere => out.text(",,"),
    }
    out.text(",");
    match step.by {
        Some(at) => push_address(out, step.side, at),
        None => {}
    }
}

/// Adds the registers of the 65C816.
fn push_regs(out: &mut Line, regs: &Regs) {
    out.hex4(regs.a);
    push_named4(out, ",", regs.x);
    push_named4(out, ",", regs.y);
    push_named4(out, ",", regs.s);
    push_named4(out, ",", regs.d);
    push_named2(out, ",", regs.dbr);
    push_named2(out, ",", regs.p);
    out.text(if regs.e { ",1" } else { ",0" });
}

/// Adds the registers of the SPC700.
fn push_spc_regs(out: &mut Line, regs: &SpcRegs) {
    out.hex2(regs.a);
    push_named2(out, ",", regs.x);
    push_named2(out, ",", regs.y);
    push_named2(out, ",", regs.sp);
    out.text(",,");
    push_named2(out, ",", regs.psw);
    out.text(",");
}

/// Adds an instruction in quotes, since its operand may have commas, with its registers.
fn push_begun(out: &mut Line, instruction: &Instruction) {
    if !instruction.is_begun() {
        out.text(",,,,,,,,,");
        return;
    }
    out.text(",\"");
    push_instruction(out, instruction);
    out.text("\",");
    match instruction {
        Instruction::Console(regs, _) => push_regs(out, regs),
        Instruction::Sound(regs, _) => push_spc_regs(out, regs),
        Instruction::Nothing => {}
    }
}

/// Adds the columns of labels, in quotes, since a name may have commas.
pub fn push_labels(out: &mut Line, named: Named<'_>) {
    out.text(",");
    if let Some((label, offset)) = named.here {
        out.text("\"");
        push_here(out, label, offset);
        out.text("\"");
    }
    out.text(",");
    match named.there {
        Some(label) => {
            out.text("\"");
            out.text(label);
            out.text("\"");
        }
        None => {}
    }
}

/// Adds the line of a step, without its end.
pub fn push_row(out: &mut Line, region: Region, step: &Step) {
    push_time(out, region, step.stamp);
    out.text(side_name(step.side));
    out.text(",");
    out.text(kind_name(step.kind));
    out.text(",");
    push_access(out, step);
    push_begun(out, &step.instruction);
}
