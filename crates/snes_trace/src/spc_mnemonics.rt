//! The mnemonics of the SPC700, and the registers that an operation names next to its operand.

ghost use Rattle.std.specs.Prelude.{◌≡◌};
ghost use Rattle.snes_trace.specs.SpcMnemonics.{spc_mnemonic_of, accumulator_of, front_of, back_of};

use spc_tables::{SpcMode, SpcOp};

/// Returns the mnemonic of an operation.
pub fn spc_mnemonic(op: SpcOp) -> &'static str
    ensures { result.now ≡ spc_mnemonic_of op }
{
    match op {
        SpcOp::Nop => "NOP",
        SpcOp::Mov => "MOV",
        SpcOp::MovA => "MOV",
        SpcOp::MovX => "MOV",
        SpcOp::MovY => "MOV",
        SpcOp::StoreA => "MOV",
        SpcOp::StoreX => "MOV",
        SpcOp::StoreY => "MOV",
        SpcOp::MovAX => "MOV",
        SpcOp::MovAY => "MOV",
        SpcOp::MovXA => "MOV",
        SpcOp::MovYA => "MOV",
        SpcOp::MovXSp => "MOV",
        SpcOp::MovSpX => "MOV",
        SpcOp::Or => "OR",
        SpcOp::And => "AND",
        SpcOp::Eor => "EOR",
        SpcOp::Cmp => "CMP",
        SpcOp::CmpX => "CMP",
        SpcOp::CmpY => "CMP",
        SpcOp::Adc => "ADC",
        SpcOp::Sbc => "SBC",
        SpcOp::Asl => "ASL",
        SpcOp::Rol => "ROL",
        SpcOp::Lsr => "LSR",
        SpcOp::Ror => "ROR",
        SpcOp::Dec => "DEC",
        SpcOp::Inc => "INC",
        SpcOp::DecX => "DEC",
        SpcOp::IncX => "INC",
        SpcOp::DecY => "DEC",
        SpcOp::IncY => "INC",
        SpcOp::MovwYa => "MOVW",
        SpcOp::StoreYa => "MOVW",
        SpcOp::Addw => "ADDW",
        SpcOp::Subw => "SUBW",
        SpcOp::Cmpw => "CMPW",
        SpcOp::Decw => "DECW",
        SpcOp::Incw => "INCW",
        SpcOp::Mul => "MUL",
        SpcOp::Div => "DIV",
        SpcOp::Daa => "DAA",
        SpcOp::Das => "DAS",
        SpcOp::Xcn => "XCN",
        SpcOp::Set1 => "SET1",
        SpcOp::Clr1 => "CLR1",
        SpcOp::Tset1 => "TSET1",
        SpcOp::Tclr1 => "TCLR1",
        SpcOp::Or1 => "OR1",
        SpcOp::OrNot1 => "OR1",
        SpcOp::And1 => "AND1",
        SpcOp::AndNot1 => "AND1",
        SpcOp::Eor1 => "EOR1",
        SpcOp::MovC1 => "MOV1",
        SpcOp::StoreC1 => "MOV1",
        SpcOp::Not1 => "NOT1",
        SpcOp::Clrp => "CLRP",
        SpcOp::Setp => "SETP",
        SpcOp::Clrc => "CLRC",
        SpcOp::Setc => "SETC",
        SpcOp::Notc => "NOTC",
        SpcOp::Clrv => "CLRV",
        SpcOp::Ei => "EI",
        SpcOp::Di => "DI",
        SpcOp::Bpl => "BPL",
        SpcOp::Bmi => "BMI",
        SpcOp::Bvc => "BVC",
        SpcOp::Bvs => "BVS",
        SpcOp::Bcc => "BCC",
        SpcOp::Bcs => "BCS",
        SpcOp::Bne => "BNE",
        SpcOp::Beq => "BEQ",
        SpcOp::Bra => "BRA",
        SpcOp::Bbs => "BBS",
        SpcOp::Bbc => "BBC",
        SpcOp::Cbne => "CBNE",
        SpcOp::Dbnz => "DBNZ",
        SpcOp::Jmp => "JMP",
        SpcOp::Call => "CALL",
        SpcOp::Pcall => "PCALL",
        SpcOp::Tcall => "TCALL",
        SpcOp::Brk => "BRK",
        SpcOp::Ret => "RET",
        SpcOp::Reti => "RETI",
        SpcOp::PushA => "PUSH",
        SpcOp::PushX => "PUSH",
        SpcOp::PushY => "PUSH",
        SpcOp::PushPsw => "PUSH",
        SpcOp::PopA => "POP",
        SpcOp::PopX => "POP",
        SpcOp::PopY => "POP",
        SpcOp::PopPsw => "POP",
        SpcOp::Sleep => "SLEEP",
        SpcOp::Stop => "STOP",
    }
}

/// Returns the A before the operand, unless the mode names both operands.
fn accumulator(mode: SpcMode) -> &'static str
    ensures { result.now ≡ accumulator_of mode }
{
    match mode {
        SpcMode::DirectImmediate | SpcMode::DirectDirect | SpcMode::IndirectXIndirectY => "",
        _ => "A,",
    }
}

/// Returns the text before the operand of the mode.
pub fn front(op: SpcOp, mode: SpcMode) -> &'static str
    ensures { result.now ≡ front_of op mode }
{
    match op {
        SpcOp::MovA => "A,",
        SpcOp::MovX => "X,",
        SpcOp::MovY => "Y,",
        SpcOp::MovAX => "A,X",
        SpcOp::MovAY => "A,Y",
        SpcOp::MovXA => "X,A",
        SpcOp::MovYA => "Y,A",
        SpcOp::MovXSp => "X,SP",
        SpcOp::MovSpX => "SP,X",
        SpcOp::CmpX => "X,",
        SpcOp::CmpY => "Y,",
        SpcOp::DecX => "X",
        SpcOp::IncX => "X",
        SpcOp::DecY => "Y",
        SpcOp::IncY => "Y",
        SpcOp::MovwYa => "YA,",
        SpcOp::Addw => "YA,",
        SpcOp::Subw => "YA,",
        SpcOp::Cmpw => "YA,",
        SpcOp::Mul => "YA",
        SpcOp::Div => "YA,X",
        SpcOp::Daa => "A",
        SpcOp::Das => "A",
        SpcOp::Xcn => "A",
        SpcOp::Or1 => "C,",
        SpcOp::OrNot1 => "C,/",
        SpcOp::And1 => "C,",
        SpcOp::AndNot1 => "C,/",
        SpcOp::Eor1 => "C,",
        SpcOp::MovC1 => "C,",
        SpcOp::PushA => "A",
        SpcOp::PushX => "X",
        SpcOp::PushY => "Y",
        SpcOp::PushPsw => "PSW",
        SpcOp::PopA => "A",
        SpcOp::PopX => "X",
        SpcOp::PopY => "Y",
        SpcOp::PopPsw => "PSW",
        SpcOp::Or | SpcOp::And | SpcOp::Eor | SpcOp::Cmp | SpcOp::Adc | SpcOp::Sbc => accumulator(
            mode,
        ),
        _ => "",
    }
}

/// Returns the text after the operand of the mode: the register that is stored.
pub fn back(op: SpcOp) -> &'static str
    ensures { result.now ≡ back_of op }
{
    match op {
        SpcOp::StoreA => ",A",
        SpcOp::StoreX => ",X",
        SpcOp::StoreY => ",Y",
        SpcOp::StoreYa => ",YA",
        SpcOp::StoreC1 => ",C",
        _ => "",
    }
}
