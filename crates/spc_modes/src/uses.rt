ghost use Rattle.std.specs.Prelude.{◌≡◌};
ghost use Rattle.spc_modes.specs.Uses.{use_of};

use spc_tables::SpcOp;

/// What an operation does, as far as its accesses show.
#[derive(Clone, Copy)]
pub enum Use {
    /// Works inside the processor, in that many internal cycles.
    Internal(u8),
    /// Reads its operand.
    Load,
    /// Reads its operand. Between two places in memory it writes nothing.
    Compare,
    /// Moves a byte into memory.
    Move,
    /// Writes a register to memory.
    Store,
    /// Reads a byte, changes it and writes it back.
    Change,
    /// Reads a byte, changes it by the bits of A and writes it back, with a cycle before the write.
    ChangeByA,
    /// Reads a word, with a cycle between its bytes.
    LoadWord,
    /// Reads a word.
    CompareWord,
    /// Writes YA to memory.
    StoreWord,
    /// Changes a word, byte by byte.
    StepWord,
    /// Reads a bit.
    ReadBit,
    /// Reads a bit, after which a cycle follows.
    ReadBitSlowly,
    /// Changes a bit.
    ChangeBit,
    /// Writes a bit, with a cycle before the write.
    StoreBit,
    /// Branches by PSW.
    Branch,
    /// Branches by a byte of memory.
    Test,
    /// Branches by a count.
    Count,
    /// Jumps.
    Jump,
    /// CALL.
    Call,
    /// PCALL.
    PageCall,
    /// TCALL.
    VectorCall,
    /// BRK.
    Break,
    /// Pushes a register.
    Push,
    /// Pulls a register.
    Pull,
    /// RET.
    Return,
    /// RETI.
    ReturnInterrupt,
    /// SLEEP and STOP.
    Halt,
}

/// What an operation does, as far as its accesses go.
#[tactic(auto, unfolding(crate::specs::Uses::use_of))]
#[inline(always)]
pub fn use_of(op: SpcOp) -> Use
    ensures { result ≡ use_of op }
{
    match op {
        SpcOp::Nop => Use::Internal(1),
        SpcOp::Mov => Use::Move,
        SpcOp::MovA => Use::Load,
        SpcOp::MovX => Use::Load,
        SpcOp::MovY => Use::Load,
        SpcOp::StoreA => Use::Store,
        SpcOp::StoreX => Use::Store,
        SpcOp::StoreY => Use::Store,
        SpcOp::MovAX => Use::Internal(1),
        SpcOp::MovAY => Use::Internal(1),
        SpcOp::MovXA => Use::Internal(1),
        SpcOp::MovYA => Use::Internal(1),
        SpcOp::MovXSp => Use::Internal(1),
        SpcOp::MovSpX => Use::Internal(1),
        SpcOp::Or => Use::Load,
        SpcOp::And => Use::Load,
        SpcOp::Eor => Use::Load,
        SpcOp::Cmp => Use::Compare,
        SpcOp::CmpX => Use::Load,
        SpcOp::CmpY => Use::Load,
        SpcOp::Adc => Use::Load,
        SpcOp::Sbc => Use::Load,
        SpcOp::Asl => Use::Change,
        SpcOp::Rol => Use::Change,
        SpcOp::Lsr => Use::Change,
        SpcOp::Ror => Use::Change,
        SpcOp::Dec => Use::Change,
        SpcOp::Inc => Use::Change,
        SpcOp::DecX => Use::Internal(1),
        SpcOp::IncX => Use::Internal(1),
        SpcOp::DecY => Use::Internal(1),
        SpcOp::IncY => Use::Internal(1),
        SpcOp::MovwYa => Use::LoadWord,
        SpcOp::StoreYa => Use::StoreWord,
        SpcOp::Addw => Use::LoadWord,
        SpcOp::Subw => Use::LoadWord,
        SpcOp::Cmpw => Use::CompareWord,
        SpcOp::Decw => Use::StepWord,
        SpcOp::Incw => Use::StepWord,
        SpcOp::Mul => Use::Internal(8),
        SpcOp::Div => Use::Internal(11),
        SpcOp::Daa => Use::Internal(2),
        SpcOp::Das => Use::Internal(2),
        SpcOp::Xcn => Use::Internal(4),
        SpcOp::Set1 => Use::Change,
        SpcOp::Clr1 => Use::Change,
        SpcOp::Tset1 => Use::ChangeByA,
        SpcOp::Tclr1 => Use::ChangeByA,
        SpcOp::Or1 => Use::ReadBitSlowly,
        SpcOp::OrNot1 => Use::ReadBitSlowly,
        SpcOp::And1 => Use::ReadBit,
        SpcOp::AndNot1 => Use::ReadBit,
        SpcOp::Eor1 => Use::ReadBitSlowly,
        SpcOp::MovC1 => Use::ReadBit,
        SpcOp::StoreC1 => Use::StoreBit,
        SpcOp::Not1 => Use::ChangeBit,
        SpcOp::Clrp => Use::Internal(1),
        SpcOp::Setp => Use::Internal(1),
        SpcOp::Clrc => Use::Internal(1),
        SpcOp::Setc => Use::Internal(1),
        SpcOp::Notc => Use::Internal(2),
        SpcOp::Clrv => Use::Internal(1),
        SpcOp::Ei => Use::Internal(2),
        SpcOp::Di => Use::Internal(2),
        SpcOp::Bpl => Use::Branch,
        SpcOp::Bmi => Use::Branch,
        SpcOp::Bvc => Use::Branch,
        SpcOp::Bvs => Use::Branch,
        SpcOp::Bcc => Use::Branch,
        SpcOp::Bcs => Use::Branch,
        SpcOp::Bne => Use::Branch,
        SpcOp::Beq => Use::Branch,
        SpcOp::Bra => Use::Branch,
        SpcOp::Bbs => Use::Test,
        SpcOp::Bbc => Use::Test,
        SpcOp::Cbne => Use::Test,
        SpcOp::Dbnz => Use::Count,
        SpcOp::Jmp => Use::Jump,
        SpcOp::Call => Use::Call,
        SpcOp::Pcall => Use::PageCall,
        SpcOp::Tcall => Use::VectorCall,
        SpcOp::Brk => Use::Break,
        SpcOp::Ret => Use::Return,
        SpcOp::Reti => Use::ReturnInterrupt,
        SpcOp::PushA => Use::Push,
        SpcOp::PushX => Use::Push,
        SpcOp::PushY => Use::Push,
        SpcOp::PushPsw => Use::Push,
        SpcOp::PopA => Use::Pull,
        SpcOp::PopX => Use::Pull,
        SpcOp::PopY => Use::Pull,
        SpcOp::PopPsw => Use::Pull,
        SpcOp::Sleep => Use::Halt,
        SpcOp::Stop => Use::Halt,
    }
}
