// What each operation does on the bus.
ghost use Rattle.std.specs.Prelude.{◌≡◌};
ghost use Rattle.cpu_modes.specs.Uses.{use_of};

use cpu_tables::Op;

/// How many bits the data of an operation has.
#[derive(Clone, Copy)]
pub enum Width {
    /// 8 bits if M is set, else 16.
    Memory,
    /// 8 bits if X is set, else 16.
    Index,
    /// Always 8 bits.
    Byte,
    /// Always 16 bits.
    Word,
}

/// What interrupts a program.
#[derive(Clone, Copy)]
pub enum Cause {
    /// COP
    Coprocessor,
    /// BRK
    Break,
    /// NMI, the line that can't be masked.
    Nmi,
    /// IRQ, the line that can be masked.
    Irq,
}

/// What an operation does on the bus besides finding its operand.
#[derive(Clone, Copy)]
pub enum Use {
    /// The data is read.
    Load(Width),
    /// The data is written.
    Store(Width),
    /// The data is read, changed and written back.
    Change(Width),
    /// One internal cycle.
    Internal,
    /// XBA: two internal cycles.
    Exchange,
    /// REP and SEP: an operand and an internal cycle.
    Status,
    /// WDM: an operand.
    Reserved,
    /// A register is pushed.
    Push(Width),
    /// A register is pulled.
    Pull(Width),
    /// PEA: the operand is pushed.
    PushOperand,
    /// PEI: a word of the direct page is pushed.
    PushDirect,
    /// PER: an address relative to the program counter is pushed.
    PushRelative,
    /// JMP by any mode.
    Jump,
    /// JSR by either mode.
    Call,
    /// JSL.
    CallLong,
    /// RTS.
    Return,
    /// RTL.
    ReturnLong,
    /// RTI.
    ReturnInterrupt,
    /// A branch by one byte.
    Branch,
    /// BRL.
    BranchLong,
    /// BRK and COP.
    Software(Cause),
    /// MVN and MVP.
    BlockMove,
    /// WAI.
    Wait,
    /// STP.
    Stop,
    /// An interrupt from outside.
    Hardware(Cause),
    /// The reset.
    Reset,
}

/// Returns what an operation does on the bus.
#[inline(always)]
#[tactic(auto, unfolding(crate::specs::Uses::use_of))]
pub fn use_of(op: Op) -> Use
    ensures { result ≡ use_of op }
{
    match op {
        Op::Adc => Use::Load(Width::Memory),
        Op::And => Use::Load(Width::Memory),
        Op::Asl => Use::Change(Width::Memory),
        Op::Bcc => Use::Branch,
        Op::Bcs => Use::Branch,
        Op::Beq => Use::Branch,
        Op::Bit => Use::Load(Width::Memory),
        Op::Bmi => Use::Branch,
        Op::Bne => Use::Branch,
        Op::Bpl => Use::Branch,
        Op::Bra => Use::Branch,
        Op::Brk => Use::Software(Cause::Break),
        Op::Brl => Use::BranchLong,
        Op::Bvc => Use::Branch,
        Op::Bvs => Use::Branch,
        Op::Clc => Use::Internal,
        Op::Cld => Use::Internal,
        Op::Cli => Use::Internal,
        Op::Clv => Use::Internal,
        Op::Cmp => Use::Load(Width::Memory),
        Op::Cop => Use::Software(Cause::Coprocessor),
        Op::Cpx => Use::Load(Width::Index),
        Op::Cpy => Use::Load(Width::Index),
        Op::Dec => Use::Change(Width::Memory),
        Op::Dex => Use::Internal,
        Op::Dey => Use::Internal,
        Op::Eor => Use::Load(Width::Memory),
        Op::Inc => Use::Change(Width::Memory),
        Op::Inx => Use::Internal,
        Op::Iny => Use::Internal,
        Op::Jmp => Use::Jump,
        Op::Jsl => Use::CallLong,
        Op::Jsr => Use::Call,
        Op::Lda => Use::Load(Width::Memory),
        Op::Ldx => Use::Load(Width::Index),
        Op::Ldy => Use::Load(Width::Index),
        Op::Lsr => Use::Change(Width::Memory),
        Op::Mvn => Use::BlockMove,
        Op::Mvp => Use::BlockMove,
        Op::Nop => Use::Internal,
        Op::Ora => Use::Load(Width::Memory),
        Op::Pea => Use::PushOperand,
        Op::Pei => Use::PushDirect,
        Op::Per => Use::PushRelative,
        Op::Pha => Use::Push(Width::Memory),
        Op::Phb => Use::Push(Width::Byte),
        Op::Phd => Use::Push(Width::Word),
        Op::Phk => Use::Push(Width::Byte),
        Op::Php => Use::Push(Width::Byte),
        Op::Phx => Use::Push(Width::Index),
        Op::Phy => Use::Push(Width::Index),
        Op::Pla => Use::Pull(Width::Memory),
        Op::Plb => Use::Pull(Width::Byte),
        Op::Pld => Use::Pull(Width::Word),
        Op::Plp => Use::Pull(Width::Byte),
        Op::Plx => Use::Pull(Width::Index),
        Op::Ply => Use::Pull(Width::Index),
        Op::Rep => Use::Status,
        Op::Rol => Use::Change(Width::Memory),
        Op::Ror => Use::Change(Width::Memory),
        Op::Rti => Use::ReturnInterrupt,
        Op::Rtl => Use::ReturnLong,
        Op::Rts => Use::Return,
        Op::Sbc => Use::Load(Width::Memory),
        Op::Sec => Use::Internal,
        Op::Sed => Use::Internal,
        Op::Sei => Use::Internal,
        Op::Sep => Use::Status,
        Op::Sta => Use::Store(Width::Memory),
        Op::Stp => Use::Stop,
        Op::Stx => Use::Store(Width::Index),
        Op::Sty => Use::Store(Width::Index),
        Op::Stz => Use::Store(Width::Memory),
        Op::Tax => Use::Internal,
        Op::Tay => Use::Internal,
        Op::Tcd => Use::Internal,
        Op::Tcs => Use::Internal,
        Op::Tdc => Use::Internal,
        Op::Trb => Use::Change(Width::Memory),
        Op::Tsb => Use::Change(Width::Memory),
        Op::Tsc => Use::Internal,
        Op::Tsx => Use::Internal,
        Op::Txa => Use::Internal,
        Op::Txs => Use::Internal,
        Op::Txy => Use::Internal,
        Op::Tya => Use::Internal,
        Op::Tyx => Use::Internal,
        Op::Wai => Use::Wait,
        Op::Wdm => Use::Reserved,
        Op::Xba => Use::Exchange,
        Op::Xce => Use::Internal,
        Op::Nmi => Use::Hardware(Cause::Nmi),
        Op::Irq => Use::Hardware(Cause::Irq),
        Op::Reset => Use::Reset,
    }
}
