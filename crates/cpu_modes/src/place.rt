/// Whether the data of an instruction is read, written, or both.
#[derive(Clone, Copy)]
pub enum Direction {
    /// The data is read.
    Load,
    /// The data is written.
    Store,
    /// The data is read, changed and written back.
    Change,
}

/// How the data of an instruction moves, and how wide it is.
#[derive(Clone, Copy)]
pub struct Traffic {
    /// Whether the data is read, written, or both.
    pub direction: Direction,
    /// Whether the data has 16 bits.
    pub wide: bool,
}

/// Where the high byte of data is.
#[derive(Clone, Copy)]
pub enum Reach {
    /// At the next 24-bit address.
    NextAddress,
    /// At the next address in bank 0.
    NextInBankZero,
}

/// What an offset from the direct register is for.
#[derive(Clone, Copy)]
pub enum DirectKind {
    /// `d`: the data in the direct page.
    Plain,
    /// `d,X`
    X,
    /// `d,Y`
    Y,
    /// `(d)`
    Pointer,
    /// `(d,X)`
    XPointer,
    /// `(d),Y`
    PointerY,
    /// `[d]`
    LongPointer,
    /// `[d],Y`
    LongPointerY,
    /// PEI: the word that is pushed.
    Pushed,
}

/// What a pointer to data is for.
#[derive(Clone, Copy)]
pub enum PointerKind {
    /// `(d)` and `(d,X)`
    Plain,
    /// `(d),Y`
    Y,
    /// `(d,S),Y`
    StackY,
    /// `[d]`
    Long,
    /// `[d],Y`
    LongY,
    /// PEI: the word that is pushed.
    Pushed,
}

/// What an operand of two bytes or more is for.
#[derive(Clone, Copy)]
pub enum OperandKind {
    /// `a`
    Plain,
    /// `a,X`
    X,
    /// `a,Y`
    Y,
    /// `al`
    Long,
    /// `al,X`
    LongX,
    /// JMP `a`
    Jump,
    /// JMP `al`
    JumpLong,
    /// JMP `(a)`
    JumpPointer,
    /// JMP `(a,X)`
    JumpXPointer,
    /// JMP `[a]`
    JumpLongPointer,
    /// JSR `a`
    Call,
    /// JSL
    CallLong,
    /// PEA
    Pushed,
    /// PER
    PushedRelative,
    /// BRL
    BranchLong,
}

/// What the third byte of an operand is for.
#[derive(Clone, Copy)]
pub enum BankKind {
    /// `al`
    Plain,
    /// `al,X`
    X,
    /// JMP `al`
    Jump,
}

/// How many bytes the target of a jump has in memory.
#[derive(Clone, Copy)]
pub enum TargetKind {
    /// Two bytes: the bank is given.
    Near,
    /// Three bytes: the last is the bank.
    Far,
}

/// What a return instruction returns from.
#[derive(Clone, Copy)]
pub enum ReturnKind {
    /// A subroutine: RTS.
    Near,
    /// A subroutine in any bank: RTL.
    Far,
    /// An interrupt: RTI.
    Interrupt,
}

/// The place of an instruction's next access in its order.
#[derive(Clone, Copy)]
pub enum Place {
    /// The fetch of the only operand byte, the last access.
    OperandByte,
    /// The fetch of the mask of REP or SEP.
    StatusOperand,
    /// The fetch of the low byte of an immediate operand of 16 bits.
    ImmediateLow,
    /// The fetch of the high byte of an immediate operand of 16 bits.
    ImmediateHigh,
    /// The fetch of an offset from the direct register.
    DirectOffset(DirectKind),
    /// The cycle for a direct register whose low byte isn't 0.
    LowCycle(DirectKind),
    /// The fetch of an offset from the stack pointer, for data there.
    StackOffset,
    /// The fetch of an offset from the stack pointer, for a pointer there.
    StackPointerOffset,
    /// The fetch of the low byte of an operand.
    OperandLow(OperandKind),
    /// The fetch of the high byte of an operand.
    OperandHigh(OperandKind),
    /// The fetch of the bank of an operand.
    OperandBank(BankKind),
    /// A cycle before a pointer is read.
    PointerCycle(PointerKind),
    /// The read of a pointer's low byte.
    PointerLow(PointerKind),
    /// The read of a pointer's high byte.
    PointerHigh(PointerKind),
    /// The read of the bank of a pointer `[d]`.
    PointerBank,
    /// The read of the bank of a pointer `[d],Y`.
    PointerBankY,
    /// A cycle before the data.
    DataCycle(Reach),
    /// The read of data of 8 bits.
    LoadByte,
    /// The read of the low byte of data of 16 bits.
    LoadLow(Reach),
    /// The read of the high byte of data of 16 bits.
    LoadHigh,
    /// The write of data: of its only byte, or of its low byte first.
    StoreLow(Reach),
    /// The write of the high byte of data.
    StoreHigh,
    /// The read of data that is to be changed: of its only byte, or of its low byte.
    ChangeReadLow(Reach),
    /// The read of the high byte of data that is to be changed.
    ChangeReadHigh(Reach),
    /// The cycle in which data is changed.
    ChangeCycle(Reach),
    /// The write of the high byte of changed data.
    ChangeWriteHigh(Reach),
    /// The write of the low byte of changed data, or of its only one.
    ChangeWriteLow,
    /// The last two cycles.
    TwoCycles,
    /// The last cycle.
    LastCycle,
    /// The cycle before a register is pushed.
    PushCycle,
    /// The cycle before a word is pushed.
    PushWordCycle,
    /// The push of a high byte.
    PushHigh,
    /// The push of a low byte, or of a register's only byte.
    PushLow,
    /// The first cycle of a pull.
    PullFirstCycle,
    /// The second cycle of a pull.
    PullCycle,
    /// The pull of a register's only byte.
    PullByte,
    /// The pull of a register's low byte.
    PullLow,
    /// The pull of a register's high byte.
    PullHigh,
    /// JSL: the push of the program bank.
    CallBankPush,
    /// JSL: the cycle after the push of the program bank.
    CallBankCycle,
    /// JSL: the fetch of the target's bank.
    CallBank,
    /// JSR `(a,X)`: the fetch of the pointer's low byte.
    CallPointerLow,
    /// JSR `(a,X)`: the push of the high byte of the return address.
    CallPointerPushHigh,
    /// JSR `(a,X)`: the push of the low byte of the return address.
    CallPointerPushLow,
    /// JSR `(a,X)`: the fetch of the pointer's high byte.
    CallPointerHigh,
    /// The cycle before a target is read.
    TargetCycle,
    /// The read of a target's low byte.
    TargetLow(TargetKind),
    /// The read of a target's high byte.
    TargetHigh(TargetKind),
    /// The read of a target's bank.
    TargetBank,
    /// The first cycle of a return.
    ReturnFirstCycle(ReturnKind),
    /// The second cycle of a return.
    ReturnCycle(ReturnKind),
    /// RTI: the pull of the status byte.
    ReturnStatus,
    /// The pull of the program counter's low byte.
    ReturnLow(ReturnKind),
    /// The pull of the program counter's high byte.
    ReturnHigh(ReturnKind),
    /// The pull of the program bank.
    ReturnBank,
    /// The fetch of a branch's distance.
    BranchOffset,
    /// BRK and COP: the fetch of the byte after the opcode.
    BreakOperand,
    /// The first cycle of an interrupt.
    InterruptFirstCycle,
    /// The second cycle of an interrupt.
    InterruptCycle,
    /// An interrupt's push of the program bank, in native mode.
    InterruptBank,
    /// An interrupt's push of the program counter's high byte.
    InterruptHigh,
    /// An interrupt's push of the program counter's low byte.
    InterruptLow,
    /// An interrupt's push of the status byte.
    InterruptStatus,
    /// MVN and MVP: the fetch of the destination's bank.
    BlockDestination,
    /// MVN and MVP: the fetch of the source's bank.
    BlockSource,
    /// MVN and MVP: the read of a byte.
    BlockRead,
    /// MVN and MVP: the write of the byte that was read.
    BlockWrite,
    /// WAI: the first cycle.
    WaitFirstCycle,
    /// WAI: the second cycle.
    WaitCycle,
    /// WAI: a cycle of waiting.
    Waiting,
    /// STP: a cycle in which the processor is stopped.
    Stopped,
    /// No access of this instruction: the last one was made.
    Ended,
}
