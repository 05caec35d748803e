/// What a pointer of the direct page is for.
#[derive(Clone, Copy)]
pub enum PointerKind {
    /// `[d+X]`: the data is at the pointer.
    Plain,
    /// `[d]+Y`: the data is at the pointer plus Y.
    Y,
}

/// The next access of an instruction.
#[derive(Clone, Copy)]
pub enum Place {
    /// The opcode fetch of the next instruction: this one has ended.
    Between,
    /// The fetch of the first byte after the opcode.
    FirstByte,
    /// The fetch of the high byte of an operand.
    OperandHigh,
    /// A cycle before the data at an address.
    DataCycle,
    /// The read of a byte.
    Load,
    /// The read of a byte that is to be changed.
    ChangeRead,
    /// The read of a byte that is to be changed by the bits of A.
    ChangeByARead,
    /// The read of a word's low byte, before a cycle.
    WordLow,
    /// CMPW: the read of a word's low byte.
    CompareWordLow,
    /// The cycle between a word's bytes.
    WordCycle,
    /// The read of a word's high byte.
    WordHigh,
    /// MOVW: the cycle before the writes.
    StoreWordCycle,
    /// MOVW: the write of A.
    StoreWordLow,
    /// INCW and DECW: the read of the low byte.
    StepWordRead,
    /// INCW and DECW: the write of the low byte.
    StepWordLow,
    /// INCW and DECW: the read of the high byte.
    StepWordHigh,
    /// The read of a byte for one of its bits.
    BitRead,
    /// A cycle before a pointer is read.
    PointerCycle,
    /// The read of a pointer's low byte.
    PointerLow(PointerKind),
    /// The read of a pointer's high byte.
    PointerHigh(PointerKind),
    /// `(X)+`: the cycle before the data.
    IncrementCycle,
    /// `(X)+`: the read.
    IncrementLoad,
    /// The cycle before the last write.
    WriteCycle,
    /// The last write, which ends the instruction.
    WriteLast,
    /// The last internal cycles: one, and as many more as the kept byte says.
    Cycles,
    /// `d,#`: the fetch of the offset.
    ImmediatePairOffset,
    /// `d,d`: the read of the source.
    DirectPairSource,
    /// `d,d`: the fetch of the second offset.
    DirectPairOffset,
    /// `(X),(Y)`: the cycle before the source.
    IndirectPairCycle,
    /// `(X),(Y)`: the read of the source.
    IndirectPairSource,
    /// The read of the place that takes the result.
    PairRead,
    /// DBNZ Y: the first cycle, with whether the branch will be taken.
    BranchFirstCycle(bool),
    /// The cycle before a branch's distance.
    BranchCycle(bool),
    /// The fetch of a branch's distance.
    BranchDistance(bool),
    /// CBNE `d+X`: the cycle before the read.
    TestCycle,
    /// The read of the byte that decides a branch.
    TestRead,
    /// DBNZ: the write of the count.
    CountWrite(bool),
    /// The cycle before a register is pushed.
    PushCycle,
    /// The push of a register.
    PushRegister,
    /// The first cycle before a pull.
    PullFirstCycle,
    /// The second cycle before a pull.
    PullCycle,
    /// The pull of a register.
    PullRegister,
    /// RETI: the pull of PSW.
    ReturnStatus,
    /// The pull of the program counter's low byte.
    ReturnLow,
    /// The pull of the program counter's high byte.
    ReturnHigh,
    /// TCALL: the first cycle.
    CallFirstCycle,
    /// The cycle before the program counter is pushed.
    CallCycle,
    /// The push of the program counter's high byte.
    PushHigh,
    /// The push of the program counter's low byte.
    PushLow,
    /// BRK: the push of PSW.
    BreakStatus,
    /// The cycle before a target is read.
    TargetCycle,
    /// The read of a target's low byte.
    TargetLow,
    /// The read of a target's high byte.
    TargetHigh,
    /// SLEEP and STOP: a cycle of a halted processor.
    Halted,
}
