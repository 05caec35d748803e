/// The addressing modes. In the comments `d` is an offset of one byte from the direct register, `a`
/// an address of two bytes, `al` one of three, and a pair of brackets stands for a pointer.
#[derive(Clone, Copy)]
pub enum Mode {
    /// `#`: the operand follows the opcode, as wide as the operation. REP, SEP and WDM have one byte.
    Immediate,
    /// `d`: bank 0, at the direct register plus the offset.
    Direct,
    /// `d,X`: bank 0, at the direct register plus the offset and X.
    DirectX,
    /// `d,Y`: bank 0, at the direct register plus the offset and Y.
    DirectY,
    /// `(d)`: a pointer of two bytes, in the data bank.
    DirectPointer,
    /// `(d,X)`: the index is added before the pointer is read.
    DirectXPointer,
    /// `(d),Y`: the index is added to the pointer.
    DirectPointerY,
    /// `[d]`: a pointer of three bytes.
    DirectLongPointer,
    /// `[d],Y`: Y is added to a pointer of three bytes.
    DirectLongPointerY,
    /// `a`: in the data bank; for JMP and JSR in the program bank.
    Absolute,
    /// `a,X`: in the data bank, with X added to the address.
    AbsoluteX,
    /// `a,Y`: in the data bank, with Y added to the address.
    AbsoluteY,
    /// `al`: an address with its bank.
    Long,
    /// `al,X`: an address with its bank, with X added.
    LongX,
    /// `d,S`: bank 0, at the stack pointer plus the offset.
    StackRelative,
    /// `(d,S),Y`: Y is added to a pointer on the stack.
    StackPointerY,
    /// `(a)`: JMP by a pointer of two bytes in bank 0.
    AbsolutePointer,
    /// `(a,X)`: JMP and JSR by a pointer in the program bank.
    AbsoluteXPointer,
    /// `[a]`: JMP by a pointer of three bytes in bank 0.
    AbsoluteLongPointer,
    /// A branch by a signed byte.
    Relative,
    /// BRL and PER: a distance of two bytes.
    RelativeLong,
    /// The operand is A.
    Accumulator,
    /// No operand except the registers that the operation names.
    Implied,
    /// Pushes, pulls, returns and other operations on the stack: BRK, COP, PEA, PEI, interrupts.
    Stack,
    /// MVN and MVP: two banks follow the opcode.
    BlockMove,
}
