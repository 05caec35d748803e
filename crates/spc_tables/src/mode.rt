/// The place of an operation's operands: its addressing mode.
///
/// In the comments `d` is a byte's offset in the direct page, `!a` an address of two bytes, and `r` a signed distance
/// of a byte. A round bracket is a place in the direct page, a square bracket a pointer.
#[derive(Clone, Copy)]
pub enum SpcMode {
    /// No operand but the registers that the operation names.
    Implied,
    /// `A`, as the operand of a shift or a count.
    Accumulator,
    /// `#`: the operand follows the opcode.
    Immediate,
    /// `d`
    Direct,
    /// `d+X`: the sum stays in the page.
    DirectX,
    /// `d+Y`: the sum stays in the page.
    DirectY,
    /// `!a`
    Absolute,
    /// `!a+X`
    AbsoluteX,
    /// `!a+Y`
    AbsoluteY,
    /// `(X)`: in the direct page at X.
    IndirectX,
    /// `(X)+`: in the direct page at X, which grows by 1 afterwards.
    IndirectXIncrement,
    /// `[d+X]`: a pointer in the direct page; the index is added before it is read.
    DirectXPointer,
    /// `[d]+Y`: a pointer in the direct page; the index is added to it.
    DirectPointerY,
    /// `d,#`: a place in the direct page and a source byte, which comes first after the opcode.
    DirectImmediate,
    /// `d,d`: a place in the direct page and a source there, whose offset comes first.
    DirectDirect,
    /// `(X),(Y)`: a place in the direct page at X, and a source there at Y.
    IndirectXIndirectY,
    /// `d.k`: bit k of a byte of the direct page.
    DirectBit(u8),
    /// `d.k,r`: bit k of a byte of the direct page, and the distance of a branch.
    DirectBitRelative(u8),
    /// `m.b`: a bit anywhere in the first 8 KiB, by an operand of two bytes. It has the address in its low 13 bits, and
    /// the bit's number in its top three.
    MemoryBit,
    /// `r`: the distance of a branch.
    Relative,
    /// `d,r`: a byte of the direct page, and the distance of a branch.
    DirectRelative,
    /// `d+X,r`
    DirectXRelative,
    /// `Y,r`
    YRelative,
    /// `[!a+X]`: JMP by a pointer.
    AbsoluteXPointer,
    /// PCALL: a byte's offset in page FF.
    HighPage,
    /// TCALL: the number of a vector, from 0 to 15.
    VectorTable(u8),
    /// Pushes, pops, returns and BRK.
    Stack,
}
