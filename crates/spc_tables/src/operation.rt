/// The operations: one for each mnemonic, and of MOV, CMP, INC, DEC, PUSH and POP one for each register.
#[derive(Clone, Copy)]
pub enum SpcOp {
    /// Nothing.
    Nop,
    /// A byte of memory moved: MOV `d,#` and MOV `d,d`.
    Mov,
    /// A loaded from memory.
    MovA,
    /// X loaded from memory.
    MovX,
    /// Y loaded from memory.
    MovY,
    /// A stored: MOV to memory.
    StoreA,
    /// X stored.
    StoreX,
    /// Y stored.
    StoreY,
    /// X into A.
    MovAX,
    /// Y into A.
    MovAY,
    /// A into X.
    MovXA,
    /// A into Y.
    MovYA,
    /// The stack pointer into X.
    MovXSp,
    /// X into the stack pointer.
    MovSpX,
    /// Bits of either operand.
    Or,
    /// Bits of both operands.
    And,
    /// Bits of exactly one operand.
    Eor,
    /// A, or a byte of memory, compared with an operand.
    Cmp,
    /// X compared with an operand.
    CmpX,
    /// Y compared with an operand.
    CmpY,
    /// The operands plus the carry.
    Adc,
    /// The first operand minus the second, minus 1 if the carry is clear.
    Sbc,
    /// A shift to the left.
    Asl,
    /// A rotation to the left through the carry.
    Rol,
    /// A shift to the right.
    Lsr,
    /// A rotation to the right through the carry.
    Ror,
    /// A or a byte of memory minus 1.
    Dec,
    /// A or a byte of memory plus 1.
    Inc,
    /// X minus 1.
    DecX,
    /// X plus 1.
    IncX,
    /// Y minus 1.
    DecY,
    /// Y plus 1.
    IncY,
    /// YA loaded from a word of the direct page.
    MovwYa,
    /// YA stored: MOVW to the direct page.
    StoreYa,
    /// YA plus a word.
    Addw,
    /// YA minus a word.
    Subw,
    /// YA compared with a word.
    Cmpw,
    /// A word of memory minus 1.
    Decw,
    /// A word of memory plus 1.
    Incw,
    /// YA is Y times A.
    Mul,
    /// A is YA divided by X, Y the remainder.
    Div,
    /// A corrected to decimal digits after an addition.
    Daa,
    /// A corrected to decimal digits after a subtraction.
    Das,
    /// The two digits of A exchanged.
    Xcn,
    /// A bit of the direct page set.
    Set1,
    /// A bit of the direct page cleared.
    Clr1,
    /// The bits of A set in a byte of memory.
    Tset1,
    /// The bits of A cleared in a byte of memory.
    Tclr1,
    /// C or a bit of memory.
    Or1,
    /// C or the inverse of a bit of memory: OR1 `C,/m.b`.
    OrNot1,
    /// C and a bit of memory.
    And1,
    /// C and the inverse of a bit of memory: AND1 `C,/m.b`.
    AndNot1,
    /// C exclusive or a bit of memory.
    Eor1,
    /// A bit of memory into C: MOV1 `C,m.b`.
    MovC1,
    /// C into a bit of memory: MOV1 `m.b,C`.
    StoreC1,
    /// A bit of memory inverted.
    Not1,
    /// The direct page is page 0.
    Clrp,
    /// The direct page is page 1.
    Setp,
    /// C clear.
    Clrc,
    /// C set.
    Setc,
    /// C inverted.
    Notc,
    /// V and H clear.
    Clrv,
    /// Interrupts on.
    Ei,
    /// Interrupts off.
    Di,
    /// A branch if N is clear.
    Bpl,
    /// A branch if N is set.
    Bmi,
    /// A branch if V is clear.
    Bvc,
    /// A branch if V is set.
    Bvs,
    /// A branch if C is clear.
    Bcc,
    /// A branch if C is set.
    Bcs,
    /// A branch if Z is clear.
    Bne,
    /// A branch if Z is set.
    Beq,
    /// A branch that is always taken.
    Bra,
    /// A branch if a bit of the direct page is set.
    Bbs,
    /// A branch if a bit of the direct page is clear.
    Bbc,
    /// A branch if A differs from a byte of the direct page.
    Cbne,
    /// A count down, and a branch if it is not at 0.
    Dbnz,
    /// A jump.
    Jmp,
    /// A call.
    Call,
    /// A call into page FF.
    Pcall,
    /// A call by one of sixteen vectors.
    Tcall,
    /// A break, a software interrupt.
    Brk,
    /// A return from a call.
    Ret,
    /// A return from an interrupt.
    Reti,
    /// A pushed.
    PushA,
    /// X pushed.
    PushX,
    /// Y pushed.
    PushY,
    /// The status byte pushed.
    PushPsw,
    /// A pulled.
    PopA,
    /// X pulled.
    PopX,
    /// Y pulled.
    PopY,
    /// The status byte pulled.
    PopPsw,
    /// A stop that nothing ends, as the sound side has no interrupts.
    Sleep,
    /// A stop for ever.
    Stop,
}
