/// The operations, one for each mnemonic, and the three (NMI, IRQ, reset) that no opcode has.
#[derive(Clone, Copy, PartialEq, Eq)]
pub enum Op {
    /// Adds the operand and the carry to A.
    Adc,
    /// Bitwise AND of A and the operand, into A.
    And,
    /// A shift to the left.
    Asl,
    /// A branch if the carry is clear.
    Bcc,
    /// A branch if the carry is set.
    Bcs,
    /// A branch if the last result was zero.
    Beq,
    /// A test of the operand's bits against A.
    Bit,
    /// A branch if the last result was negative.
    Bmi,
    /// A branch if the last result was not zero.
    Bne,
    /// A branch if the last result was not negative.
    Bpl,
    /// A branch that is always taken.
    Bra,
    /// A break, a software interrupt.
    Brk,
    /// A branch by a distance of two bytes, always taken.
    Brl,
    /// A branch if the overflow flag is clear.
    Bvc,
    /// A branch if the overflow flag is set.
    Bvs,
    /// Clears the carry.
    Clc,
    /// Clears the decimal flag.
    Cld,
    /// Clears the interrupt disable flag.
    Cli,
    /// Clears the overflow flag.
    Clv,
    /// Compares A with the operand.
    Cmp,
    /// A coprocessor call, a software interrupt.
    Cop,
    /// Compares X with the operand.
    Cpx,
    /// Compares Y with the operand.
    Cpy,
    /// Subtracts 1 from the operand.
    Dec,
    /// Subtracts 1 from X.
    Dex,
    /// Subtracts 1 from Y.
    Dey,
    /// Exclusive OR of A and the operand, into A.
    Eor,
    /// Adds 1 to the operand.
    Inc,
    /// Adds 1 to X.
    Inx,
    /// Adds 1 to Y.
    Iny,
    /// A jump, within the program bank or to another.
    Jmp,
    /// A call of a subroutine in any bank.
    Jsl,
    /// A call of a subroutine.
    Jsr,
    /// Loads A.
    Lda,
    /// Loads X.
    Ldx,
    /// Loads Y.
    Ldy,
    /// A shift to the right.
    Lsr,
    /// One byte of a block, with both indexes going up.
    Mvn,
    /// One byte of a block, with both indexes going down.
    Mvp,
    /// Does nothing.
    Nop,
    /// Bitwise OR of A and the operand, into A.
    Ora,
    /// Pushes the two bytes after the opcode.
    Pea,
    /// Pushes two bytes of the direct page.
    Pei,
    /// Pushes an address relative to the program counter.
    Per,
    /// Pushes A.
    Pha,
    /// Pushes the data bank.
    Phb,
    /// Pushes the direct register.
    Phd,
    /// Pushes the program bank.
    Phk,
    /// Pushes the status byte.
    Php,
    /// Pushes X.
    Phx,
    /// Pushes Y.
    Phy,
    /// Pulls A.
    Pla,
    /// Pulls the data bank.
    Plb,
    /// Pulls the direct register.
    Pld,
    /// Pulls the status byte.
    Plp,
    /// Pulls X.
    Plx,
    /// Pulls Y.
    Ply,
    /// Clears the flags of a mask.
    Rep,
    /// A rotation to the left through the carry.
    Rol,
    /// A rotation to the right through the carry.
    Ror,
    /// A return from an interrupt.
    Rti,
    /// A return from a subroutine in any bank.
    Rtl,
    /// A return from a subroutine.
    Rts,
    /// Subtracts the operand and the borrow from A.
    Sbc,
    /// Sets the carry.
    Sec,
    /// Sets the decimal flag.
    Sed,
    /// Sets the interrupt disable flag.
    Sei,
    /// Sets the flags of a mask.
    Sep,
    /// Stores A.
    Sta,
    /// Stops the processor.
    Stp,
    /// Stores X.
    Stx,
    /// Stores Y.
    Sty,
    /// Stores zero.
    Stz,
    /// Copies A to X.
    Tax,
    /// Copies A to Y.
    Tay,
    /// Copies all 16 bits of A to the direct register.
    Tcd,
    /// Copies all 16 bits of A to the stack pointer.
    Tcs,
    /// Copies the direct register to all 16 bits of A.
    Tdc,
    /// Clears the bits of A in the operand.
    Trb,
    /// Sets the bits of A in the operand.
    Tsb,
    /// Copies the stack pointer to all 16 bits of A.
    Tsc,
    /// Copies the stack pointer to X.
    Tsx,
    /// Copies X to A.
    Txa,
    /// Copies X to the stack pointer.
    Txs,
    /// Copies X to Y.
    Txy,
    /// Copies Y to A.
    Tya,
    /// Copies Y to X.
    Tyx,
    /// Waits for an interrupt.
    Wai,
    /// Reserved: fetches an operand and does nothing.
    Wdm,
    /// Exchanges the two bytes of A.
    Xba,
    /// Exchanges the carry and emulation mode.
    Xce,
    /// An interrupt that can't be masked.
    Nmi,
    /// An interrupt request.
    Irq,
    /// The reset.
    Reset,
}
