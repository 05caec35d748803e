// The opcode matrix: the operation and the addressing mode of each opcode.
ghost use Rattle.std.specs.Prelude.{◌≡◌, Some};
ghost use Rattle.cpu_tables.specs.Opcodes.{row_of};

use crate::mode::Mode;
use crate::opcode::Row;
use crate::operation::Op;

/// Returns what an opcode means, for all 256, by the opcode matrix of the W65C816S data sheet.
#[inline(always)]
pub fn row(op: u8) -> Row
    ensures { row_of op ≡ Some result }
{
    ROWS[op as usize]
}

/// A table of rows, each an operation with its mode.
macro_rules! rows {
    ($($op:ident $mode:ident,)*) => {
        [$(Row { op: Op::$op, mode: Mode::$mode },)*]
    };
}

/// The opcode matrix, from opcode 00 on.
static ROWS: [Row; 256] = rows![
    // 00
    Brk Stack, Ora DirectXPointer, Cop Stack, Ora StackRelative,
    Tsb Direct, Ora Direct, Asl Direct, Ora DirectLongPointer,
    Php Stack, Ora Immediate, Asl Accumulator, Phd Stack,
    Tsb Absolute, Ora Absolute, Asl Absolute, Ora Long,
    // 10
    Bpl Relative, Ora DirectPointerY, Ora DirectPointer, Ora StackPointerY,
    Trb Direct, Ora DirectX, Asl DirectX, Ora DirectLongPointerY,
    Clc Implied, Ora AbsoluteY, Inc Accumulator, Tcs Implied,
    Trb Absolute, Ora AbsoluteX, Asl AbsoluteX, Ora LongX,
    // 20
    Jsr Absolute, And DirectXPointer, Jsl Long, And StackRelative,
    Bit Direct, And Direct, Rol Direct, And DirectLongPointer,
    Plp Stack, And Immediate, Rol Accumulator, Pld Stack,
    Bit Absolute, And Absolute, Rol Absolute, And Long,
    // 30
    Bmi Relative, And DirectPointerY, And DirectPointer, And StackPointerY,
    Bit DirectX, And DirectX, Rol DirectX, And DirectLongPointerY,
    Sec Implied, And AbsoluteY, Dec Accumulator, Tsc Implied,
    Bit AbsoluteX, And AbsoluteX, Rol AbsoluteX, And LongX,
    // 40
    Rti Stack, Eor DirectXPointer, Wdm Immediate, Eor StackRelative,
    Mvp BlockMove, Eor Direct, Lsr Direct, Eor DirectLongPointer,
    Pha Stack, Eor Immediate, Lsr Accumulator, Phk Stack,
    Jmp Absolute, Eor Absolute, Lsr Absolute, Eor Long,
    // 50
    Bvc Relative, Eor DirectPointerY, Eor DirectPointer, Eor StackPointerY,
    Mvn BlockMove, Eor DirectX, Lsr DirectX, Eor DirectLongPointerY,
    Cli Implied, Eor AbsoluteY, Phy Stack, Tcd Implied,
    Jmp Long, Eor AbsoluteX, Lsr AbsoluteX, Eor LongX,
    // 60
    Rts Stack, Adc DirectXPointer, Per RelativeLong, Adc StackRelative,
    Stz Direct, Adc Direct, Ror Direct, Adc DirectLongPointer,
    Pla Stack, Adc Immediate, Ror Accumulator, Rtl Stack,
    Jmp AbsolutePointer, Adc Absolute, Ror Absolute, Adc Long,
    // 70
    Bvs Relative, Adc DirectPointerY, Adc DirectPointer, Adc StackPointerY,
    Stz DirectX, Adc DirectX, Ror DirectX, Adc DirectLongPointerY,
    Sei Implied, Adc AbsoluteY, Ply Stack, Tdc Implied,
    Jmp AbsoluteXPointer, Adc AbsoluteX, Ror AbsoluteX, Adc LongX,
    // 80
    Bra Relative, Sta DirectXPointer, Brl RelativeLong, Sta StackRelative,
    Sty Direct, Sta Direct, Stx Direct, Sta DirectLongPointer,
    Dey Implied, Bit Immediate, Txa Implied, Phb Stack,
    Sty Absolute, Sta Absolute, Stx Absolute, Sta Long,
    // 90
    Bcc Relative, Sta DirectPointerY, Sta DirectPointer, Sta StackPointerY,
    Sty DirectX, Sta DirectX, Stx DirectY, Sta DirectLongPointerY,
    Tya Implied, Sta AbsoluteY, Txs Implied, Txy Implied,
    Stz Absolute, Sta AbsoluteX, Stz AbsoluteX, Sta LongX,
    // A0
    Ldy Immediate, Lda DirectXPointer, Ldx Immediate, Lda StackRelative,
    Ldy Direct, Lda Direct, Ldx Direct, Lda DirectLongPointer,
    Tay Implied, Lda Immediate, Tax Implied, Plb Stack,
    Ldy Absolute, Lda Absolute, Ldx Absolute, Lda Long,
    // B0
    Bcs Relative, Lda DirectPointerY, Lda DirectPointer, Lda StackPointerY,
    Ldy DirectX, Lda DirectX, Ldx DirectY, Lda DirectLongPointerY,
    Clv Implied, Lda AbsoluteY, Tsx Implied, Tyx Implied,
    Ldy AbsoluteX, Lda AbsoluteX, Ldx AbsoluteY, Lda LongX,
    // C0
    Cpy Immediate, Cmp DirectXPointer, Rep Immediate, Cmp StackRelative,
    Cpy Direct, Cmp Direct, Dec Direct, Cmp DirectLongPointer,
    Iny Implied, Cmp Immediate, Dex Implied, Wai Implied,
    Cpy Absolute, Cmp Absolute, Dec Absolute, Cmp Long,
    // D0
    Bne Relative, Cmp DirectPointerY, Cmp DirectPointer, Cmp StackPointerY,
    Pei Stack, Cmp DirectX, Dec DirectX, Cmp DirectLongPointerY,
    Cld Implied, Cmp AbsoluteY, Phx Stack, Stp Implied,
    Jmp AbsoluteLongPointer, Cmp AbsoluteX, Dec AbsoluteX, Cmp LongX,
    // E0
    Cpx Immediate, Sbc DirectXPointer, Sep Immediate, Sbc StackRelative,
    Cpx Direct, Sbc Direct, Inc Direct, Sbc DirectLongPointer,
    Inx Implied, Sbc Immediate, Nop Implied, Xba Implied,
    Cpx Absolute, Sbc Absolute, Inc Absolute, Sbc Long,
    // F0
    Beq Relative, Sbc DirectPointerY, Sbc DirectPointer, Sbc StackPointerY,
    Pea Stack, Sbc DirectX, Inc DirectX, Sbc DirectLongPointerY,
    Sed Implied, Sbc AbsoluteY, Plx Stack, Xce Implied,
    Jsr AbsoluteXPointer, Sbc AbsoluteX, Inc AbsoluteX, Sbc LongX,
];
