ghost use Rattle.std.specs.Prelude.{◌≡◌, Some};
ghost use Rattle.spc_tables.specs.Opcodes.{row_of};

use crate::mode::SpcMode;
use crate::opcode::SpcRow;
use crate::operation::SpcOp;

/// What an opcode means, for all 256, by the SPC700's opcode matrix (fullsnes, "SPC700 CPU").
#[inline(always)]
pub fn row(op: u8) -> SpcRow
    ensures { row_of op ≡ Some result }
{
    ROWS[op as usize]
}

/// A table of rows, each an operation with its operands.
macro_rules! rows {
    ($($op:ident $mode:ident $(($number:literal))?,)*) => {
        [$(SpcRow { op: SpcOp::$op, mode: SpcMode::$mode $(($number))? },)*]
    };
}

/// The opcode matrix, from opcode 00 on.
static ROWS: [SpcRow; 256] = rows![
    // 00
    Nop Implied, Tcall VectorTable(0), Set1 DirectBit(0), Bbs DirectBitRelative(0),
    Or Direct, Or Absolute, Or IndirectX, Or DirectXPointer,
    Or Immediate, Or DirectDirect, Or1 MemoryBit, Asl Direct,
    Asl Absolute, PushPsw Stack, Tset1 Absolute, Brk Stack,
    // 10
    Bpl Relative, Tcall VectorTable(1), Clr1 DirectBit(0), Bbc DirectBitRelative(0),
    Or DirectX, Or AbsoluteX, Or AbsoluteY, Or DirectPointerY,
    Or DirectImmediate, Or IndirectXIndirectY, Decw Direct, Asl DirectX,
    Asl Accumulator, DecX Implied, CmpX Absolute, Jmp AbsoluteXPointer,
    // 20
    Clrp Implied, Tcall VectorTable(2), Set1 DirectBit(1), Bbs DirectBitRelative(1),
    And Direct, And Absolute, And IndirectX, And DirectXPointer,
    And Immediate, And DirectDirect, OrNot1 MemoryBit, Rol Direct,
    Rol Absolute, PushA Stack, Cbne DirectRelative, Bra Relative,
    // 30
    Bmi Relative, Tcall VectorTable(3), Clr1 DirectBit(1), Bbc DirectBitRelative(1),
    And DirectX, And AbsoluteX, And AbsoluteY, And DirectPointerY,
    And DirectImmediate, And IndirectXIndirectY, Incw Direct, Rol DirectX,
    Rol Accumulator, IncX Implied, CmpX Direct, Call Absolute,
    // 40
    Setp Implied, Tcall VectorTable(4), Set1 DirectBit(2), Bbs DirectBitRelative(2),
    Eor Direct, Eor Absolute, Eor IndirectX, Eor DirectXPointer,
    Eor Immediate, Eor DirectDirect, And1 MemoryBit, Lsr Direct,
    Lsr Absolute, PushX Stack, Tclr1 Absolute, Pcall HighPage,
    // 50
    Bvc Relative, Tcall VectorTable(5), Clr1 DirectBit(2), Bbc DirectBitRelative(2),
    Eor DirectX, Eor AbsoluteX, Eor AbsoluteY, Eor DirectPointerY,
    Eor DirectImmediate, Eor IndirectXIndirectY, Cmpw Direct, Lsr DirectX,
    Lsr Accumulator, MovXA Implied, CmpY Absolute, Jmp Absolute,
    // 60
    Clrc Implied, Tcall VectorTable(6), Set1 DirectBit(3), Bbs DirectBitRelative(3),
    Cmp Direct, Cmp Absolute, Cmp IndirectX, Cmp DirectXPointer,
    Cmp Immediate, Cmp DirectDirect, AndNot1 MemoryBit, Ror Direct,
    Ror Absolute, PushY Stack, Dbnz DirectRelative, Ret Stack,
    // 70
    Bvs Relative, Tcall VectorTable(7), Clr1 DirectBit(3), Bbc DirectBitRelative(3),
    Cmp DirectX, Cmp AbsoluteX, Cmp AbsoluteY, Cmp DirectPointerY,
    Cmp DirectImmediate, Cmp IndirectXIndirectY, Addw Direct, Ror DirectX,
    Ror Accumulator, MovAX Implied, CmpY Direct, Reti Stack,
    // 80
    Setc Implied, Tcall VectorTable(8), Set1 DirectBit(4), Bbs DirectBitRelative(4),
    Adc Direct, Adc Absolute, Adc IndirectX, Adc DirectXPointer,
    Adc Immediate, Adc DirectDirect, Eor1 MemoryBit, Dec Direct,
    Dec Absolute, MovY Immediate, PopPsw Stack, Mov DirectImmediate,
    // 90
    Bcc Relative, Tcall VectorTable(9), Clr1 DirectBit(4), Bbc DirectBitRelative(4),
    Adc DirectX, Adc AbsoluteX, Adc AbsoluteY, Adc DirectPointerY,
    Adc DirectImmediate, Adc IndirectXIndirectY, Subw Direct, Dec DirectX,
    Dec Accumulator, MovXSp Implied, Div Implied, Xcn Implied,
    // A0
    Ei Implied, Tcall VectorTable(10), Set1 DirectBit(5), Bbs DirectBitRelative(5),
    Sbc Direct, Sbc Absolute, Sbc IndirectX, Sbc DirectXPointer,
    Sbc Immediate, Sbc DirectDirect, MovC1 MemoryBit, Inc Direct,
    Inc Absolute, CmpY Immediate, PopA Stack, StoreA IndirectXIncrement,
    // B0
    Bcs Relative, Tcall VectorTable(11), Clr1 DirectBit(5), Bbc DirectBitRelative(5),
    Sbc DirectX, Sbc AbsoluteX, Sbc AbsoluteY, Sbc DirectPointerY,
    Sbc DirectImmediate, Sbc IndirectXIndirectY, MovwYa Direct, Inc DirectX,
    Inc Accumulator, MovSpX Implied, Das Implied, MovA IndirectXIncrement,
    // C0
    Di Implied, Tcall VectorTable(12), Set1 DirectBit(6), Bbs DirectBitRelative(6),
    StoreA Direct, StoreA Absolute, StoreA IndirectX, StoreA DirectXPointer,
    CmpX Immediate, StoreX Absolute, StoreC1 MemoryBit, StoreY Direct,
    StoreY Absolute, MovX Immediate, PopX Stack, Mul Implied,
    // D0
    Bne Relative, Tcall VectorTable(13), Clr1 DirectBit(6), Bbc DirectBitRelative(6),
    StoreA DirectX, StoreA AbsoluteX, StoreA AbsoluteY, StoreA DirectPointerY,
    StoreX Direct, StoreX DirectY, StoreYa Direct, StoreY DirectX,
    DecY Implied, MovAY Implied, Cbne DirectXRelative, Daa Implied,
    // E0
    Clrv Implied, Tcall VectorTable(14), Set1 DirectBit(7), Bbs DirectBitRelative(7),
    MovA Direct, MovA Absolute, MovA IndirectX, MovA DirectXPointer,
    MovA Immediate, MovX Absolute, Not1 MemoryBit, MovY Direct,
    MovY Absolute, Notc Implied, PopY Stack, Sleep Implied,
    // F0
    Beq Relative, Tcall VectorTable(15), Clr1 DirectBit(7), Bbc DirectBitRelative(7),
    MovA DirectX, MovA AbsoluteX, MovA AbsoluteY, MovA DirectPointerY,
    MovX Direct, MovX DirectY, Mov DirectDirect, MovY DirectX,
    IncY Implied, MovYA Implied, Dbnz YRelative, Stop Implied,
];
