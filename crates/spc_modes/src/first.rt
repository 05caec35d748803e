ghost use Rattle.std.specs.Prelude.{◌≡◌, IsTrue, Some};
ghost use Rattle.spc_tables.specs.Opcodes.{row_of};
ghost use Rattle.spc_tables.specs.declared.opcode.SpcRow.{SpcRow};
ghost use Rattle.spc_tables.specs.declared.regs.SpcRegs.{SpcRegs};
ghost use Rattle.spc_modes.specs.Orders.{first_byte, order};

/// Whether an opcode is known to be followed by a byte that its accesses begin with. Most are, and an
/// instruction then begins without a look at its row.
#[inline(always)]
pub fn begins_with_byte(opcode: u8) -> bool
    ensures { IsTrue result → (row : SpcRow) → row_of opcode ≡ Some row → (r : SpcRegs) → order row r ≡ first_byte row r }
{
    FIRST[opcode as usize] == 1
}

/// 1 for each opcode whose accesses begin with the fetch of a byte, from opcode 00 on.
#[rattlefmt::skip]
static FIRST: [u8; 256] = [
    0, 0, 1, 1, 1, 1, 0, 1, 1, 1, 1, 1, 1, 0, 1, 0, // 00
    0, 0, 1, 1, 1, 1, 1, 1, 1, 0, 1, 1, 0, 0, 1, 1, // 10
    0, 0, 1, 1, 1, 1, 0, 1, 1, 1, 1, 1, 1, 0, 1, 0, // 20
    0, 0, 1, 1, 1, 1, 1, 1, 1, 0, 1, 1, 0, 0, 1, 1, // 30
    0, 0, 1, 1, 1, 1, 0, 1, 1, 1, 1, 1, 1, 0, 1, 1, // 40
    0, 0, 1, 1, 1, 1, 1, 1, 1, 0, 1, 1, 0, 0, 1, 1, // 50
    0, 0, 1, 1, 1, 1, 0, 1, 1, 1, 1, 1, 1, 0, 1, 0, // 60
    0, 0, 1, 1, 1, 1, 1, 1, 1, 0, 1, 1, 0, 0, 1, 0, // 70
    0, 0, 1, 1, 1, 1, 0, 1, 1, 1, 1, 1, 1, 1, 0, 1, // 80
    0, 0, 1, 1, 1, 1, 1, 1, 1, 0, 1, 1, 0, 0, 0, 0, // 90
    0, 0, 1, 1, 1, 1, 0, 1, 1, 1, 1, 1, 1, 1, 0, 0, // A0
    0, 0, 1, 1, 1, 1, 1, 1, 1, 0, 1, 1, 0, 0, 0, 0, // B0
    0, 0, 1, 1, 1, 1, 0, 1, 1, 1, 1, 1, 1, 1, 0, 0, // C0
    0, 0, 1, 1, 1, 1, 1, 1, 1, 1, 1, 1, 0, 0, 1, 0, // D0
    0, 0, 1, 1, 1, 1, 0, 1, 1, 1, 1, 1, 1, 0, 0, 0, // E0
    0, 0, 1, 1, 1, 1, 1, 1, 1, 1, 1, 1, 0, 0, 0, 0, // F0
];
