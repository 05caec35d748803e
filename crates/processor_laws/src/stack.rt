ghost use Rattle.std.specs.Prelude.{◌≡◌, ◌+◌, ◌*◌, ◌/◌, ◌%◌, [], ◌∷◌};
ghost use Rattle.spc_modes.specs.Plan.{ends};
ghost use Rattle.processor_laws.specs.Accesses.{accesses_of, left_after};

use spc_tables::{SpcAccess, SpcRegs};

/// States that RET returns to the instruction after its CALL. CALL pushes the address after it and continues at its
/// operand. A RET that finds the stack pointer as the call left it pulls that address from the same two places. It
/// continues there with the stack pointer as it was before the call, whatever the other registers are by then.
pub fn call_and_return(before: SpcRegs, low: u8, high: u8, inside: SpcRegs)
    requires { inside.sp ≡ (before.sp + 254) % 256 }
    ensures pushed { let back = (before.pc + 3) % 65536 in
        accesses_of before (0x3F ∷ low ∷ high ∷ 0 ∷ 0 ∷ 0 ∷ 0 ∷ 0 ∷ [])
        ≡ SpcAccess.Fetch before.pc ∷ SpcAccess.Fetch ((before.pc + 1) % 65536) ∷ SpcAccess.Fetch ((before.pc + 2) % 65536)
        ∷ SpcAccess.Inner ∷ SpcAccess.Write (256 + before.sp) (back / 256)
        ∷ SpcAccess.Write (256 + (before.sp + 255) % 256) (back % 256) ∷ SpcAccess.Inner ∷ SpcAccess.Inner ∷ [] }
    ensures called { left_after before (0x3F ∷ low ∷ high ∷ 0 ∷ 0 ∷ 0 ∷ 0 ∷ 0 ∷ [])
        ≡ ends (record before { pc = low + 256 * high; sp = (before.sp + 254) % 256 }) }
    ensures pulled { let back = (before.pc + 3) % 65536 in
        accesses_of inside (0x6F ∷ 0 ∷ 0 ∷ (back % 256) ∷ (back / 256) ∷ [])
        ≡ SpcAccess.Fetch inside.pc ∷ SpcAccess.Inner ∷ SpcAccess.Inner ∷ SpcAccess.Read (256 + (before.sp + 255) % 256)
        ∷ SpcAccess.Read (256 + before.sp) ∷ [] }
    ensures returned { let back = (before.pc + 3) % 65536 in
        left_after inside (0x6F ∷ 0 ∷ 0 ∷ (back % 256) ∷ (back / 256) ∷ [])
        ≡ ends (record inside { pc = back; sp = before.sp }) }
{
    // This read shows the proof that the stack pointer is a byte.
    let _pointer = before.sp;
}
