ghost use Rattle.std.specs.Prelude.{◌≡◌, ◌+◌, ◌*◌, ◌%◌, [], ◌∷◌};
ghost use Rattle.status_bits.specs.StatusBits.{flag};
ghost use Rattle.spc_alu.specs.Status.{with_nz_word};
ghost use Rattle.spc_modes.specs.Addresses.{direct, next_in_page};
ghost use Rattle.spc_modes.specs.Plan.{ends};
ghost use Rattle.processor_laws.specs.Accesses.{accesses_of, left_after};

use spc_tables::{DIRECT_PAGE, SpcAccess, SpcRegs};

/// States that MOVW loads from a place of the direct page the word that MOVW stored there. The load reads where the
/// store wrote, with the same direct page. YA is as it was stored, whatever the registers were meanwhile.
pub fn word_comes_back(before: SpcRegs, after: SpcRegs, offset: u8)
    requires { flag after.psw DIRECT_PAGE ≡ flag before.psw DIRECT_PAGE }
    ensures written { let at = direct before offset in
        accesses_of before (0xDA ∷ offset ∷ 0 ∷ 0 ∷ 0 ∷ [])
        ≡ SpcAccess.Fetch before.pc ∷ SpcAccess.Fetch ((before.pc + 1) % 65536) ∷ SpcAccess.Inner
        ∷ SpcAccess.Write at before.a ∷ SpcAccess.Write (next_in_page at) before.y ∷ [] }
    ensures after_store { left_after before (0xDA ∷ offset ∷ 0 ∷ 0 ∷ 0 ∷ [])
        ≡ ends (record before { pc = (before.pc + 2) % 65536 }) }
    ensures read { let at = direct before offset in
        accesses_of after (0xBA ∷ offset ∷ before.a ∷ 0 ∷ before.y ∷ [])
        ≡ SpcAccess.Fetch after.pc ∷ SpcAccess.Fetch ((after.pc + 1) % 65536) ∷ SpcAccess.Read at ∷ SpcAccess.Inner
        ∷ SpcAccess.Read (next_in_page at) ∷ [] }
    ensures after_load { left_after after (0xBA ∷ offset ∷ before.a ∷ 0 ∷ before.y ∷ [])
        ≡ ends (record after {
          pc = (after.pc + 2) % 65536;
          a = before.a;
          y = before.y;
          psw = with_nz_word (before.a + 256 * before.y) after.psw;
        }) }
{
    // This read shows the proof that A is a byte.
    let _low = before.a;
}
