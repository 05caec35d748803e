ghost use Rattle.std.specs.Prelude.{◌≡◌, ◌+◌, ◌%◌, [], ◌∷◌};
ghost use Rattle.spc_modes.specs.Plan.{ends};
ghost use Rattle.processor_laws.specs.Accesses.{accesses_of, left_after};
ghost use Rattle.processor_laws.specs.OnTheStack.{byte_of, pull_opcode, push_opcode, with_byte};

use spc_tables::{SpcAccess, SpcRegs};

/// A register that PUSH puts on the stack and POP takes from it.
#[derive(Clone, Copy)]
pub enum Pushed {
    /// The accumulator.
    A,
    /// The index register X.
    X,
    /// The index register Y.
    Y,
    /// The status byte PSW.
    Status,
}

/// States that POP of a register brings back what PUSH stored. The pull reads where the push wrote. The register and
/// the stack pointer are as they were, whatever the registers were meanwhile.
pub fn comes_back(which: Pushed, before: SpcRegs, inside: SpcRegs)
    requires { inside.sp ≡ (before.sp + 255) % 256 }
    ensures pushed { accesses_of before (push_opcode which ∷ 0 ∷ 0 ∷ 0 ∷ [])
        ≡ SpcAccess.Fetch before.pc ∷ SpcAccess.Inner ∷ SpcAccess.Write (256 + before.sp) (byte_of which before) ∷ SpcAccess.Inner ∷ [] }
    ensures after_push { left_after before (push_opcode which ∷ 0 ∷ 0 ∷ 0 ∷ [])
        ≡ ends (record before { pc = (before.pc + 1) % 65536; sp = (before.sp + 255) % 256 }) }
    ensures pulled { accesses_of inside (pull_opcode which ∷ 0 ∷ 0 ∷ byte_of which before ∷ [])
        ≡ SpcAccess.Fetch inside.pc ∷ SpcAccess.Inner ∷ SpcAccess.Inner ∷ SpcAccess.Read (256 + before.sp) ∷ [] }
    ensures after_pull { left_after inside (pull_opcode which ∷ 0 ∷ 0 ∷ byte_of which before ∷ [])
        ≡ ends (with_byte which (byte_of which before) (record inside { pc = (inside.pc + 1) % 65536; sp = before.sp })) }
{
    // This read shows the proof that the stack pointer is a byte.
    let _pointer = before.sp;
}
