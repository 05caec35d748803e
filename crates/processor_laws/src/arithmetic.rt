ghost use Rattle.std.specs.Prelude.{◌≡◌, ◌+◌, ◌*◌, ◌<◌, ◌≤◌, ◌↔◌, false};
ghost use Rattle.status_bits.specs.StatusBits.{flag};
ghost use Rattle.spc_alu.specs.Results.{internal};
ghost use Rattle.spc_alu.specs.Words.{ya};

use spc_tables::{OVERFLOW, SpcMode, SpcOp, SpcRegs};

/// States that after MUL the word YA is the product of Y and A.
pub fn multiplication(mode: SpcMode, regs: SpcRegs)
    ensures { ya (internal SpcOp.Mul mode regs) ≡ regs.y * regs.a }
{}

/// States that A is the quotient of YA and X, and Y the remainder, if DIV shows no overflow.
pub fn division(mode: SpcMode, regs: SpcRegs)
    ensures whole { flag (internal SpcOp.Div mode regs).psw OVERFLOW ≡ false
        → (internal SpcOp.Div mode regs).a * regs.x + (internal SpcOp.Div mode regs).y ≡ ya regs }
    ensures remainder { flag (internal SpcOp.Div mode regs).psw OVERFLOW ≡ false
        → (internal SpcOp.Div mode regs).y < regs.x }
{
    // This read shows the proof that A is a byte.
    let _a = regs.a;
}

/// States that DIV shows no overflow if and only if the quotient fits a byte.
pub fn division_tells_of_its_overflow(mode: SpcMode, regs: SpcRegs)
    ensures { (flag (internal SpcOp.Div mode regs).psw OVERFLOW ≡ false) ↔ (ya regs < 256 * regs.x) }
{
    // This read shows the proof that A is a byte.
    let _a = regs.a;
}
