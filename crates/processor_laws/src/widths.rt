ghost use Rattle.std.specs.Prelude.{◌≡◌, ◌/◌, false, true};
ghost use Rattle.status_bits.specs.StatusBits.{flag};
ghost use Rattle.cpu_alu.specs.Results.{registers_after};
ghost use Rattle.processor_laws.specs.Wide.{takes_all_of_a};

use cpu_tables::{MEMORY_8, Mode, Op, Regs};

/// Law of 8-bit operations: they leave the high byte of A, except for the few that use all of A.
pub fn high_byte_stays(op: Op, mode: Mode, regs: Regs, word: u16)
    requires narrow { flag regs.p MEMORY_8 ≡ true }
    requires not_wide { takes_all_of_a op ≡ false }
    ensures { (registers_after op mode regs word).a / 256 ≡ regs.a / 256 }
{}
