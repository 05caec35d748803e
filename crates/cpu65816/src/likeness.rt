// Whether two processors between two instructions have the same left to do.
ghost use Rattle.std.specs.Prelude.{◌≡◌, IsTrue, None, false};
ghost use Rattle.cpu_modes.specs.Plan.{finished};
ghost use Rattle.cpu_modes.specs.Remaining.{remaining};

use cpu_modes::Micro;
use cpu_tables::Regs;

/// Whether two sets of registers are the same; the program counter is compared first, since it mostly differs.
#[tactic(auto, using(crate::proofs::Alike::same_regs))]
#[inline(always)]
pub(crate) fn same_registers(a: &Regs, b: &Regs) -> bool
    ensures { IsTrue result → a.now ≡ b.now }
{
    a.pc == b.pc
        && a.a == b.a
        && a.x == b.x
        && a.y == b.y
        && a.s == b.s
        && a.d == b.d
        && a.pbr == b.pbr
        && a.dbr == b.dbr
        && a.p == b.p
        && a.e == b.e
}

/// Whether both instructions have ended.
#[tactic(auto, using(crate::proofs::Alike::same_ended))]
#[inline(always)]
fn both_ended(a: &Micro, b: &Micro) -> bool
    requires { a.now.here ≡ b.now.here }
    ensures { IsTrue result → remaining a.now ≡ remaining b.now }
{
    if !a.has_ended(false) {
        return false;
    }
    b.has_ended(false)
}

/// Whether both instructions wait for an interrupt.
#[tactic(auto, using(crate::proofs::Alike::same_wait))]
#[inline(always)]
fn both_wait(a: &Micro, b: &Micro) -> bool
    requires { a.now.here ≡ b.now.here }
    ensures { IsTrue result → remaining a.now ≡ remaining b.now }
{
    if a.has_ended(false) || b.has_ended(false) {
        return false;
    }
    if !a.has_ended(true) {
        return false;
    }
    b.has_ended(true)
}

/// Whether both instructions have ended, or both wait, with the same registers.
#[inline(always)]
pub(crate) fn leave_the_same(a: &Micro, b: &Micro) -> bool
    ensures { IsTrue result → remaining a.now ≡ remaining b.now }
{
    if !same_registers(&a.here, &b.here) {
        return false;
    }
    both_ended(a, b) || both_wait(a, b)
}

/// Whether both instructions began with the same registers, or the first has ended.
#[inline(always)]
pub(crate) fn starts_alike(a: &Micro, b: &Micro) -> bool
    ensures { IsTrue result → finished false (remaining a.now) ≡ None → a.now.start ≡ b.now.start }
{
    a.has_ended(false) || same_registers(&a.start, &b.start)
}
