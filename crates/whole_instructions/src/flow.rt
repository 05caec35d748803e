// Instructions without data: internal cycles, the status byte, branches and jumps.
ghost use Rattle.std.specs.Prelude.{◌≡◌, ◌&&◌, ◌/◌, ◌==◌, not, IsTrue, false, if◌then◌else◌};
ghost use Rattle.cpu_tables.specs.declared.mode.Mode.{Mode};
ghost use Rattle.cpu_tables.specs.declared.operation.Op.{Op};
ghost use Rattle.cpu_alu.specs.Flow.{taken, branch};
ghost use Rattle.cpu_modes.specs.Orders.{leaves_page};
ghost use Rattle.cpu_modes.specs.Uses.{use_of};
ghost use Rattle.cpu_modes.specs.declared.uses.Use.{Use};
ghost use Rattle.whole_instructions.specs.Fetching.{HasCode, IsRowAt, IsMade};

use crate::code::{Code, pass, passed};
use crate::operations::Branch;
use console_bus::Bus;
use cpu_alu::{finish, finish_internal, is_taken, relative};
use cpu_tables::{Mode, Op, Regs, Row};

/// Makes an instruction of one internal cycle. Returns false if it doesn't fit; then nothing has changed. It is built
/// into its caller, so that the operation is a constant in each copy.
#[tactic(auto, using(crate::proofs::Cycles::internal_made))]
#[inline(always)]
pub(crate) fn internal(regs: &mut Regs, bus: &mut Bus, at: usize, clocks: u16, op: Op) -> bool
    requires code { HasCode bus.old regs.old at clocks }
    requires row { IsRowAt bus.old at op Mode.Implied }
    requires uses { use_of op ≡ Use.Internal }
    ensures made { IsTrue result → IsMade regs.old regs.new bus.old bus.new }
    ensures stays { result ≡ false → (regs.new ≡ regs.old) × (bus.new ≡ bus.old) }
{
    let code = Code { at, clocks };
    if clocks + 6 >= bus.clocks_left() {
        return false;
    }
    let opcode = code.opcode(regs, bus);
    pass(regs, bus, 1, opcode, clocks + 6);
    finish_internal(
        regs,
        Row {
            op,
            mode: Mode::Implied,
        },
        0,
    );
    true
}

/// Makes REP or SEP. Returns false if it doesn't fit; then nothing has changed.
#[tactic(auto, using(crate::proofs::Cycles::status_made))]
#[inline(never)]
pub(crate) fn status(regs: &mut Regs, bus: &mut Bus, at: usize, clocks: u16, op: Op) -> bool
    requires code { HasCode bus.old regs.old at clocks }
    requires row { IsRowAt bus.old at op Mode.Immediate }
    requires uses { use_of op ≡ Use.Status }
    ensures made { IsTrue result → IsMade regs.old regs.new bus.old bus.new }
    ensures stays { result ≡ false → (regs.new ≡ regs.old) × (bus.new ≡ bus.old) }
{
    let code = Code { at, clocks };
    if 2 * clocks + 6 >= bus.clocks_left() {
        return false;
    }
    let mask = code.first(regs, bus);
    pass(regs, bus, 2, mask, 2 * clocks + 6);
    finish(
        regs,
        Row {
            op,
            mode: Mode::Immediate,
        },
        mask as u16,
    );
    true
}

/// Returns the clocks of a branch's internal cycles. A taken branch has one, and one more in emulation mode if it
/// leaves the page. The program counter is past the branch.
#[inline(always)]
fn branch_clocks(op: Op, regs: &Regs, offset: u8) -> u16
    ensures { result ≡ (if taken op regs.now.p then (if leaves_page regs.now offset then 12 else 6) else 0) }
{
    if !is_taken(op, regs.p) {
        return 0;
    }
    if regs.e && relative(regs.pc, offset) / 256 != regs.pc / 256 {
        12
    } else {
        6
    }
}

/// Ends a branch. The program counter is past it.
#[inline(always)]
fn go(op: Op, regs: &mut Regs, offset: u8)
    ensures { regs.new ≡ branch op regs.old offset }
{
    if is_taken(op, regs.p) {
        regs.pc = relative(regs.pc, offset);
    }
}

/// Makes a branch. Returns false if it doesn't fit; then nothing has changed.
#[tactic(auto, using(crate::proofs::Cycles::branch_made))]
#[inline(never)]
pub(crate) fn branch<B: Branch>(regs: &mut Regs, bus: &mut Bus, at: usize, clocks: u16) -> bool
    requires code { HasCode bus.old regs.old at clocks }
    requires row { IsRowAt bus.old at B.OP Mode.Relative }
    ensures made { IsTrue result → IsMade regs.old regs.new bus.old bus.new }
    ensures stays { result ≡ false → (regs.new ≡ regs.old) × (bus.new ≡ bus.old) }
{
    let code = Code { at, clocks };
    let offset = code.first(regs, bus);
    let all = 2 * clocks + branch_clocks(B::OP, &passed(regs, 2), offset);
    if all >= bus.clocks_left() {
        return false;
    }
    pass(regs, bus, 2, offset, all);
    go(B::OP, regs, offset);
    true
}

/// Makes JMP to an address. Returns false if it doesn't fit; then nothing has changed.
#[tactic(auto, using(crate::proofs::Cycles::jump_made))]
#[inline(never)]
pub(crate) fn jump(regs: &mut Regs, bus: &mut Bus, at: usize, clocks: u16) -> bool
    requires code { HasCode bus.old regs.old at clocks }
    requires row { IsRowAt bus.old at Op.Jmp Mode.Absolute }
    ensures made { IsTrue result → IsMade regs.old regs.new bus.old bus.new }
    ensures stays { result ≡ false → (regs.new ≡ regs.old) × (bus.new ≡ bus.old) }
{
    let code = Code { at, clocks };
    if 3 * clocks >= bus.clocks_left() {
        return false;
    }
    let target = code.word(regs, bus);
    let last = code.second(regs, bus);
    pass(regs, bus, 3, last, 3 * clocks);
    finish(
        regs,
        Row {
            op: Op::Jmp,
            mode: Mode::Absolute,
        },
        target,
    );
    true
}
