// Instructions that push or pull.
ghost use Rattle.std.specs.Prelude.{◌≡◌, ◌<◌, IsTrue, true, false};
ghost use Rattle.cpu_tables.specs.declared.operation.Op.{Op};
ghost use Rattle.cpu_tables.specs.declared.mode.Mode.{Mode};
ghost use Rattle.cpu_modes.specs.Addresses.{is_wide, pulled, pushed, stack};
ghost use Rattle.cpu_modes.specs.Uses.{use_of};
ghost use Rattle.cpu_modes.specs.declared.uses.Use.{Use};
ghost use Rattle.console_bus.specs.Memory.{IsMemoryAt};
ghost use Rattle.whole_instructions.specs.Fetching.{HasCode, IsRowAt, IsMade};

use crate::code::{Code, high_byte, joined, low_access, low_byte, pass, passed, write};
use console_bus::{Bus, MemoryAccess};
use cpu_alu::{finish, finish_load, operand_written};
use cpu_modes::{Width, is_wide, pull_address, pulled_stack, pushed_stack, stack_address};
use cpu_tables::{Mode, Op, Regs, Row};

/// Returns registers after a push.
#[inline(always)]
fn after_push(regs: &Regs) -> Regs
    ensures { result ≡ pushed regs.now }
{
    let mut after = *regs;
    after.s = pushed_stack(regs);
    after
}

/// Returns registers after a pull.
#[inline(always)]
fn after_pull(regs: &Regs) -> Regs
    ensures { result ≡ pulled regs.now }
{
    let mut after = *regs;
    after.s = pulled_stack(regs);
    after
}

/// Moves the stack pointer past a pushed byte.
#[inline(always)]
fn push_on(regs: &mut Regs)
    ensures { regs.new ≡ pushed regs.old }
{
    regs.s = pushed_stack(regs);
}

/// Moves the stack pointer to a pulled byte.
#[inline(always)]
fn pull_on(regs: &mut Regs)
    ensures { regs.new ≡ pulled regs.old }
{
    regs.s = pulled_stack(regs);
}

/// Makes the pull of a register of 8 bits. Returns false if it can't be made whole; then nothing has changed.
#[tactic(auto, using(crate::proofs::Pushes::narrow_pull))]
#[inline(always)]
fn pull_byte(
    regs: &mut Regs,
    bus: &mut Bus,
    code: Code,
    row: Row,
    width: Width,
    first: MemoryAccess,
) -> bool
    requires code { HasCode bus.old regs.old code.at code.clocks }
    requires row { IsRowAt bus.old code.at row.op row.mode }
    requires pulls { use_of row.op ≡ Use.Pull width }
    requires narrow { is_wide width regs.old ≡ false }
    requires first { IsMemoryAt bus.old.board bus.old.io.fast (stack (pulled regs.old)) first.at first.clocks }
    requires few { first.clocks < 256 }
    ensures made { IsTrue result → IsMade regs.old regs.new bus.old bus.new }
    ensures stays { result ≡ false → (regs.new ≡ regs.old) × (bus.new ≡ bus.old) }
{
    let _width = width;
    let all = code.clocks + 12 + first.clocks;
    if all >= bus.clocks_left() {
        return false;
    }
    let byte = bus.load(first.at);
    pass(regs, bus, 1, byte, all);
    pull_on(regs);
    finish_load(regs, row, byte as u16);
    true
}

/// Makes the pull of a register of 16 bits. Returns false if it can't be made whole; then nothing has changed.
#[tactic(auto, using(crate::proofs::Pushes::wide_pull))]
#[inline(always)]
fn pull_word(
    regs: &mut Regs,
    bus: &mut Bus,
    code: Code,
    row: Row,
    width: Width,
    first: MemoryAccess,
    next: MemoryAccess,
) -> bool
    requires code { HasCode bus.old regs.old code.at code.clocks }
    requires row { IsRowAt bus.old code.at row.op row.mode }
    requires pulls { use_of row.op ≡ Use.Pull width }
    requires wide { is_wide width regs.old ≡ true }
    requires first { IsMemoryAt bus.old.board bus.old.io.fast (stack (pulled regs.old)) first.at first.clocks }
    requires next { IsMemoryAt bus.old.board bus.old.io.fast (stack (pulled (pulled regs.old))) next.at next.clocks }
    requires few { (first.clocks < 256) × (next.clocks < 256) }
    ensures made { IsTrue result → IsMade regs.old regs.new bus.old bus.new }
    ensures stays { result ≡ false → (regs.new ≡ regs.old) × (bus.new ≡ bus.old) }
{
    let _width = width;
    let all = code.clocks + 12 + first.clocks + next.clocks;
    if all >= bus.clocks_left() {
        return false;
    }
    let low = bus.load(first.at);
    let high = bus.load(next.at);
    pass(regs, bus, 1, high, all);
    pull_on(regs);
    pull_on(regs);
    finish_load(regs, row, joined(low, high));
    true
}

/// Makes the pull of a register. Returns false if it can't be made whole; then nothing has changed.
#[inline(never)]
pub(crate) fn pull(
    regs: &mut Regs,
    bus: &mut Bus,
    at: usize,
    clocks: u16,
    op: Op,
    width: Width,
) -> bool
    requires code { HasCode bus.old regs.old at clocks }
    requires row { IsRowAt bus.old at op Mode.Stack }
    requires pulls { use_of op ≡ Use.Pull width }
    ensures made { IsTrue result → IsMade regs.old regs.new bus.old bus.new }
    ensures stays { result ≡ false → (regs.new ≡ regs.old) × (bus.new ≡ bus.old) }
{
    let code = Code { at, clocks };
    let row = Row {
        op,
        mode: Mode::Stack,
    };
    let Some(first) = low_access(bus, pull_address(regs)) else {
        return false;
    };
    if !is_wide(width, regs) {
        return pull_byte(regs, bus, code, row, width, first);
    }
    let Some(next) = low_access(bus, pull_address(&after_pull(regs))) else {
        return false;
    };
    pull_word(regs, bus, code, row, width, first, next)
}

/// Makes RTS. Returns false if it can't be made whole; then nothing has changed.
#[tactic(auto, using(crate::proofs::Pushes::return_made))]
#[inline(never)]
pub(crate) fn returned(regs: &mut Regs, bus: &mut Bus, at: usize, clocks: u16) -> bool
    requires code { HasCode bus.old regs.old at clocks }
    requires row { IsRowAt bus.old at Op.Rts Mode.Stack }
    ensures made { IsTrue result → IsMade regs.old regs.new bus.old bus.new }
    ensures stays { result ≡ false → (regs.new ≡ regs.old) × (bus.new ≡ bus.old) }
{
    let code = Code { at, clocks };
    let Some(first) = low_access(bus, pull_address(regs)) else {
        return false;
    };
    let Some(next) = low_access(bus, pull_address(&after_pull(regs))) else {
        return false;
    };
    let all = code.clocks + 18 + first.clocks + next.clocks;
    if all >= bus.clocks_left() {
        return false;
    }
    let low = bus.load(first.at);
    let high = bus.load(next.at);
    pass(regs, bus, 1, high, all);
    pull_on(regs);
    pull_on(regs);
    finish(
        regs,
        Row {
            op: Op::Rts,
            mode: Mode::Stack,
        },
        joined(low, high),
    );
    true
}

/// Makes the push of a register of 8 bits. Returns false if it can't be made whole; then nothing has changed.
#[tactic(auto, using(crate::proofs::Pushes::narrow_push))]
#[inline(always)]
fn push_byte(
    regs: &mut Regs,
    bus: &mut Bus,
    code: Code,
    row: Row,
    width: Width,
    first: MemoryAccess,
) -> bool
    requires code { HasCode bus.old regs.old code.at code.clocks }
    requires row { IsRowAt bus.old code.at row.op row.mode }
    requires pushes { use_of row.op ≡ Use.Push width }
    requires narrow { is_wide width regs.old ≡ false }
    requires first { IsMemoryAt bus.old.board bus.old.io.fast (stack regs.old) first.at first.clocks }
    requires few { first.clocks < 256 }
    ensures made { IsTrue result → IsMade regs.old regs.new bus.old bus.new }
    ensures stays { result ≡ false → (regs.new ≡ regs.old) × (bus.new ≡ bus.old) }
{
    let _width = width;
    let all = code.clocks + 6 + first.clocks;
    if all >= bus.clocks_left() {
        return false;
    }
    let v = low_byte(operand_written(row, passed(regs, 1), 0));
    write(bus, first.at, v);
    pass(regs, bus, 1, v, all);
    push_on(regs);
    finish(regs, row, 0);
    true
}

/// Makes the push of a register of 16 bits. Returns false if it can't be made whole; then nothing has changed.
#[tactic(auto, using(crate::proofs::Pushes::wide_push))]
#[inline(always)]
fn push_word(
    regs: &mut Regs,
    bus: &mut Bus,
    code: Code,
    row: Row,
    width: Width,
    first: MemoryAccess,
    next: MemoryAccess,
) -> bool
    requires code { HasCode bus.old regs.old code.at code.clocks }
    requires row { IsRowAt bus.old code.at row.op row.mode }
    requires pushes { use_of row.op ≡ Use.Push width }
    requires wide { is_wide width regs.old ≡ true }
    requires first { IsMemoryAt bus.old.board bus.old.io.fast (stack regs.old) first.at first.clocks }
    requires next { IsMemoryAt bus.old.board bus.old.io.fast (stack (pushed regs.old)) next.at next.clocks }
    requires few { (first.clocks < 256) × (next.clocks < 256) }
    ensures made { IsTrue result → IsMade regs.old regs.new bus.old bus.new }
    ensures stays { result ≡ false → (regs.new ≡ regs.old) × (bus.new ≡ bus.old) }
{
    let _width = width;
    let all = code.clocks + 6 + first.clocks + next.clocks;
    if all >= bus.clocks_left() {
        return false;
    }
    let word = operand_written(row, passed(regs, 1), 0);
    let v = low_byte(word);
    write(bus, first.at, high_byte(word));
    write(bus, next.at, v);
    pass(regs, bus, 1, v, all);
    push_on(regs);
    push_on(regs);
    finish(regs, row, 0);
    true
}

/// Makes the push of a register. Returns false if it can't be made whole; then nothing has changed.
#[inline(never)]
pub(crate) fn push(
    regs: &mut Regs,
    bus: &mut Bus,
    at: usize,
    clocks: u16,
    op: Op,
    width: Width,
) -> bool
    requires code { HasCode bus.old regs.old at clocks }
    requires row { IsRowAt bus.old at op Mode.Stack }
    requires pushes { use_of op ≡ Use.Push width }
    ensures made { IsTrue result → IsMade regs.old regs.new bus.old bus.new }
    ensures stays { result ≡ false → (regs.new ≡ regs.old) × (bus.new ≡ bus.old) }
{
    let code = Code { at, clocks };
    let row = Row {
        op,
        mode: Mode::Stack,
    };
    let Some(first) = low_access(bus, stack_address(regs)) else {
        return false;
    };
    if !is_wide(width, regs) {
        return push_byte(regs, bus, code, row, width, first);
    }
    let Some(next) = low_access(bus, stack_address(&after_push(regs))) else {
        return false;
    };
    push_word(regs, bus, code, row, width, first, next)
}

/// Makes JSR to an address. Returns false if it can't be made whole; then nothing has changed.
#[tactic(auto, using(crate::proofs::Pushes::call_made))]
#[inline(never)]
pub(crate) fn call(regs: &mut Regs, bus: &mut Bus, at: usize, clocks: u16) -> bool
    requires code { HasCode bus.old regs.old at clocks }
    requires row { IsRowAt bus.old at Op.Jsr Mode.Absolute }
    ensures made { IsTrue result → IsMade regs.old regs.new bus.old bus.new }
    ensures stays { result ≡ false → (regs.new ≡ regs.old) × (bus.new ≡ bus.old) }
{
    let code = Code { at, clocks };
    let Some(first) = low_access(bus, stack_address(regs)) else {
        return false;
    };
    let Some(next) = low_access(bus, stack_address(&after_push(regs))) else {
        return false;
    };
    let all = 3 * code.clocks + 6 + first.clocks + next.clocks;
    if all >= bus.clocks_left() {
        return false;
    }
    let target = code.word(regs, bus);
    let back = passed(regs, 3).pc.wrapping_add(65535);
    let v = low_byte(back);
    write(bus, first.at, high_byte(back));
    write(bus, next.at, v);
    pass(regs, bus, 3, v, all);
    push_on(regs);
    push_on(regs);
    finish(
        regs,
        Row {
            op: Op::Jsr,
            mode: Mode::Absolute,
        },
        target,
    );
    true
}
