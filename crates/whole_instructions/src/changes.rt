// Instructions that change data.
ghost use Rattle.std.specs.Prelude.{◌≡◌, ◌<◌, ◌≤◌, IsTrue, true, false};
ghost use Rattle.cpu_tables.specs.declared.mode.Mode.{Mode};
ghost use Rattle.cpu_modes.specs.Addresses.{is_wide, second};
ghost use Rattle.cpu_modes.specs.Uses.{use_of};
ghost use Rattle.cpu_modes.specs.declared.place.Direction.{Direction};
ghost use Rattle.cpu_modes.specs.declared.place.Reach.{Reach};
ghost use Rattle.cpu_modes.specs.declared.uses.Use.{Use};
ghost use Rattle.cpu_modes.specs.declared.uses.Width.{Width};
ghost use Rattle.console_bus.specs.Memory.{IsMemoryAt};
ghost use Rattle.whole_instructions.specs.Fetching.{HasCode, IsRowAt, IsMade, Reaches};

use crate::code::{
    Code, high_access, high_byte, joined, low_access, low_byte, pass, passed, write,
};
use crate::operations::Change;
use crate::ways::{Reached, Way};
use console_bus::{Bus, MemoryAccess};
use cpu_alu::{finish_change, operand_written};
use cpu_modes::{Direction, Reach, Traffic, Width, is_wide};
use cpu_tables::{Mode, Regs, Row};

/// Changes data of 8 bits, and ends the instruction. Returns false if it doesn't fit; then nothing has changed.
#[tactic(auto, using(crate::proofs::Writes::narrow_change))]
#[inline(always)]
fn change_byte(
    regs: &mut Regs,
    bus: &mut Bus,
    code: Code,
    row: Row,
    reach: Reach,
    reached: Reached,
    low: MemoryAccess,
) -> bool
    requires code { HasCode bus.old regs.old code.at code.clocks }
    requires row { IsRowAt bus.old code.at row.op row.mode }
    requires changes { use_of row.op ≡ Use.Change Width.Memory }
    requires narrow { is_wide Width.Memory regs.old ≡ false }
    requires reaches { Reaches row.mode reach bus.old regs.old
        (record { direction = Direction.Change; wide = false }) reached.operands reached.clocks reached.at reached.last }
    requires few { (reached.clocks ≤ 2000) × (reached.operands ≤ 3) × (low.clocks < 256) }
    requires low { IsMemoryAt bus.old.board bus.old.io.fast reached.at low.at low.clocks }
    ensures made { IsTrue result → IsMade regs.old regs.new bus.old bus.new }
    ensures stays { result ≡ false → (regs.new ≡ regs.old) × (bus.new ≡ bus.old) }
{
    let _reach = reach;
    let all = code.clocks + reached.clocks + 2 * low.clocks + 6;
    if all >= bus.clocks_left() {
        return false;
    }
    let got = bus.load(low.at) as u16;
    let v = low_byte(operand_written(row, passed(regs, reached.operands + 1), got));
    write(bus, low.at, v);
    pass(regs, bus, reached.operands + 1, v, all);
    finish_change(regs, row, got);
    true
}

/// Changes data of 16 bits, and ends the instruction. Returns false if it doesn't fit; then nothing has changed.
#[tactic(auto, using(crate::proofs::Writes::wide_change))]
#[inline(always)]
fn change_word(
    regs: &mut Regs,
    bus: &mut Bus,
    code: Code,
    row: Row,
    reach: Reach,
    reached: Reached,
    low: MemoryAccess,
    high: MemoryAccess,
) -> bool
    requires code { HasCode bus.old regs.old code.at code.clocks }
    requires row { IsRowAt bus.old code.at row.op row.mode }
    requires changes { use_of row.op ≡ Use.Change Width.Memory }
    requires wide { is_wide Width.Memory regs.old ≡ true }
    requires reaches { Reaches row.mode reach bus.old regs.old
        (record { direction = Direction.Change; wide = true }) reached.operands reached.clocks reached.at reached.last }
    requires few { (reached.clocks ≤ 2000) × (reached.operands ≤ 3) × (low.clocks < 256) }
    requires low { IsMemoryAt bus.old.board bus.old.io.fast reached.at low.at low.clocks }
    requires high { IsMemoryAt bus.old.board bus.old.io.fast (second reach reached.at) high.at low.clocks }
    ensures made { IsTrue result → IsMade regs.old regs.new bus.old bus.new }
    ensures stays { result ≡ false → (regs.new ≡ regs.old) × (bus.new ≡ bus.old) }
{
    let _reach = reach;
    let all = code.clocks + reached.clocks + 4 * low.clocks + 6;
    if all >= bus.clocks_left() {
        return false;
    }
    let got = joined(bus.load(low.at), bus.load(high.at));
    let word = operand_written(row, passed(regs, reached.operands + 1), got);
    let v = low_byte(word);
    write(bus, high.at, high_byte(word));
    write(bus, low.at, v);
    pass(regs, bus, reached.operands + 1, v, all);
    finish_change(regs, row, got);
    true
}

/// Makes an instruction that changes A. Returns false if it doesn't fit; then nothing has changed.
#[tactic(auto, using(crate::proofs::Cycles::change_a_made))]
#[inline(never)]
pub(crate) fn change_a<L: Change>(regs: &mut Regs, bus: &mut Bus, at: usize, clocks: u16) -> bool
    requires code { HasCode bus.old regs.old at clocks }
    requires row { IsRowAt bus.old at L.OP Mode.Accumulator }
    ensures made { IsTrue result → IsMade regs.old regs.new bus.old bus.new }
    ensures stays { result ≡ false → (regs.new ≡ regs.old) × (bus.new ≡ bus.old) }
{
    let code = Code { at, clocks };
    if clocks + 6 >= bus.clocks_left() {
        return false;
    }
    let opcode = code.opcode(regs, bus);
    pass(regs, bus, 1, opcode, clocks + 6);
    finish_change(
        regs,
        Row {
            op: L::OP,
            mode: Mode::Accumulator,
        },
        0,
    );
    true
}

/// Makes an instruction that changes data of a mode. Returns false if it can't be made whole; then nothing has changed.
#[inline(never)]
pub(crate) fn change<W: Way, L: Change>(
    regs: &mut Regs,
    bus: &mut Bus,
    at: usize,
    clocks: u16,
) -> bool
    requires code { HasCode bus.old regs.old at clocks }
    requires row { IsRowAt bus.old at L.OP W.MODE }
    ensures made { IsTrue result → IsMade regs.old regs.new bus.old bus.new }
    ensures stays { result ≡ false → (regs.new ≡ regs.old) × (bus.new ≡ bus.old) }
{
    let code = Code { at, clocks };
    let row = Row {
        op: L::OP,
        mode: W::MODE,
    };
    let wide = is_wide(Width::Memory, regs);
    let data = Traffic {
        direction: Direction::Change,
        wide,
    };
    let Some(reached) = W::reach(regs, bus, code, data) else {
        return false;
    };
    let Some(low) = low_access(bus, reached.at) else {
        return false;
    };
    if !wide {
        return change_byte(regs, bus, code, row, W::SECOND, reached, low);
    }
    let Some(high) = high_access(bus, W::SECOND, reached.at, low) else {
        return false;
    };
    change_word(regs, bus, code, row, W::SECOND, reached, low, high)
}
