// Instructions that read data.
ghost use Rattle.std.specs.Prelude.{◌≡◌, ◌<◌, ◌≤◌, ◌^◌, IsTrue, true, false};
ghost use Rattle.cpu_tables.specs.declared.mode.Mode.{Mode};
ghost use Rattle.cpu_modes.specs.Addresses.{is_wide, second};
ghost use Rattle.cpu_modes.specs.Uses.{use_of};
ghost use Rattle.cpu_modes.specs.declared.place.Direction.{Direction};
ghost use Rattle.cpu_modes.specs.declared.place.Reach.{Reach};
ghost use Rattle.cpu_modes.specs.declared.uses.Use.{Use};
ghost use Rattle.console_bus.specs.Memory.{IsMemoryAt};
ghost use Rattle.whole_instructions.specs.Fetching.{HasCode, IsRowAt, IsMade, Reaches};

use crate::code::{Code, high_access, joined, low_access, pass};
use crate::operations::Load;
use crate::ways::{Reached, Way};
use console_bus::{Bus, MemoryAccess};
use cpu_alu::finish_load;
use cpu_modes::{Direction, Reach, Traffic, Width, is_wide};
use cpu_tables::{Mode, Regs, Row};

/// Reads data of 8 bits, and ends the instruction. Returns false if it doesn't fit; then nothing has changed.
#[tactic(auto, using(crate::proofs::DataReads::narrow_load))]
#[inline(always)]
fn read_byte(
    regs: &mut Regs,
    bus: &mut Bus,
    code: Code,
    row: Row,
    reach: Reach,
    width: Width,
    reached: Reached,
    low: MemoryAccess,
) -> bool
    requires code { HasCode bus.old regs.old code.at code.clocks }
    requires row { IsRowAt bus.old code.at row.op row.mode }
    requires reads { use_of row.op ≡ Use.Load width }
    requires narrow { is_wide width regs.old ≡ false }
    requires reaches { Reaches row.mode reach bus.old regs.old
        (record { direction = Direction.Load; wide = false }) reached.operands reached.clocks reached.at reached.last }
    requires few { (reached.clocks ≤ 2000) × (reached.operands ≤ 3) × (low.clocks < 256) }
    requires low { IsMemoryAt bus.old.board bus.old.io.fast reached.at low.at low.clocks }
    ensures made { IsTrue result → IsMade regs.old regs.new bus.old bus.new }
    ensures stays { result ≡ false → (regs.new ≡ regs.old) × (bus.new ≡ bus.old) }
{
    let _reach = reach;
    let _width = width;
    let all = code.clocks + reached.clocks + low.clocks;
    if all >= bus.clocks_left() {
        return false;
    }
    let byte = bus.load(low.at);
    pass(regs, bus, reached.operands + 1, byte, all);
    finish_load(regs, row, byte as u16);
    true
}

/// Reads data of 16 bits, and ends the instruction. Returns false if it doesn't fit; then nothing has changed.
#[tactic(auto, using(crate::proofs::DataReads::wide_load))]
#[inline(always)]
fn read_word(
    regs: &mut Regs,
    bus: &mut Bus,
    code: Code,
    row: Row,
    reach: Reach,
    width: Width,
    reached: Reached,
    low: MemoryAccess,
    high: MemoryAccess,
) -> bool
    requires code { HasCode bus.old regs.old code.at code.clocks }
    requires row { IsRowAt bus.old code.at row.op row.mode }
    requires reads { use_of row.op ≡ Use.Load width }
    requires wide { is_wide width regs.old ≡ true }
    requires reaches { Reaches row.mode reach bus.old regs.old
        (record { direction = Direction.Load; wide = true }) reached.operands reached.clocks reached.at reached.last }
    requires few { (reached.clocks ≤ 2000) × (reached.operands ≤ 3) × (low.clocks < 256) }
    requires low { IsMemoryAt bus.old.board bus.old.io.fast reached.at low.at low.clocks }
    requires high { IsMemoryAt bus.old.board bus.old.io.fast (second reach reached.at) high.at low.clocks }
    ensures made { IsTrue result → IsMade regs.old regs.new bus.old bus.new }
    ensures stays { result ≡ false → (regs.new ≡ regs.old) × (bus.new ≡ bus.old) }
{
    let _reach = reach;
    let _width = width;
    let all = code.clocks + reached.clocks + 2 * low.clocks;
    if all >= bus.clocks_left() {
        return false;
    }
    let first = bus.load(low.at);
    let next = bus.load(high.at);
    pass(regs, bus, reached.operands + 1, next, all);
    finish_load(regs, row, joined(first, next));
    true
}

/// Makes an instruction that reads data of a mode. Returns false if it can't be made whole; then nothing has changed.
#[inline(never)]
pub(crate) fn load<W: Way, L: Load>(regs: &mut Regs, bus: &mut Bus, at: usize, clocks: u16) -> bool
    requires code { HasCode bus.old regs.old at clocks }
    requires row { IsRowAt bus.old at L.OP W.MODE }
    ensures made { IsTrue result → IsMade regs.old regs.new bus.old bus.new }
    ensures stays { result ≡ false → (regs.new ≡ regs.old) × (bus.new ≡ bus.old) }
{
    let code = Code { at, clocks };
    let row = Row {
        op: L::OP,
        mode: W::MODE,
    };
    let wide = is_wide(L::WIDTH, regs);
    let data = Traffic {
        direction: Direction::Load,
        wide,
    };
    let Some(reached) = W::reach(regs, bus, code, data) else {
        return false;
    };
    let Some(low) = low_access(bus, reached.at) else {
        return false;
    };
    if !wide {
        return read_byte(regs, bus, code, row, W::SECOND, L::WIDTH, reached, low);
    }
    let Some(high) = high_access(bus, W::SECOND, reached.at, low) else {
        return false;
    };
    read_word(
        regs,
        bus,
        code,
        row,
        W::SECOND,
        L::WIDTH,
        reached,
        low,
        high,
    )
}

/// Makes an instruction whose data follows its opcode. Returns false if it doesn't fit; then nothing has changed.
#[tactic(auto, using(crate::proofs::DataReads::narrow_immediate, crate::proofs::DataReads::wide_immediate))]
#[inline(never)]
pub(crate) fn immediate<L: Load>(regs: &mut Regs, bus: &mut Bus, at: usize, clocks: u16) -> bool
    requires code { HasCode bus.old regs.old at clocks }
    requires row { IsRowAt bus.old at L.OP Mode.Immediate }
    ensures made { IsTrue result → IsMade regs.old regs.new bus.old bus.new }
    ensures stays { result ≡ false → (regs.new ≡ regs.old) × (bus.new ≡ bus.old) }
{
    let code = Code { at, clocks };
    let row = Row {
        op: L::OP,
        mode: Mode::Immediate,
    };
    if !is_wide(L::WIDTH, regs) {
        if 2 * clocks >= bus.clocks_left() {
            return false;
        }
        let byte = code.first(regs, bus);
        pass(regs, bus, 2, byte, 2 * clocks);
        finish_load(regs, row, byte as u16);
        return true;
    }
    if 3 * clocks >= bus.clocks_left() {
        return false;
    }
    let word = code.word(regs, bus);
    let last = code.second(regs, bus);
    pass(regs, bus, 3, last, 3 * clocks);
    finish_load(regs, row, word);
    true
}
