// Instructions that write data.
ghost use Rattle.std.specs.Prelude.{◌≡◌, ◌<◌, ◌≤◌, IsTrue, true, false};
ghost use Rattle.cpu_modes.specs.Addresses.{is_wide, second};
ghost use Rattle.cpu_modes.specs.Uses.{use_of};
ghost use Rattle.cpu_modes.specs.declared.place.Direction.{Direction};
ghost use Rattle.cpu_modes.specs.declared.place.Reach.{Reach};
ghost use Rattle.cpu_modes.specs.declared.uses.Use.{Use};
ghost use Rattle.cpu_modes.specs.declared.uses.Width.{Width};
ghost use Rattle.beam.specs.Places.{clocks_left};
ghost use Rattle.console_bus.specs.Memory.{IsMemoryAt};
ghost use Rattle.console_bus.specs.Places.{register_written, on_bus};
ghost use Rattle.console_steps.specs.AtOnce.{gone_on};
ghost use Rattle.whole_instructions.specs.Fetching.{HasCode, IsRowAt, IsMade, Reaches};

use crate::code::{Code, high_access, high_byte, low_access, low_byte, pass, passed, write};
use crate::operations::Store;
use crate::ways::{Reached, Way};
use console_bus::{Bus, MemoryAccess};
use console_steps::{REGISTER_CLOCKS, bus_register, is_port};
use cpu_alu::operand_written;
use cpu_modes::{Direction, Reach, Traffic, Width, is_wide};
use cpu_tables::{Regs, Row};

/// Writes data of 8 bits. Returns false if it doesn't fit; then nothing has changed.
#[tactic(auto, using(crate::proofs::Writes::narrow_store))]
#[inline(always)]
fn write_byte(
    regs: &mut Regs,
    bus: &mut Bus,
    code: Code,
    row: Row,
    reach: Reach,
    width: Width,
    reached: Reached,
    low: MemoryAccess,
) -> bool
    requires code { HasCode bus.old regs.old code.at code.clocks }
    requires row { IsRowAt bus.old code.at row.op row.mode }
    requires writes { use_of row.op ≡ Use.Store width }
    requires narrow { is_wide width regs.old ≡ false }
    requires reaches { Reaches row.mode reach bus.old regs.old
        (record { direction = Direction.Store; wide = false }) reached.operands reached.clocks reached.at reached.last }
    requires few { (reached.clocks ≤ 2000) × (reached.operands ≤ 3) × (low.clocks < 256) }
    requires low { IsMemoryAt bus.old.board bus.old.io.fast reached.at low.at low.clocks }
    ensures made { IsTrue result → IsMade regs.old regs.new bus.old bus.new }
    ensures stays { result ≡ false → (regs.new ≡ regs.old) × (bus.new ≡ bus.old) }
{
    let _reach = reach;
    let _width = width;
    let all = code.clocks + reached.clocks + low.clocks;
    if all >= bus.clocks_left() {
        return false;
    }
    let v = low_byte(operand_written(row, passed(regs, reached.operands + 1), 0));
    write(bus, low.at, v);
    pass(regs, bus, reached.operands + 1, v, all);
    true
}

/// Writes data of 16 bits. Returns false if it doesn't fit; then nothing has changed.
#[tactic(auto, using(crate::proofs::Writes::wide_store))]
#[inline(always)]
fn write_word(
    regs: &mut Regs,
    bus: &mut Bus,
    code: Code,
    row: Row,
    reach: Reach,
    width: Width,
    reached: Reached,
    low: MemoryAccess,
    high: MemoryAccess,
) -> bool
    requires code { HasCode bus.old regs.old code.at code.clocks }
    requires row { IsRowAt bus.old code.at row.op row.mode }
    requires writes { use_of row.op ≡ Use.Store width }
    requires wide { is_wide width regs.old ≡ true }
    requires reaches { Reaches row.mode reach bus.old regs.old
        (record { direction = Direction.Store; wide = true }) reached.operands reached.clocks reached.at reached.last }
    requires few { (reached.clocks ≤ 2000) × (reached.operands ≤ 3) × (low.clocks < 256) }
    requires low { IsMemoryAt bus.old.board bus.old.io.fast reached.at low.at low.clocks }
    requires high { IsMemoryAt bus.old.board bus.old.io.fast (second reach reached.at) high.at low.clocks }
    ensures made { IsTrue result → IsMade regs.old regs.new bus.old bus.new }
    ensures stays { result ≡ false → (regs.new ≡ regs.old) × (bus.new ≡ bus.old) }
{
    let _reach = reach;
    let _width = width;
    let all = code.clocks + reached.clocks + 2 * low.clocks;
    if all >= bus.clocks_left() {
        return false;
    }
    let word = operand_written(row, passed(regs, reached.operands + 1), 0);
    let v = high_byte(word);
    write(bus, low.at, low_byte(word));
    write(bus, high.at, v);
    pass(regs, bus, reached.operands + 1, v, all);
    true
}

/// Writes a register of the B bus, and puts the byte on the data bus.
#[inline(always)]
fn put_register(bus: &mut Bus, register: u8, v: u8)
    requires { 6 < clocks_left bus.old.beam }
    ensures { bus.new ≡ gone_on (on_bus (register_written bus.old register v) v) 6 }
{
    bus.write_register(register, v);
    bus.put(v);
    bus.go_on(REGISTER_CLOCKS as u16);
}

/// Writes data of 8 bits to a register of the B bus other than a port. Returns false if it goes elsewhere or doesn't
/// fit; then nothing has changed.
#[inline(always)]
fn write_register(
    regs: &mut Regs,
    bus: &mut Bus,
    code: Code,
    row: Row,
    reach: Reach,
    width: Width,
    reached: Reached,
) -> bool
    requires code { HasCode bus.old regs.old code.at code.clocks }
    requires row { IsRowAt bus.old code.at row.op row.mode }
    requires writes { use_of row.op ≡ Use.Store width }
    requires narrow { is_wide width regs.old ≡ false }
    requires reaches { Reaches row.mode reach bus.old regs.old
        (record { direction = Direction.Store; wide = false }) reached.operands reached.clocks reached.at reached.last }
    requires few { (reached.clocks ≤ 2000) × (reached.operands ≤ 3) }
    ensures made { IsTrue result → IsMade regs.old regs.new bus.old bus.new }
    ensures stays { result ≡ false → (regs.new ≡ regs.old) × (bus.new ≡ bus.old) }
{
    let _reach = reach;
    let _width = width;
    let Some(register) = bus_register(reached.at) else {
        return false;
    };
    if is_port(register) {
        return false;
    }
    let all = code.clocks + reached.clocks;
    if all + REGISTER_CLOCKS as u16 >= bus.clocks_left() {
        return false;
    }
    pass(regs, bus, reached.operands + 1, reached.last, all);
    let v = low_byte(operand_written(row, *regs, 0));
    put_register(bus, register, v);
    true
}

/// Makes an instruction that writes data of a mode. Returns false if it can't be made whole; then nothing has changed.
#[inline(never)]
pub(crate) fn store<W: Way, L: Store>(
    regs: &mut Regs,
    bus: &mut Bus,
    at: usize,
    clocks: u16,
) -> bool
    requires code { HasCode bus.old regs.old at clocks }
    requires row { IsRowAt bus.old at L.OP W.MODE }
    ensures made { IsTrue result → IsMade regs.old regs.new bus.old bus.new }
    ensures stays { result ≡ false → (regs.new ≡ regs.old) × (bus.new ≡ bus.old) }
{
    let code = Code { at, clocks };
    let row = Row {
        op: L::OP,
        mode: W::MODE,
    };
    let wide = is_wide(L::WIDTH, regs);
    let data = Traffic {
        direction: Direction::Store,
        wide,
    };
    let Some(reached) = W::reach(regs, bus, code, data) else {
        return false;
    };
    let Some(low) = low_access(bus, reached.at) else {
        return !wide && write_register(regs, bus, code, row, W::SECOND, L::WIDTH, reached);
    };
    if !wide {
        return write_byte(regs, bus, code, row, W::SECOND, L::WIDTH, reached, low);
    }
    let Some(high) = high_access(bus, W::SECOND, reached.at, low) else {
        return false;
    };
    write_word(
        regs,
        bus,
        code,
        row,
        W::SECOND,
        L::WIDTH,
        reached,
        low,
        high,
    )
}
