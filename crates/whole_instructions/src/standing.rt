// The processor put before its data, where that is no memory.
ghost use Rattle.std.specs.Prelude.{◌≡◌, IsTrue, false};
ghost use Rattle.cpu_modes.specs.Orders.{by_mode, order};
ghost use Rattle.whole_instructions.specs.Fetching.{HasCode, IsOpcodeOf, past};
ghost use Rattle.whole_instructions.specs.Runs.{StandsBefore};

use crate::code::{Code, low_access, pass};
use crate::ways::{
    Absolute, AbsoluteX, AbsoluteY, Direct, DirectLongPointer, DirectLongPointerY, DirectPointer,
    DirectPointerY, DirectX, DirectXPointer, DirectY, Long, LongX, StackPointerY, StackRelative,
    Way,
};
use console_bus::Bus;
use cpu_modes::{Direction, Micro, Traffic, Use, is_wide, use_of};
use cpu_tables::{Mode, Row, row};

/// With fewer clocks than these before the beam's next place, the processor isn't put before its data. Mostly the
/// accesses before that don't fit then.
const FEW_CLOCKS: u16 = 32;

/// Makes all accesses of an instruction before its data, if they fit and the data is no memory. Otherwise nothing
/// changes.
#[inline(always)]
fn before<W: Way>(micro: &mut Micro, bus: &mut Bus, code: Code, row: Row, traffic: Traffic) -> bool
    requires code { HasCode bus.old micro.old.here code.at code.clocks }
    requires row { IsOpcodeOf bus.old code.at row }
    requires order { order row (past micro.old.here 1) ≡ by_mode W.MODE traffic row (past micro.old.here 1) }
    ensures before { IsTrue result → StandsBefore micro.old.here micro.new bus.old bus.new }
    ensures stays { result ≡ false → (micro.new.here ≡ micro.old.here) × (bus.new ≡ bus.old) }
{
    let Some(reached) = W::reach(&micro.here, bus, code, traffic) else {
        return false;
    };
    if low_access(bus, reached.at).is_some() {
        return false;
    }
    let all = code.clocks + reached.clocks;
    if all >= bus.clocks_left() {
        return false;
    }
    micro.start = micro.here;
    pass(
        &mut micro.here,
        bus,
        reached.operands + 1,
        reached.last,
        all,
    );
    micro.row = row;
    micro.traffic = traffic;
    micro.reach_data(W::SECOND, reached.at);
    true
}

/// Puts the processor before its data by the addressing mode.
#[inline(always)]
fn before_by(micro: &mut Micro, bus: &mut Bus, code: Code, row: Row, traffic: Traffic) -> bool
    requires code { HasCode bus.old micro.old.here code.at code.clocks }
    requires row { IsOpcodeOf bus.old code.at row }
    requires order { order row (past micro.old.here 1) ≡ by_mode row.mode traffic row (past micro.old.here 1) }
    ensures before { IsTrue result → StandsBefore micro.old.here micro.new bus.old bus.new }
    ensures stays { result ≡ false → (micro.new.here ≡ micro.old.here) × (bus.new ≡ bus.old) }
{
    match row.mode {
        Mode::Direct => before::<Direct>(micro, bus, code, row, traffic),
        Mode::DirectX => before::<DirectX>(micro, bus, code, row, traffic),
        Mode::DirectY => before::<DirectY>(micro, bus, code, row, traffic),
        Mode::Absolute => before::<Absolute>(micro, bus, code, row, traffic),
        Mode::AbsoluteX => before::<AbsoluteX>(micro, bus, code, row, traffic),
        Mode::AbsoluteY => before::<AbsoluteY>(micro, bus, code, row, traffic),
        Mode::Long => before::<Long>(micro, bus, code, row, traffic),
        Mode::LongX => before::<LongX>(micro, bus, code, row, traffic),
        Mode::StackRelative => before::<StackRelative>(micro, bus, code, row, traffic),
        Mode::DirectPointer => before::<DirectPointer>(micro, bus, code, row, traffic),
        Mode::DirectXPointer => before::<DirectXPointer>(micro, bus, code, row, traffic),
        Mode::DirectPointerY => before::<DirectPointerY>(micro, bus, code, row, traffic),
        Mode::DirectLongPointer => before::<DirectLongPointer>(micro, bus, code, row, traffic),
        Mode::DirectLongPointerY => before::<DirectLongPointerY>(micro, bus, code, row, traffic),
        Mode::StackPointerY => before::<StackPointerY>(micro, bus, code, row, traffic),
        _ => false,
    }
}

/// Puts the processor before the data of the instruction that begins here, if that is no memory: it makes all accesses
/// before the data. Otherwise nothing changes.
#[tactic(auto, using(crate::proofs::Orders::load_order, crate::proofs::Orders::store_order, crate::proofs::Orders::change_order,))]
#[inline(never)]
pub(crate) fn stand_before(micro: &mut Micro, bus: &mut Bus) -> bool
    ensures before { IsTrue result → StandsBefore micro.old.here micro.new bus.old bus.new }
    ensures stays { result ≡ false → (micro.new.here ≡ micro.old.here) × (bus.new ≡ bus.old) }
{
    if bus.clocks_left() < FEW_CLOCKS {
        return false;
    }
    let Some(code) = Code::of(&micro.here, bus) else {
        return false;
    };
    let row = row(code.opcode(&micro.here, bus));
    match use_of(row.op) {
        Use::Load(width) => {
            let traffic = Traffic {
                direction: Direction::Load,
                wide: is_wide(width, &micro.here),
            };
            before_by(micro, bus, code, row, traffic)
        }
        Use::Store(width) => {
            let traffic = Traffic {
                direction: Direction::Store,
                wide: is_wide(width, &micro.here),
            };
            before_by(micro, bus, code, row, traffic)
        }
        Use::Change(width) => {
            let traffic = Traffic {
                direction: Direction::Change,
                wide: is_wide(width, &micro.here),
            };
            before_by(micro, bus, code, row, traffic)
        }
        _ => false,
    }
}
