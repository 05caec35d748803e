// The step of the earlier side, over a whole.
ghost use Rattle.std.specs.Prelude.{◌≡◌};
ghost use Rattle.pair_run.specs.OverWhole.{MayStep, HasMadeStep};

use crate::over::OverWhole;
use clock_ratio::least;
use port_wire::Wire;
use side_law::Machine;
use snes_defs::Side;

/// Runs the steps of a machine that begin at a stamp, which is that of its next step: that step alone.
#[inline(always)]
fn run_step<W: Wire, M: Machine>(machine: &mut M, ports: &mut OverWhole<'_, W>, at: u64)
    requires now { at ≡ M.stamp_of machine.old }
    requires may { MayStep (W.region_of ports.old.wire.now) (M.region_of machine.old) M.MOST M.CAP
        (M.stamp_of machine.old) ports.old.side (W.both ports.old.whole.now) (M.waiting machine.old) }
    ensures same_reference { (ports.new.wire.now ≡ ports.old.wire.now)
        × (ports.new.whole.ghost_name ≡ ports.old.whole.ghost_name) }
    ensures same_region { M.region_of machine.new ≡ M.region_of machine.old }
    ensures made { HasMadeStep (W.region_of ports.old.wire.now) ports.old.side M.moves M.MOST
        (M.stands machine.old) (M.stands machine.new) (M.stamp_of machine.old) (M.stamp_of machine.new)
        (W.both ports.old.whole.now) (W.both ports.new.whole.now) (M.waiting machine.old) (M.waiting machine.new) }
{
    let _stands = machine.stamp();
    let _stop = machine.advance(at + 1, ports);
}

/// Makes the next step of the machine of a side, which is the earlier one: the other side's clock settles what it
/// reads, so no call is refused.
#[inline(always)]
pub(crate) fn step_over<W: Wire, M: Machine>(
    wire: &W,
    whole: &mut W::Whole,
    side: Side,
    machine: &mut M,
)
    requires of { W.is_whole_of wire.now whole.old }
    requires may { MayStep (W.region_of wire.now) (M.region_of machine.old) M.MOST M.CAP
        (M.stamp_of machine.old) side (W.both whole.old) (M.waiting machine.old) }
    ensures still_of { W.is_whole_of wire.now whole.new }
    ensures same_region { M.region_of machine.new ≡ M.region_of machine.old }
    ensures made { HasMadeStep (W.region_of wire.now) side M.moves M.MOST
        (M.stands machine.old) (M.stands machine.new) (M.stamp_of machine.old) (M.stamp_of machine.new)
        (W.both whole.old) (W.both whole.new) (M.waiting machine.old) (M.waiting machine.new) }
{
    let at = machine.stamp();
    let mut ports = OverWhole {
        wire,
        whole,
        side,
        least: least(wire.region()),
    };
    run_step(machine, &mut ports, at);
}
