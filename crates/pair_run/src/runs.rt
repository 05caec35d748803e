// The steps of a leg: as many as the machine runs over its pass in one call.
ghost use Rattle.std.specs.Prelude.{◌≡◌, ◌+◌, ◌*◌, ◌<◌, ◌≤◌, OnOk, IfErr};
ghost use Rattle.clock_ratio.specs.Stamp.{window_of};
ghost use Rattle.pair_run.specs.Over.{KeepsWithin, MayRun, HasTried, IsHeldStill, IsHeldOff};

use crate::limits::limit;
use crate::over::Over;
use clock_ratio::least;
use port_wire::{PassLate, Wire};
use side_law::Machine;
use snes_defs::Act;

/// Runs steps over a pass, each begun before `until`. It makes none only if the call of the next one is refused.
#[inline(always)]
fn run_over<W: Wire, M: Machine>(machine: &mut M, over: &mut Over<'_, W>, until: u64)
    requires region { M.region_of machine.old ≡ W.region_of over.old.wire.now }
    requires held { over.old.held + 2 * M.MOST ≡ M.CAP }
    requires may { MayRun (W.region_of over.old.wire.now) M.MOST M.CAP (M.stamp_of machine.old) until
        (W.seen over.old.pass.now).half (M.waiting machine.old) }
    requires keeps { KeepsWithin M.moves (M.stands machine.old) (M.stamp_of machine.old) until
        ((W.seen over.old.pass.now).half.known + window_of (W.region_of over.old.wire.now)) }
    ensures same_reference { (over.new.wire.now ≡ over.old.wire.now)
        × (over.new.pass.ghost_name ≡ over.old.pass.ghost_name) }
    ensures side { (W.seen over.new.pass.now).side ≡ (W.seen over.old.pass.now).side }
    ensures same_region { M.region_of machine.new ≡ M.region_of machine.old }
    ensures tried { HasTried (W.region_of over.old.wire.now) (W.seen over.old.pass.now).side M.moves M.MOST M.CAP
        until (M.stands machine.old) (M.stands machine.new) (M.stamp_of machine.old) (M.stamp_of machine.new)
        (W.seen over.old.pass.now).half (W.seen over.new.pass.now).half
        (M.waiting machine.old) (M.waiting machine.new) }
    ensures held { M.stamp_of machine.new ≤ M.stamp_of machine.old → (m : M.State) → M.stands machine.old m
        → (M.moves.act m ≡ Act.Quiet → ⊥) × IsHeldStill M.moves (M.stands machine.new) (M.stamp_of machine.old)
        over.new.late
        (W.seen over.old.pass.now).half (W.seen over.new.pass.now).half m }
{
    let _begun = machine.stamp();
    let _stop = machine.advance(until, over);
}

/// Runs steps before `end` over a pass, as many as the machine runs in one call. It makes none only if the next one is
/// refused.
#[inline(always)]
pub(crate) fn run_on<W: Wire, M: Machine>(
    wire: &W,
    pass: &mut W::Pass,
    machine: &mut M,
    end: u64,
) -> Result<(), PassLate>
    requires of { W.is_pass_of wire.now pass.old }
    requires region { M.region_of machine.old ≡ W.region_of wire.now }
    requires may { MayRun (W.region_of wire.now) M.MOST M.CAP (M.stamp_of machine.old) end
        (W.seen pass.old).half (M.waiting machine.old) }
    ensures still_of { W.is_pass_of wire.now pass.new }
    ensures side { (W.seen pass.new).side ≡ (W.seen pass.old).side }
    ensures same_region { M.region_of machine.new ≡ M.region_of machine.old }
    ensures tried { HasTried (W.region_of wire.now) (W.seen pass.old).side M.moves M.MOST M.CAP end
        (M.stands machine.old) (M.stands machine.new) (M.stamp_of machine.old) (M.stamp_of machine.new)
        (W.seen pass.old).half (W.seen pass.new).half (M.waiting machine.old) (M.waiting machine.new) }
    ensures rises { OnOk result (M.stamp_of machine.old < M.stamp_of machine.new) }
    ensures held { IfErr result (IsHeldOff M.moves (M.stands machine.old) (M.stands machine.new)
        (M.stamp_of machine.old) (M.stamp_of machine.new) (W.seen pass.old).half (W.seen pass.new).half) }
{
    let until = limit(wire, pass, machine, end)?;
    let at = machine.stamp();
    let mut over = Over {
        wire,
        pass,
        least: least(wire.region()),
        late: PassLate::Ahead { at, other: at },
        held: M::CAP - M::MOST - M::MOST,
    };
    run_over(machine, &mut over, until);
    if machine.stamp() > at {
        return Ok(());
    }
    let _act = machine.act();
    Err(over.late)
}
